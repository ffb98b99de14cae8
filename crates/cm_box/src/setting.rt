// What rules look at besides bounds.
use cm_files::FileTable;
use cm_filter::Filter;
use cm_state::State;

/// What rules look at besides bounds: the state, the declared files, and the calls that the filter permits.
#[derive(Clone, Copy, Debug)]
pub struct Setting<'a> {
    pub state: &'a State,
    pub files: &'a FileTable,
    pub filter: Filter,
}
