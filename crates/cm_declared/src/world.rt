// The world as its text declares it: what stands before a log begins, and the form of the log.
use crate::Names;
use cm_files::FileTable;
use cm_filter::Filter;
use cm_state::State;

/// The form of a log (choice).
#[derive(Clone, Copy, Debug, PartialEq, Eq)]
pub enum LogForm {
    /// A line for each event: pid, call, arguments, result.
    Script,
    /// Lines of strace(1).
    Strace,
}

/// What stands before a log begins.
#[derive(Debug, Drop)]
pub struct World {
    /// The declared processes and spaces.
    pub start: State,
    /// The names of the declared spaces.
    pub names: Names,
    /// The declared mounts and files.
    pub files: FileTable,
    /// The calls that are excluded after the log.
    pub filter: Filter,
    /// The form of the log.
    pub form: LogForm,
}
