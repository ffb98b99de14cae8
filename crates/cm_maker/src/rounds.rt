// The least bounds, by rounds.
ghost use Rattle.std.specs.Prelude.{◌≡◌, ◌<◌, ◌*◌, ◌^◌, All, length};
ghost use Rattle.cm_base.specs.Outcome.{OrNoMemory};
ghost use Rattle.cm_filter.specs.Filters.{permits};
ghost use Rattle.model_box.specs.Bounds.{bounds_hold};
ghost use Rattle.model_verdict.specs.Least.{IsLeast};
ghost use Rattle.model_verdict.specs.Rows.{IsRow};

use crate::seeing::see_rows;
use crate::sweep::round;
use cm_base::{NoMemory, Pid};
use cm_box::{Bounds, Setting, closed, start_bounds};
use cm_files::FileTable;
use cm_filter::Filter;
use cm_state::{State, see_state};
use std::alloc::Global;

/// The least bounds that are closed under the filter and cover the members now: they are within all others, of whatever
/// form. Found by rounds, in place, from the start bounds on. Fewer than 2^31 spaces stand. It fails only where memory
/// runs out.
pub fn least_by_rounds(
    alloc: Global,
    st: &State,
    files: &FileTable,
    filter: Filter,
    members: &[Pid],
) -> Result<Bounds, NoMemory>
    requires few { length st.now.spaces < 2 ^ 31 }
    ensures count { OrNoMemory result (λ bounds. length bounds ≡ 2 * length st.now.spaces) }
    ensures least { OrNoMemory result (λ bounds. IsLeast (permits filter) files.now st.now members.now
        (bounds_hold bounds)) }
    ensures written { OrNoMemory result (λ bounds. All IsRow bounds) }
{
    see_state(st);
    let setting = Setting {
        state: st,
        files,
        filter,
    };
    let mut bounds = start_bounds(alloc, st, members)?;
    loop {
        match closed(st, files, filter, &bounds) {
            Some(_) => round(alloc, &setting, &mut bounds)?,
            None => {
                see_rows(bounds.rows.items());
                return Ok(bounds);
            }
        }
    }
}
