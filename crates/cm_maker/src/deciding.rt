// What bounds say of a right.
ghost use Rattle.std.specs.Prelude.{◌<◌, ◌^◌, length};
ghost use Rattle.cm_base.specs.Outcome.{OrNoMemory};
ghost use Rattle.cm_filter.specs.Filters.{permits};
ghost use Rattle.cm_maker.specs.Bounded.{IsBounded, IsWritten};
ghost use Rattle.cm_state.specs.Right.{right_of};
ghost use Rattle.model_box.specs.Meets.{IsOverStanding};

use crate::{Blamed, blame, least};
use cm_base::{NoMemory, Pid};
use cm_box::{Bounds, meets};
use cm_files::FileTable;
use cm_filter::Filter;
use cm_state::{Right, State};
use std::alloc::Global;

/// The least bounds exclude the right; or they meet it, and this is blamed.
#[derive(Debug, Drop)]
pub enum Bounded {
    Excludes(Bounds),
    Blames(Blamed),
}

/// Which of the two it is. Fewer than 2^31 spaces stand, and that of the right does. It fails only where memory runs
/// out.
pub fn decide(
    alloc: Global,
    st: &State,
    files: &FileTable,
    filter: Filter,
    members: &[Pid],
    right: &Right,
) -> Result<Bounded, NoMemory>
    requires few { length st.now.spaces < 2 ^ 31 }
    requires named { IsOverStanding st.now.spaces (right_of right.now) }
    ensures decided { OrNoMemory result (IsBounded (permits filter) files.now st.now members.now (right_of right.now)) }
    ensures written { OrNoMemory result (IsWritten st.now.spaces) }
{
    let bounds = least(alloc, st, files, filter, members)?;
    match meets(st, &bounds, right) {
        None => Ok(Bounded::Excludes(bounds)),
        Some(_) => {
            let x = blame(alloc, st, files, filter, members, right)?;
            Ok(Bounded::Blames(x))
        }
    }
}
