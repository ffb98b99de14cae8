// A pass over the rows that are to be looked at.
ghost use Rattle.std.specs.Prelude.{◌≡◌, ℕ, ◌<◌, false, slice_set};
ghost use Rattle.cm_base.specs.Outcome.{OrNoMemory};
ghost use Rattle.cm_maker.specs.Widening.{AreWaiting, IsReady, IsReadyAt, Passes, is_listed};
ghost use Rattle.model_verdict.specs.Sweep.{row_count};

use crate::resting::rest;
use crate::runners::Runners;
use crate::waiting::Waiting;
use cm_base::NoMemory;
use cm_box::{Bounds, Setting};
use std::alloc::Global;

// Looks at each row on the list, the rows ascending, and says whether one holds more now. Where none does, the list is
// empty.
pub(crate) fn pass(
    alloc: Global,
    setting: &Setting<'_>,
    runners: &Runners,
    waiting: &mut Waiting,
    bounds: &mut Bounds,
) -> Result<bool, NoMemory>
    requires ready { IsReady setting.now bounds.old }
    requires waits { AreWaiting setting.now waiting.old bounds.old }
    ensures passes { OrNoMemory result (Passes setting.now waiting.old waiting.new bounds.old bounds.new) }
    ensures empty { OrNoMemory result (λ more. more ≡ false → (y : ℕ) → y < row_count setting.now.state.now.spaces
        → is_listed waiting.new y ≡ false) }
{
    let st = setting.state;
    let mut more = false;
    for row in 0..2 * st.spaces.count() {
        if waiting.holds(row) {
            if look(alloc, setting, runners, row, waiting, bounds)? {
                more = true;
            }
        }
    }
    Ok(more)
}

// Looks at a row: it is brought to rest and taken off the list, and where it holds more now, those that may read it are
// put on the list.
fn look(
    alloc: Global,
    setting: &Setting<'_>,
    runners: &Runners,
    row: u32,
    waiting: &mut Waiting,
    bounds: &mut Bounds,
) -> Result<bool, NoMemory>
    requires ready { IsReadyAt setting.now bounds.old row }
    requires waits { AreWaiting setting.now waiting.old bounds.old }
    ensures passes { OrNoMemory result (Passes setting.now waiting.old waiting.new bounds.old bounds.new) }
    ensures taken { OrNoMemory result (λ more. more ≡ false → waiting.new ≡ slice_set waiting.old row false) }
{
    let st = setting.state;
    let more = rest(alloc, setting, runners, row, bounds)?;
    if more {
        waiting.put_readers(&st.spaces, row);
    }
    waiting.take_off(row);
    Ok(more)
}
