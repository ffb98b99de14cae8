// What comes to the row of a standing space by all that can join it from above.
ghost use Rattle.std.specs.Prelude.{◌≡◌, ◌↔◌, ◌<◌, ◌*◌, ◌^◌, IsTrue, length};
ghost use Rattle.cm_base.specs.Outcome.{OrNoMemory};
ghost use Rattle.cm_box_rows.specs.Rows.{RowHolds, RowsHold, InEitherRow, AreSameRows};
ghost use Rattle.cm_box_rows.specs.Spread.{JoinsHeld, JoinedBy, ByJoiningTo};

use crate::place::Place;
use crate::{Bounds, BoxRow};
use cm_base::{NoMemory, SpaceId};
use cm_box_rows::{brought, can_join_by, joined_held};
use cm_state::{Space, Spaces};
use std::alloc::Global;

// The row of a standing space holds what the members of all rows above it bring that can join it.
pub(crate) fn joins_held(spaces: &Spaces, bounds: &Bounds, n: SpaceId, row: &BoxRow) -> bool
    requires rows { length bounds.now ≡ 2 * length spaces.now }
    requires few { length spaces.now < 2 ^ 31 }
    requires stands { n.0 < length spaces.now }
    ensures { IsTrue result ↔ JoinsHeld spaces.now (RowsHold bounds.now) (RowHolds row.now) n.0 }
{
    let mut at = n;
    loop {
        match spaces.parent(at) {
            Some(parent) => {
                if !joined_held(
                    bounds.row(Place::Standing(parent)),
                    spaces.standing(at),
                    row,
                ) {
                    return false;
                }
                at = parent;
            }
            None => return true,
        }
    }
}

// What comes to the row of a standing space from all rows above it whose members can join it.
pub(crate) fn joins_gained(
    alloc: Global,
    spaces: &Spaces,
    bounds: &Bounds,
    n: SpaceId,
) -> Result<BoxRow, NoMemory>
    requires rows { length bounds.now ≡ 2 * length spaces.now }
    requires few { length spaces.now < 2 ^ 31 }
    requires stands { n.0 < length spaces.now }
    ensures { OrNoMemory result (λ row. AreSameRows (RowHolds row) (ByJoiningTo spaces.now (RowsHold bounds.now) n.0)) }
{
    let mut row = BoxRow::least(alloc);
    let mut at = n;
    loop {
        match spaces.parent(at) {
            Some(parent) => {
                row = with_joined(
                    alloc,
                    row,
                    bounds.row(Place::Standing(parent)),
                    spaces.standing(at),
                )?;
                at = parent;
            }
            None => return Ok(row),
        }
    }
}

// The row with what the members of the parent's row bring, if they can join.
fn with_joined(
    alloc: Global,
    row: BoxRow,
    parent: &BoxRow,
    child: &Space,
) -> Result<BoxRow, NoMemory>
    ensures { OrNoMemory result (λ more. AreSameRows (RowHolds more)
        (InEitherRow (RowHolds row) (JoinedBy (RowHolds parent.now) child.now))) }
{
    if !can_join_by(parent, child) {
        return Ok(row);
    }
    let more = brought(alloc, parent)?;
    row.joined(alloc, &more)
}
