// Whether bounds cover the members now.
ghost use Rattle.std.specs.Prelude.{◌≡◌, ◌↔◌, ℕ, ◌<◌, ◌*◌, ◌^◌, IsTrue, IfNone, IfSome, length};
ghost use Rattle.cm_box.specs.Places.{row_of};
ghost use Rattle.cm_box_rows.specs.Rows.{RowHolds, RowsHold, HoldsAll};
ghost use Rattle.cm_box_rows.specs.Members.{IsFirstLacking};
ghost use Rattle.model_box.specs.Covers.{Covers};
ghost use Rattle.model_box.specs.Row.{space_under};
ghost use Rattle.model_box.specs.Start.{HoldsStart, HoldsStartAt, SpaceMaps};

use crate::place::Place;
use crate::{Bounds, BoxRow};
use cm_base::Pid;
use cm_box_rows::{map_held, members_held};
use cm_state::{Space, State};

/// The first row that lacks what the start bounds hold, None exactly where they are within the bounds, and so exactly
/// where these cover the members now. The bounds have two rows for each space, and fewer than 2^31 spaces stand. It
/// takes no memory.
pub fn covers_start(st: &State, members: &[Pid], bounds: &Bounds) -> Option<u32>
    requires rows { length bounds.now ≡ 2 * length st.now.spaces }
    requires few { length st.now.spaces < 2 ^ 31 }
    ensures none { IfNone result (HoldsStart st.now members.now (RowsHold bounds.now)) }
    ensures first { IfSome result (IsFirstLacking st.now members.now (RowsHold bounds.now)) }
    ensures covers { IfNone result (Covers st.now members.now st.now members.now (RowsHold bounds.now)) }
    ensures lacks { IfSome result (λ _. Covers st.now members.now st.now members.now (RowsHold bounds.now) → ⊥) }
{
    for row in 0..2 * st.spaces.count() {
        if !start_held(st, members, bounds, Place::of_number(row)) {
            return Some(row);
        }
    }
    None
}

// The row holds what the start bounds hold there.
fn start_held(st: &State, members: &[Pid], bounds: &Bounds, at: Place) -> bool
    requires rows { length bounds.now ≡ 2 * length st.now.spaces }
    requires few { length st.now.spaces < 2 ^ 31 }
    requires stands { space_under (row_of at) < length st.now.spaces }
    ensures { IsTrue result ↔ HoldsStartAt st.now members.now (RowsHold bounds.now) (row_of at) }
{
    match at {
        Place::Standing(n) => {
            let row = bounds.row(at);
            if !maps_held(st.spaces.standing(n), row) {
                return false;
            }
            members_held(st, n, members, row)
        }
        Place::Fresh(_) => true,
    }
}

// The row holds the outside ids of the space's maps.
fn maps_held(space: &Space, row: &BoxRow) -> bool
    ensures { IsTrue result ↔ HoldsAll (RowHolds row.now) (SpaceMaps space.now) }
{
    if !map_held(&space.uids, &row.mu) {
        return false;
    }
    map_held(&space.gids, &row.mg)
}
