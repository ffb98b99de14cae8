// Whether bounds meet a right.
ghost use Rattle.std.specs.Prelude.{◌≡◌, ◌↔◌, ◌⊎◌, ℕ, ◌<◌, ◌*◌, ◌^◌, IsTrue, IfNone, IfSome, length};
ghost use Rattle.cm_state.specs.Right.{right_of};
ghost use Rattle.cm_box.specs.Places.{row_of};
ghost use Rattle.cm_box_rows.specs.Rows.{RowHolds, RowsHold};
ghost use Rattle.cm_box_rows.specs.Rights.{NextMet, CapMetAt};
ghost use Rattle.cm_box.specs.Meeting.{RowMeets};
ghost use Rattle.model_box.specs.Meets.{Meets, MeetsAt, IsFirstMet, IsOverStanding};
ghost use Rattle.model_box.specs.Row.{EffectiveUids, row_at, space_under};

use crate::place::Place;
use crate::{Bounds, BoxRow};
use cm_base::{Cap, SpaceId};
use cm_sets::SetLike;
use cm_state::{Right, Space, Spaces, State};

/// The first row by which the bounds meet the right, None exactly where they don't. The bounds have two rows for each
/// space, the space that the right names stands, and fewer than 2^31 spaces stand. It takes no memory.
pub fn meets(st: &State, bounds: &Bounds, right: &Right) -> Option<u32>
    requires rows { length bounds.now ≡ 2 * length st.now.spaces }
    requires few { length st.now.spaces < 2 ^ 31 }
    requires named { IsOverStanding st.now.spaces (right_of right.now) }
    ensures none { IfNone result (Meets st.now.spaces (RowsHold bounds.now) (right_of right.now) → ⊥) }
    ensures first { IfSome result (λ row. IsFirstMet st.now.spaces (RowsHold bounds.now) (right_of right.now)
        (row_at row)) }
{
    for row in 0..2 * st.spaces.count() {
        if meets_at(&st.spaces, bounds, right, Place::of_number(row)) {
            return Some(row);
        }
    }
    None
}

// The bounds meet the right by the row.
fn meets_at(spaces: &Spaces, bounds: &Bounds, right: &Right, at: Place) -> bool
    requires rows { length bounds.now ≡ 2 * length spaces.now }
    requires few { length spaces.now < 2 ^ 31 }
    requires named { IsOverStanding spaces.now (right_of right.now) }
    requires stands { space_under (row_of at) < length spaces.now }
    ensures { IsTrue result ↔ MeetsAt spaces.now (RowsHold bounds.now) (right_of right.now) (row_of at) }
{
    row_meets(spaces, bounds.row(at), right, at)
}

/// A row in the place of that number would meet the right. The space that the right names stands. It takes no memory.
pub fn meets_by(st: &State, row: &BoxRow, right: &Right, number: u32) -> bool
    requires named { IsOverStanding st.now.spaces (right_of right.now) }
    ensures { IsTrue result ↔ RowMeets st.now.spaces (RowHolds row.now) (right_of right.now) (row_at number) }
{
    row_meets(&st.spaces, row, right, Place::of_number(number))
}

// A row in that place would meet the right.
fn row_meets(spaces: &Spaces, row: &BoxRow, right: &Right, at: Place) -> bool
    requires named { IsOverStanding spaces.now (right_of right.now) }
    ensures { IsTrue result ↔ RowMeets spaces.now (RowHolds row.now) (right_of right.now) (row_of at) }
{
    match right {
        Right::Uid(id) => row.eu.holds(&id.number()),
        Right::Gid(id) => {
            if row.eg.holds(&id.number()) {
                return true;
            }
            row.s.holds(&id.number())
        }
        Right::Cap(c, n) => match at {
            Place::Standing(a) => cap_met(spaces, row, *c, a, *n),
            Place::Fresh(_) => false,
        },
    }
}

// A member of the row of a standing space can have the capability over a space: by its own set, or as the owner of the
// next space on the chain.
fn cap_met(spaces: &Spaces, row: &BoxRow, cap: Cap, a: SpaceId, n: SpaceId) -> bool
    requires { n.0 < length spaces.now }
    ensures { IsTrue result ↔ CapMetAt spaces.now (RowHolds row.now) cap a.0 n.0 }
{
    if next_met(spaces, row, a, n) {
        return true;
    }
    if row.eu.is_empty() {
        return false;
    }
    if !row.p.holds(&cap) {
        return false;
    }
    spaces.ancestor(a, n)
}

// A member of the row can own the space on the chain of another whose parent is the row's.
fn next_met(spaces: &Spaces, row: &BoxRow, a: SpaceId, n: SpaceId) -> bool
    requires { n.0 < length spaces.now }
    ensures { IsTrue result ↔ NextMet spaces.now (RowHolds row.now) a.0 n.0 }
{
    let mut at = n;
    loop {
        match spaces.parent(at) {
            Some(parent) => {
                if owner_met(row, spaces.standing(at), parent, a) {
                    return true;
                }
                at = parent;
            }
            None => return false,
        }
    }
}

// The parent of a space is that one, and a member of the row can own the space.
fn owner_met(row: &BoxRow, space: &Space, parent: SpaceId, a: SpaceId) -> bool
    ensures { IsTrue result ↔ ((parent.0 ≡ a.0) × RowHolds row.now EffectiveUids space.now.owner) }
{
    if parent.0 != a.0 {
        return false;
    }
    row.eu.holds(&space.owner.number())
}
