// Walks from a standing space up to the initial one.
ghost use Rattle.std.specs.Prelude.{◌≡◌, ◌↔◌, ℕ, ◌<◌, ◌*◌, ◌^◌, IsTrue, Some, length};
ghost use Rattle.cm_idset.specs.Held.{Held};
ghost use Rattle.cm_box.specs.Places.{row_of};
ghost use Rattle.cm_box_rows.specs.Rows.{RowsHold};
ghost use Rattle.model_box.specs.Files.{ZeroIn, ZeroAbove, RootCan, TakesCan, MayBeZero, IdIn};
ghost use Rattle.model_box.specs.Row.{Row, Standing, MappedUids, space_under};

use crate::Bounds;
use crate::place::Place;
use cm_base::SpaceId;
use cm_box_rows::has_id;
use cm_idset::IdSet;
use cm_sets::SetLike;
use cm_state::{Space, Spaces};

// The id may be inside 0 of the spaces of the row.
fn zero_in(spaces: &Spaces, bounds: &Bounds, at: Place, id: u32) -> bool
    requires rows { length bounds.now ≡ 2 * length spaces.now }
    requires few { length spaces.now < 2 ^ 31 }
    requires stands { space_under (row_of at) < length spaces.now }
    ensures { IsTrue result ↔ ZeroIn spaces.now (RowsHold bounds.now) (row_of at) id }
{
    let row = bounds.row(at);
    match at {
        Place::Standing(n) => may_be_zero(spaces.standing(n), &row.mu, id),
        Place::Fresh(_) => row.mu.holds(&id),
    }
}

// The id may be inside 0 of the standing space: that of its map where it is written, else each that it may map.
fn may_be_zero(space: &Space, mapped: &IdSet, id: u32) -> bool
    ensures { IsTrue result ↔ MayBeZero space.now.uids (Held mapped.now) id }
{
    if space.uids.is_some() {
        return space.is_zero(id);
    }
    mapped.holds(&id)
}

// The id may be inside 0 of the space or of one above it.
pub(crate) fn zero_above(spaces: &Spaces, bounds: &Bounds, n: SpaceId, id: u32) -> bool
    requires rows { length bounds.now ≡ 2 * length spaces.now }
    requires few { length spaces.now < 2 ^ 31 }
    requires stands { n.0 < length spaces.now }
    ensures { IsTrue result ↔ ZeroAbove spaces.now (RowsHold bounds.now) n.0 (Some id) }
{
    let mut at = n;
    loop {
        let parent = spaces.parent(at);
        if zero_in(spaces, bounds, Place::Standing(at), id) {
            return true;
        }
        match parent {
            Some(parent) => at = parent,
            None => return false,
        }
    }
}

// The id may be inside 0 of a space of the row or of one above it.
pub(crate) fn root_can(spaces: &Spaces, bounds: &Bounds, at: Place, id: Option<u32>) -> bool
    requires rows { length bounds.now ≡ 2 * length spaces.now }
    requires few { length spaces.now < 2 ^ 31 }
    requires stands { space_under (row_of at) < length spaces.now }
    ensures { IsTrue result ↔ RootCan spaces.now (RowsHold bounds.now) (row_of at) id }
{
    let Some(id) = id else {
        return false;
    };
    match at {
        Place::Standing(n) => zero_above(spaces, bounds, n, id),
        Place::Fresh(n) => {
            if zero_in(spaces, bounds, at, id) {
                return true;
            }
            zero_above(spaces, bounds, n, id)
        }
    }
}
