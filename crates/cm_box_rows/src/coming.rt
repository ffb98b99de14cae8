// What comes to a row from another, as a row: by making spaces, by joining them, and by writing their maps.
ghost use Rattle.std.specs.Prelude.{◌≡◌, ◌<◌, ◌*◌, ◌^◌, IsTrue, length};
ghost use Rattle.cm_base.specs.Outcome.{OrNoMemory};
ghost use Rattle.cm_sets.specs.Sets.{AreSame};
ghost use Rattle.cm_idset.specs.Held.{Held};
ghost use Rattle.cm_box_rows.specs.Rows.{RowHolds, RowsHold, InEitherRow, AreSameRows};
ghost use Rattle.cm_box_rows.specs.Spread.{NewUidBy, NewGidBy, NewIdBy, FreshUidBy, FreshGidBy, FreshIdBy};
ghost use Rattle.model_box.specs.Spread.{Brings};

use crate::BoxRow;
use crate::ids::settable;
use crate::kind::IdKind;
use crate::spread::{can_join_by, is_owner_with};
use cm_base::{Cap, CapWord, Kuid, NoMemory, SpaceId};
use cm_idset::IdSet;
use cm_sets::{CapSet, Flag, SetLike};
use cm_state::{Space, Spaces};
use std::alloc::Global;

/// What the members of a row bring with them as newcomers to a space. It fails only where memory runs out.
pub fn brought(alloc: Global, from: &BoxRow) -> Result<BoxRow, NoMemory>
    ensures { OrNoMemory result (λ row. AreSameRows (RowHolds row) (Brings (RowHolds from.now))) }
{
    let mut row = from.copy(alloc)?;
    row.mu = IdSet::empty(alloc);
    row.mg = IdSet::empty(alloc);
    row.p = CapSet(CapWord::full());
    row.i = CapSet(CapWord::empty());
    row.b = CapSet(CapWord::full());
    row.r = Flag(true);
    row.k = Flag(true);
    Ok(row)
}

/// The ids that can come into the map of a standing space from its parent. It fails only where memory runs out.
pub fn new_ids(
    alloc: Global,
    kind: IdKind,
    row: &BoxRow,
    parent: &BoxRow,
    owner: Kuid,
) -> Result<IdSet, NoMemory>
    ensures { OrNoMemory result
        (λ ids. AreSame (Held ids) (NewIdBy kind (RowHolds row.now) (RowHolds parent.now) owner)) }
{
    match kind {
        IdKind::Users => new_uids(alloc, row, parent, owner),
        IdKind::Groups => new_gids(alloc, row, parent, owner),
    }
}

// The user ids among them.
fn new_uids(alloc: Global, row: &BoxRow, parent: &BoxRow, owner: Kuid) -> Result<IdSet, NoMemory>
    ensures { OrNoMemory result (λ ids. AreSame (Held ids) (NewUidBy (RowHolds row.now) (RowHolds parent.now) owner)) }
{
    if parent.p.holds(&Cap::SETUID) {
        return parent.mu.join(alloc, &parent.mu);
    }
    let id = owner.number();
    if !parent.mu.holds(&id) {
        return Ok(IdSet::empty(alloc));
    }
    if parent.eu.holds(&id) {
        return IdSet::one(alloc, id);
    }
    if is_owner_with(row, owner, Cap::SETUID) {
        return IdSet::one(alloc, id);
    }
    Ok(IdSet::empty(alloc))
}

// The group ids.
fn new_gids(alloc: Global, row: &BoxRow, parent: &BoxRow, owner: Kuid) -> Result<IdSet, NoMemory>
    ensures { OrNoMemory result (λ ids. AreSame (Held ids) (NewGidBy (RowHolds row.now) (RowHolds parent.now) owner)) }
{
    if parent.p.holds(&Cap::SETGID) {
        return parent.mg.join(alloc, &parent.mg);
    }
    let above = gids_if(
        alloc,
        parent.eu.holds(&owner.number()),
        &parent.eg,
        &parent.mg,
    )?;
    let here = gids_if(
        alloc,
        is_owner_with(row, owner, Cap::SETGID),
        &row.eg,
        &parent.mg,
    )?;
    above.join(alloc, &here)
}

// What two sets have in common, if it can come; else none.
fn gids_if(alloc: Global, can: bool, one: &IdSet, other: &IdSet) -> Result<IdSet, NoMemory>
    ensures { OrNoMemory result (λ ids. AreSame (Held ids) (λ x. IsTrue can × Held one.now x × Held other.now x)) }
{
    if !can {
        return Ok(IdSet::empty(alloc));
    }
    one.meet(alloc, other)
}

/// The ids that can come into the maps of the later spaces below a standing one. It fails only where memory runs out.
pub fn fresh_ids(
    alloc: Global,
    kind: IdKind,
    row: &BoxRow,
    fresh: &BoxRow,
) -> Result<IdSet, NoMemory>
    ensures { OrNoMemory result
        (λ ids. AreSame (Held ids) (FreshIdBy kind (RowHolds row.now) (RowHolds fresh.now))) }
{
    match kind {
        IdKind::Users => fresh_uids(alloc, row),
        IdKind::Groups => fresh_gids(alloc, row, fresh),
    }
}

// The user ids among them.
fn fresh_uids(alloc: Global, row: &BoxRow) -> Result<IdSet, NoMemory>
    ensures { OrNoMemory result (λ ids. AreSame (Held ids) (FreshUidBy (RowHolds row.now))) }
{
    settable(alloc, &row.eu, &row.mu, row.p.holds(&Cap::SETUID))
}

// The group ids.
fn fresh_gids(alloc: Global, row: &BoxRow, fresh: &BoxRow) -> Result<IdSet, NoMemory>
    ensures { OrNoMemory result (λ ids. AreSame (Held ids) (FreshGidBy (RowHolds row.now) (RowHolds fresh.now))) }
{
    let own = settable(alloc, &row.eg, &row.mg, row.p.holds(&Cap::SETGID))?;
    let later = fresh.eg.meet(alloc, &row.mg)?;
    own.join(alloc, &later)
}
