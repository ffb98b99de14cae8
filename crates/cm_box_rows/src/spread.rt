// What comes to a row from another: by making spaces, by joining them, and by writing their maps.
ghost use Rattle.std.specs.Prelude.{◌≡◌, ◌↔◌, ◌⊎◌, ℕ, ◌<◌, ◌*◌, ◌^◌, IsTrue, length};
ghost use Rattle.cm_idset.specs.Held.{Held};
ghost use Rattle.cm_box_rows.specs.Rows.{RowHolds, RowsHold, HoldsAll};
ghost use Rattle.cm_box_rows.specs.Spread.{IdsHeld, FullHeld, CanJoinBy, CanMakeIn};
ghost use Rattle.cm_box_rows.specs.Spread.{NewUidBy, NewGidBy, NewIdBy, FreshUidBy, FreshGidBy, FreshIdBy};
ghost use Rattle.cm_box_rows.specs.Kinds.{mapped};
ghost use Rattle.model_box.specs.Spread.{Brings};
ghost use Rattle.model_box.specs.Row.{EffectiveUids, EffectiveGids, MappedUids, MappedGids, PermittedCaps};

use crate::BoxRow;
use crate::ids::{meet, settable_within};
use crate::kind::IdKind;
use cm_base::{Cap, CapWord, Kuid, SpaceId};
use cm_sets::{CapSet, SetLike};
use cm_state::{Space, Spaces};

/// The row holds what the members of another bring with them as newcomers.
pub fn brings_held(from: &BoxRow, row: &BoxRow) -> bool
    ensures { IsTrue result ↔ HoldsAll (RowHolds row.now) (Brings (RowHolds from.now)) }
{
    if !ids_held(from, row) {
        return false;
    }
    if !from.n.within(&row.n) {
        return false;
    }
    full_held(row)
}

// The row holds all ids of another but the mapped ones.
fn ids_held(from: &BoxRow, row: &BoxRow) -> bool
    ensures { IsTrue result ↔ IdsHeld (RowHolds from.now) (RowHolds row.now) }
{
    if !from.u.within(&row.u) {
        return false;
    }
    if !from.eu.within(&row.eu) {
        return false;
    }
    if !from.fu.within(&row.fu) {
        return false;
    }
    if !from.g.within(&row.g) {
        return false;
    }
    if !from.eg.within(&row.eg) {
        return false;
    }
    if !from.fg.within(&row.fg) {
        return false;
    }
    from.s.within(&row.s)
}

// The row has full permitted and bounding sets, and its members may have no securebits.
fn full_held(row: &BoxRow) -> bool
    ensures { IsTrue result ↔ FullHeld (RowHolds row.now) }
{
    let full = CapSet(CapWord::full());
    if !full.within(&row.p) {
        return false;
    }
    if !full.within(&row.b) {
        return false;
    }
    if !row.r.holds(&()) {
        return false;
    }
    row.k.holds(&())
}

/// A member that stands in the space can make a space.
pub fn can_make(spaces: &Spaces, n: SpaceId, row: &BoxRow) -> bool
    requires { n.0 < length spaces.now }
    ensures { IsTrue result ↔ CanMakeIn spaces.now n.0 (RowHolds row.now) }
{
    if spaces.level(n) >= DEEPEST {
        return false;
    }
    if !meet(&row.eu, &row.mu) {
        return false;
    }
    meet(&row.eg, &row.mg)
}

// How deep spaces may be nested (user_namespaces(7)).
const DEEPEST: u32 = 32;

/// A member of the row of the parent can join that child, or a space below it.
pub fn can_join_by(parent: &BoxRow, child: &Space) -> bool
    ensures { IsTrue result ↔ CanJoinBy (RowHolds parent.now) child.now }
{
    if parent.eu.is_empty() {
        return false;
    }
    if parent.p.holds(&Cap::SYS_ADMIN) {
        return true;
    }
    parent.eu.holds(&child.owner.number())
}

/// The row holds what the members of the parent's row bring, if they can join.
pub fn joined_held(parent: &BoxRow, child: &Space, row: &BoxRow) -> bool
    ensures { IsTrue result ↔ (CanJoinBy (RowHolds parent.now) child.now
        → HoldsAll (RowHolds row.now) (Brings (RowHolds parent.now))) }
{
    if !can_join_by(parent, child) {
        return true;
    }
    brings_held(parent, row)
}

/// The ids that can come into the map of a standing space, of which its parent's row is given, are mapped in its row.
pub fn new_ids_held(kind: IdKind, row: &BoxRow, parent: &BoxRow, owner: Kuid) -> bool
    ensures { IsTrue result ↔ ((x : ℕ) → NewIdBy kind (RowHolds row.now) (RowHolds parent.now) owner x
        → RowHolds row.now (mapped kind) x) }
{
    match kind {
        IdKind::Users => new_uids_held(row, parent, owner),
        IdKind::Groups => new_gids_held(row, parent, owner),
    }
}

// The user ids are.
fn new_uids_held(row: &BoxRow, parent: &BoxRow, owner: Kuid) -> bool
    ensures { IsTrue result ↔ ((x : ℕ) → NewUidBy (RowHolds row.now) (RowHolds parent.now) owner x
        → RowHolds row.now MappedUids x) }
{
    if parent.p.holds(&Cap::SETUID) {
        return parent.mu.within(&row.mu);
    }
    let id = owner.number();
    if !parent.mu.holds(&id) {
        return true;
    }
    if row.mu.holds(&id) {
        return true;
    }
    if parent.eu.holds(&id) {
        return false;
    }
    !is_owner_with(row, owner, Cap::SETUID)
}

// A member of the row can be the owner, and can have the capability.
pub(crate) fn is_owner_with(row: &BoxRow, owner: Kuid, cap: Cap) -> bool
    ensures { IsTrue result ↔ (RowHolds row.now EffectiveUids owner × RowHolds row.now PermittedCaps cap) }
{
    if !row.eu.holds(&owner.number()) {
        return false;
    }
    row.p.holds(&cap)
}

// The group ids are.
fn new_gids_held(row: &BoxRow, parent: &BoxRow, owner: Kuid) -> bool
    ensures { IsTrue result ↔ ((x : ℕ) → NewGidBy (RowHolds row.now) (RowHolds parent.now) owner x
        → RowHolds row.now MappedGids x) }
{
    if parent.p.holds(&Cap::SETGID) {
        return parent.mg.within(&row.mg);
    }
    if !gids_of_owner_held(row, parent, owner) {
        return false;
    }
    if !is_owner_with(row, owner, Cap::SETGID) {
        return true;
    }
    row.eg.meet_within(&parent.mg, &row.mg)
}

// Those of them that an owner in the parent can write.
fn gids_of_owner_held(row: &BoxRow, parent: &BoxRow, owner: Kuid) -> bool
    ensures { IsTrue result ↔ (RowHolds parent.now EffectiveUids owner → (x : ℕ)
        → RowHolds parent.now EffectiveGids x → RowHolds parent.now MappedGids x → RowHolds row.now MappedGids x) }
{
    if !parent.eu.holds(&owner.number()) {
        return true;
    }
    parent.eg.meet_within(&parent.mg, &row.mg)
}

/// The ids that can come into the maps of later spaces are mapped in the fresh row.
pub fn fresh_ids_held(kind: IdKind, row: &BoxRow, fresh: &BoxRow) -> bool
    ensures { IsTrue result ↔ ((x : ℕ) → FreshIdBy kind (RowHolds row.now) (RowHolds fresh.now) x
        → RowHolds fresh.now (mapped kind) x) }
{
    match kind {
        IdKind::Users => fresh_uids_held(row, fresh),
        IdKind::Groups => fresh_gids_held(row, fresh),
    }
}

// The user ids are.
fn fresh_uids_held(row: &BoxRow, fresh: &BoxRow) -> bool
    ensures { IsTrue result ↔ ((x : ℕ) → FreshUidBy (RowHolds row.now) x → RowHolds fresh.now MappedUids x) }
{
    settable_within(&row.eu, &row.mu, row.p.holds(&Cap::SETUID), &fresh.mu)
}

// The group ids are.
fn fresh_gids_held(row: &BoxRow, fresh: &BoxRow) -> bool
    ensures { IsTrue result ↔ ((x : ℕ) → FreshGidBy (RowHolds row.now) (RowHolds fresh.now) x
        → RowHolds fresh.now MappedGids x) }
{
    if !settable_within(&row.eg, &row.mg, row.p.holds(&Cap::SETGID), &fresh.mg) {
        return false;
    }
    fresh.eg.meet_within(&row.mg, &fresh.mg)
}
