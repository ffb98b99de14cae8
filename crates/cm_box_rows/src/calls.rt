// The rules of the calls that set ids, groups, capabilities and securebits: each looks at one row alone, and answers
// whether the row holds what its members can gain by the call.
ghost use Rattle.std.specs.Prelude.{◌≡◌, ◌↔◌, IsTrue};
ghost use Rattle.cm_sets.specs.Sets.{IsWithin};
ghost use Rattle.cm_idset.specs.Held.{Held};
ghost use Rattle.cm_box_rows.specs.Rows.{RowHolds, HoldsAll};
ghost use Rattle.cm_box_rows.specs.Kinds.{effective, three, fs, SettableId, SpreadsId, GainsFsId};
ghost use Rattle.model_box.specs.Gains.{GainsGroups, GainsInheritable, GainsRoot};

use crate::BoxRow;
use crate::ids::settable_within;
use crate::kind::{IdKind, effective_ids, fs_ids};
use cm_base::Cap;
use cm_idset::IdSet;
use cm_sets::SetLike;

/// setuid(2), setreuid(2) and setresuid(2), or the calls for group ids alike.
pub fn set_ids_held(kind: IdKind, row: &BoxRow) -> bool
    ensures { IsTrue result ↔ HoldsAll (RowHolds row.now)
        (SpreadsId kind (RowHolds row.now) (SettableId kind (RowHolds row.now))) }
{
    if !settable_held(kind, row, effective_ids(kind, row)) {
        return false;
    }
    spread_held(kind, row)
}

/// setfsuid(2) or setfsgid(2).
pub fn set_fs_held(kind: IdKind, row: &BoxRow) -> bool
    ensures { IsTrue result ↔ HoldsAll (RowHolds row.now) (GainsFsId kind (RowHolds row.now)) }
{
    settable_held(kind, row, fs_ids(kind, row))
}

// The ids that members can set are in the bound.
fn settable_held(kind: IdKind, row: &BoxRow, bound: &IdSet) -> bool
    ensures { IsTrue result ↔ IsWithin (SettableId kind (RowHolds row.now)) (Held bound.now) }
{
    match kind {
        IdKind::Users => settable_within(&row.u, &row.mu, row.p.holds(&Cap::SETUID), bound),
        IdKind::Groups => settable_within(&row.g, &row.mg, row.p.holds(&Cap::SETGID), bound),
    }
}

/// setgroups(2), where the word of the space isn't "deny".
pub fn set_groups_held(row: &BoxRow) -> bool
    ensures { IsTrue result ↔ HoldsAll (RowHolds row.now) (GainsGroups (RowHolds row.now)) }
{
    if !row.p.holds(&Cap::SETGID) {
        return true;
    }
    row.mg.within(&row.s)
}

/// capset(2).
pub fn cap_set_held(row: &BoxRow) -> bool
    ensures { IsTrue result ↔ HoldsAll (RowHolds row.now) (GainsInheritable (RowHolds row.now)) }
{
    settable_within(&row.p, &row.b, row.p.holds(&Cap::SETPCAP), &row.i)
}

/// PR_SET_SECUREBITS (prctl(2)).
pub fn secure_bits_held(row: &BoxRow) -> bool
    ensures { IsTrue result ↔ HoldsAll (RowHolds row.now) (GainsRoot (RowHolds row.now)) }
{
    if !row.p.holds(&Cap::SETPCAP) {
        return true;
    }
    if !row.k.holds(&()) {
        return true;
    }
    row.r.holds(&())
}

/// The effective ids are among the real and saved ones, and among the fs ones, as calls make them.
pub fn spread_held(kind: IdKind, row: &BoxRow) -> bool
    ensures { IsTrue result ↔ (IsWithin (RowHolds row.now (effective kind)) (RowHolds row.now (three kind))
        × IsWithin (RowHolds row.now (effective kind)) (RowHolds row.now (fs kind))) }
{
    match kind {
        IdKind::Users => within_both(&row.eu, &row.u, &row.fu),
        IdKind::Groups => within_both(&row.eg, &row.g, &row.fg),
    }
}

// The ids are in both sets.
fn within_both(ids: &IdSet, one: &IdSet, other: &IdSet) -> bool
    ensures { IsTrue result
        ↔ (IsWithin (Held ids.now) (Held one.now) × IsWithin (Held ids.now) (Held other.now)) }
{
    if !ids.within(one) {
        return false;
    }
    ids.within(other)
}
