// What a row holds of the members now, and of the maps of a space.
ghost use Rattle.std.specs.Prelude.{◌≡◌, ◌↔◌, ℕ, ◌+◌, ◌≤◌, ◌==◌, IsTrue, All};
ghost use Rattle.cm_base.specs.Limits.{id_count};
ghost use Rattle.std.specs.List.{list_any};
ghost use Rattle.cm_idset.specs.Held.{Held};
ghost use Rattle.cm_box_rows.specs.Rows.{RowHolds, HoldsAll};
ghost use Rattle.cm_box_rows.specs.Members.{FourHeld, SetsHeld, FlagsHeld, MemberHeld, MapHeld};
ghost use Rattle.model_cred.specs.IdMap.{extents_of, lies_in};
ghost use Rattle.model_cred.specs.MapFault.{IsMap};
ghost use Rattle.model_box.specs.Row.{CredHas};

use crate::BoxRow;
use cm_base::{Kgid, Pid, SecBits, SpaceId};
use cm_idmap::{Extent, IdMap};
use cm_idset::IdSet;
use cm_sets::{CapSet, SetLike};
use cm_state::{Cred, FourIds, State};

/// The row holds what the members have that stand in the space.
pub fn members_held(st: &State, n: SpaceId, members: &[Pid], row: &BoxRow) -> bool
    ensures { IsTrue result ↔ All (MemberHeld st.now n.0 (RowHolds row.now)) members.now }
{
    for pid in members {
        if !member_held(st, n, *pid, row) {
            return false;
        }
    }
    true
}

// The row holds what the member has, if it stands in the space.
fn member_held(st: &State, n: SpaceId, pid: Pid, row: &BoxRow) -> bool
    ensures { IsTrue result ↔ MemberHeld st.now n.0 (RowHolds row.now) pid }
{
    match st.procs.find(pid) {
        Some(at) => {
            let procs = st.procs.items();
            let p = &procs[at];
            if p.space.0 != n.0 {
                return true;
            }
            cred_held(&p.cred, row)
        }
        None => true,
    }
}

// The row holds what the credentials put into it.
fn cred_held(cred: &Cred, row: &BoxRow) -> bool
    ensures { IsTrue result ↔ HoldsAll (RowHolds row.now) (CredHas cred.now) }
{
    if !four_held(cred.user_ids(), &row.u, &row.eu, &row.fu) {
        return false;
    }
    if !four_held(cred.group_ids(), &row.g, &row.eg, &row.fg) {
        return false;
    }
    if !groups_held(cred.groups.items(), &row.s) {
        return false;
    }
    if !sets_held(cred, row) {
        return false;
    }
    flags_held(cred, row)
}

// The sets hold the four ids.
fn four_held(ids: FourIds, three: &IdSet, effective: &IdSet, fs: &IdSet) -> bool
    ensures { IsTrue result ↔ FourHeld (Held three.now) (Held effective.now) (Held fs.now) ids }
{
    if !three.holds(&ids.real) {
        return false;
    }
    if !three.holds(&ids.saved) {
        return false;
    }
    if !three.holds(&ids.effective) {
        return false;
    }
    if !effective.holds(&ids.effective) {
        return false;
    }
    fs.holds(&ids.fs)
}

// The set holds the groups.
fn groups_held(groups: &[Kgid], set: &IdSet) -> bool
    ensures { IsTrue result ↔ ((x : ℕ) → IsTrue (list_any (λ group. group == x) groups.now) → Held set.now x) }
{
    for group in groups {
        if !set.holds(&group.number()) {
            return false;
        }
    }
    true
}

// The row holds the permitted, inheritable and bounding sets.
fn sets_held(cred: &Cred, row: &BoxRow) -> bool
    ensures { IsTrue result ↔ SetsHeld (RowHolds row.now) cred.now }
{
    if !CapSet(cred.prm).within(&row.p) {
        return false;
    }
    if !CapSet(cred.inh).within(&row.i) {
        return false;
    }
    CapSet(cred.bnd).within(&row.b)
}

// The row holds the flags.
fn flags_held(cred: &Cred, row: &BoxRow) -> bool
    ensures { IsTrue result ↔ FlagsHeld (RowHolds row.now) cred.now }
{
    if !cred.nnp && !row.n.holds(&()) {
        return false;
    }
    if !cred.sec.has(SecBits::NOROOT) && !row.r.holds(&()) {
        return false;
    }
    cred.sec.has(SecBits::NOROOT << 1) || row.k.holds(&())
}

/// The set holds the outside ids of the map, where it is written.
pub fn map_held(map: &Option<IdMap>, set: &IdSet) -> bool
    ensures { IsTrue result ↔ MapHeld (extents_of map.now) (Held set.now) }
{
    match map {
        Some(map) => extents_held(map.extents(), set),
        None => true,
    }
}

// The set holds the outside ids of the lines of a map.
fn extents_held(list: &[Extent], set: &IdSet) -> bool
    requires { IsMap list.now }
    ensures { IsTrue result ↔ MapHeld list.now (Held set.now) }
{
    for extent in list {
        if !extent_held(extent, set) {
            return false;
        }
    }
    true
}

// The set holds the outside ids of one line.
fn extent_held(extent: &Extent, set: &IdSet) -> bool
    requires { extent.now.outside + extent.now.length ≤ id_count }
    ensures { IsTrue result ↔ ((x : ℕ) → IsTrue (lies_in extent.now.outside extent.now.length x) → Held set.now x) }
{
    if extent.length == 0 {
        return true;
    }
    set.holds_range(extent.outside, extent.outside + (extent.length - 1))
}
