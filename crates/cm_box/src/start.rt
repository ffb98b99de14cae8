// The start bounds: the least that cover the members now.
ghost use Rattle.std.specs.Prelude.{◌≡◌, ◌↔◌, ℕ, ◌<◌, ◌*◌, ◌^◌, ◌==◌, ◌+◌, ◌≤◌, IsTrue, length};
ghost use Rattle.std.specs.List.{list_any};
ghost use Rattle.cm_base.specs.Limits.{id_count};
ghost use Rattle.cm_base.specs.Outcome.{OrNoMemory};
ghost use Rattle.cm_sets.specs.Sets.{AreSame};
ghost use Rattle.cm_idset.specs.Held.{Held};
ghost use Rattle.cm_box_rows.specs.Members.{MemberGives, IsLeastCover};
ghost use Rattle.cm_box_rows.specs.Rows.{RowHolds, RowsHold, InEitherRow, AreSameRows};
ghost use Rattle.model_cred.specs.Credential.{is_one_of_three};
ghost use Rattle.model_cred.specs.IdMap.{extents_of, is_outside, lies_in};
ghost use Rattle.model_cred.specs.MapFault.{IsMap};
ghost use Rattle.model_box.specs.Row.{Row, Part, Standing, CredHas};
ghost use Rattle.model_box.specs.Start.{StartHas, SpaceMaps};

use crate::{Bounds, BoxRow, Rows};
use cm_base::{Kgid, NoMemory, Pid, SecBits, SpaceId};
use cm_idmap::{Extent, IdMap};
use cm_idset::IdSet;
use cm_sets::{CapSet, Flag, RevFlag, SetLike};
use cm_state::{Cred, FourIds, Space, State};
use std::alloc::Global;

/// The start bounds: what the members have, and the outside ids of the written maps of each standing space. They are
/// the least bounds that cover the members now. Fewer than 2^31 spaces stand. It fails only where memory runs out.
pub fn start_bounds(alloc: Global, st: &State, members: &[Pid]) -> Result<Bounds, NoMemory>
    requires { length st.now.spaces < 2 ^ 31 }
    ensures count { OrNoMemory result (λ b. length b ≡ 2 * length st.now.spaces) }
    ensures holds { OrNoMemory result
        (λ b. (row : Row) (part : Part) (x : ℕ) → RowsHold b row part x ↔ StartHas st.now members.now row part x) }
    ensures least { OrNoMemory result (λ b. IsLeastCover st.now members.now (RowsHold b)) }
{
    let mut list = Vec::new(alloc);
    for n in 0..st.spaces.count() {
        let row = start_row(alloc, st, members, SpaceId(n))?;
        list.push(row)?;
        list.push(BoxRow::least(alloc))?;
    }
    Ok(Bounds {
        rows: Rows::from_vec(list),
    })
}

// The row of a standing space.
fn start_row(alloc: Global, st: &State, members: &[Pid], n: SpaceId) -> Result<BoxRow, NoMemory>
    requires { n.0 < length st.now.spaces }
    ensures { OrNoMemory result (λ row. AreSameRows (RowHolds row) (StartHas st.now members.now (Standing n.0))) }
{
    let mut row = maps_row(alloc, st.spaces.standing(n))?;
    for pid in members {
        row = with_member(alloc, row, st, n, *pid)?;
    }
    Ok(row)
}

// What the maps of a space have as outside ids.
fn maps_row(alloc: Global, space: &Space) -> Result<BoxRow, NoMemory>
    ensures { OrNoMemory result (λ row. AreSameRows (RowHolds row) (SpaceMaps space.now)) }
{
    let mu = outside_ids(alloc, &space.uids)?;
    let mg = outside_ids(alloc, &space.gids)?;
    Ok(BoxRow {
        mu,
        mg,
        ..BoxRow::least(alloc)
    })
}

// The row with what a member has, if it stands in the space.
fn with_member(
    alloc: Global,
    row: BoxRow,
    st: &State,
    n: SpaceId,
    pid: Pid,
) -> Result<BoxRow, NoMemory>
    ensures { OrNoMemory result
        (λ r. AreSameRows (RowHolds r) (InEitherRow (RowHolds row) (MemberGives st.now n.0 pid))) }
{
    match st.procs.find(pid) {
        Some(at) => {
            let procs = st.procs.items();
            let p = &procs[at];
            if p.space.0 != n.0 {
                return Ok(row);
            }
            let more = cred_row(alloc, &p.cred)?;
            row.joined(alloc, &more)
        }
        None => Ok(row),
    }
}

// What a credential puts into the row of its space.
fn cred_row(alloc: Global, cred: &Cred) -> Result<BoxRow, NoMemory>
    ensures { OrNoMemory result (λ row. AreSameRows (RowHolds row) (CredHas cred.now)) }
{
    let u = three_ids(alloc, cred.user_ids())?;
    let eu = IdSet::one(alloc, cred.euid.number())?;
    let fu = IdSet::one(alloc, cred.fsuid.number())?;
    let g = three_ids(alloc, cred.group_ids())?;
    let eg = IdSet::one(alloc, cred.egid.number())?;
    let fg = IdSet::one(alloc, cred.fsgid.number())?;
    let s = group_ids(alloc, cred.groups.items())?;
    Ok(BoxRow {
        u,
        eu,
        fu,
        g,
        eg,
        fg,
        s,
        mu: IdSet::empty(alloc),
        mg: IdSet::empty(alloc),
        p: CapSet(cred.prm),
        i: CapSet(cred.inh),
        b: CapSet(cred.bnd),
        n: RevFlag(cred.nnp),
        r: Flag(!cred.sec.has(SecBits::NOROOT)),
        k: Flag(!cred.sec.has(SecBits::NOROOT << 1)),
    })
}

// The real, effective and saved ids.
fn three_ids(alloc: Global, ids: FourIds) -> Result<IdSet, NoMemory>
    ensures { OrNoMemory result (λ s. AreSame (Held s) (λ x. IsTrue (is_one_of_three ids x))) }
{
    let real = IdSet::one(alloc, ids.real)?;
    let effective = IdSet::one(alloc, ids.effective)?;
    let saved = IdSet::one(alloc, ids.saved)?;
    let two = real.join(alloc, &effective)?;
    two.join(alloc, &saved)
}

// The groups of a list, of which each half is put together by itself, so that long lists take no square of their
// length.
fn group_ids(alloc: Global, groups: &[Kgid]) -> Result<IdSet, NoMemory>
    ensures { OrNoMemory result (λ s. AreSame (Held s) (λ x. IsTrue (list_any (λ group. group == x) groups.now))) }
{
    if groups.is_empty() {
        return Ok(IdSet::empty(alloc));
    }
    if groups.len() == 1 {
        return IdSet::one(alloc, groups[0].number());
    }
    let middle = groups.len() / 2;
    let low = group_ids(alloc, &groups[..middle])?;
    let high = group_ids(alloc, &groups[middle..])?;
    low.join(alloc, &high)
}

// The outside ids of a map, none where it isn't written.
fn outside_ids(alloc: Global, map: &Option<IdMap>) -> Result<IdSet, NoMemory>
    ensures { OrNoMemory result (λ s. AreSame (Held s) (λ x. IsTrue (is_outside (extents_of map.now) x))) }
{
    match map {
        Some(map) => outsides(alloc, map.extents()),
        None => Ok(IdSet::empty(alloc)),
    }
}

// The outside ids of the lines of a map.
fn outsides(alloc: Global, list: &[Extent]) -> Result<IdSet, NoMemory>
    requires { IsMap list.now }
    ensures { OrNoMemory result (λ s. AreSame (Held s) (λ x. IsTrue (is_outside list.now x))) }
{
    let mut ids = IdSet::empty(alloc);
    for extent in list {
        let more = outside_range(alloc, extent)?;
        ids = ids.join(alloc, &more)?;
    }
    Ok(ids)
}

// The outside ids of one line.
fn outside_range(alloc: Global, extent: &Extent) -> Result<IdSet, NoMemory>
    requires { extent.now.outside + extent.now.length ≤ id_count }
    ensures { OrNoMemory result (λ s. AreSame (Held s) (λ x. IsTrue (lies_in extent.now.outside extent.now.length x))) }
{
    if extent.length == 0 {
        return Ok(IdSet::empty(alloc));
    }
    IdSet::range(alloc, extent.outside, extent.outside + (extent.length - 1))
}
