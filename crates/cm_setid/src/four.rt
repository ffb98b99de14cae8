// The rules by which the calls change the real, effective, saved and fs id, of user or of group (setresuid(2),
// setreuid(2), setuid(2), setfsuid(2)). A rule knows the caller's map, and whether the caller has the capability. Ids go
// through the map of the caller's space, which may not be written yet: such a map maps nothing.
ghost use Rattle.std.specs.Prelude.{◌≡◌, ◌<◌, IfSome};
ghost use Rattle.cm_base.specs.Limits.{id_count};
ghost use Rattle.model_cred.specs.IdMap.{down, extents_of};
ghost use Rattle.model_rules.specs.SetId.{asked, seen_id, setresid, setreid, setid, setfsid, saved_after};

use cm_base::{Errno, MINUS_ONE};
use cm_idmap::IdMap;
use cm_state::FourIds;

// What an id without a mapping is seen as (user_namespaces(7), "Unmapped user and group IDs").
const OVERFLOW_ID: u32 = 65_534;

// setresuid(2) and setresgid(2): EINVAL for a given id without a mapping; else EPERM where without the capability one is
// none of the old real, effective and saved id.
pub(crate) fn set_resid(
    map: &Option<IdMap>,
    privileged: bool,
    old: FourIds,
    r: u32,
    e: u32,
    s: u32,
) -> Result<FourIds, Errno>
    ensures { result ≡ setresid (extents_of map.now) privileged old r e s }
{
    let Some(real) = asked_for(map, old.real, r) else {
        return Err(Errno::EINVAL);
    };
    let Some(effective) = asked_for(map, old.effective, e) else {
        return Err(Errno::EINVAL);
    };
    let Some(saved) = asked_for(map, old.saved, s) else {
        return Err(Errno::EINVAL);
    };
    if !privileged && !(old.has(real) && old.has(effective) && old.has(saved)) {
        return Err(Errno::EPERM);
    }
    Ok(FourIds {
        real,
        effective,
        saved,
        fs: effective,
    })
}

// setreuid(2) and setregid(2): EINVAL for a given id without a mapping; else EPERM where without the capability the real
// id is neither the old real nor the effective one, or the effective id none of the three.
pub(crate) fn set_reid(
    map: &Option<IdMap>,
    privileged: bool,
    old: FourIds,
    r: u32,
    e: u32,
) -> Result<FourIds, Errno>
    ensures { result ≡ setreid (extents_of map.now) privileged old r e }
{
    let Some(real) = asked_for(map, old.real, r) else {
        return Err(Errno::EINVAL);
    };
    let Some(effective) = asked_for(map, old.effective, e) else {
        return Err(Errno::EINVAL);
    };
    let may_real = real == old.real || real == old.effective;
    if !privileged && !(may_real && old.has(effective)) {
        return Err(Errno::EPERM);
    }
    Ok(FourIds {
        real,
        effective,
        saved: saved_id(old, r, e, effective),
        fs: effective,
    })
}

// The saved id after setreuid(2): the new effective id where the real one was given, or an effective one that differs
// from the old real id.
#[inline]
fn saved_id(old: FourIds, r: u32, e: u32, effective: u32) -> u32
    ensures { result ≡ saved_after old r e effective }
{
    if r != MINUS_ONE || (e != MINUS_ONE && effective != old.real) {
        effective
    } else {
        old.saved
    }
}

// setuid(2) and setgid(2): EINVAL for an id without a mapping, as -1. With the capability all four become the id;
// without it the effective and the fs id do, and EPERM comes where it is neither the old real nor the saved one.
pub(crate) fn set_id(
    map: &Option<IdMap>,
    privileged: bool,
    old: FourIds,
    argument: u32,
) -> Result<FourIds, Errno>
    ensures { result ≡ setid (extents_of map.now) privileged old argument }
{
    let Some(id) = down_in(map, argument) else {
        return Err(Errno::EINVAL);
    };
    if privileged {
        return Ok(FourIds::all(id));
    }
    if id != old.real && id != old.saved {
        return Err(Errno::EPERM);
    }
    Ok(FourIds {
        effective: id,
        fs: id,
        ..old
    })
}

// setfsuid(2) and setfsgid(2), which have no error: the ids with another fs id where that is mapped, and is one of the
// four or the caller has the capability; else the old ones.
pub(crate) fn set_fsid(
    map: &Option<IdMap>,
    privileged: bool,
    old: FourIds,
    argument: u32,
) -> FourIds
    ensures { result ≡ setfsid (extents_of map.now) privileged old argument }
{
    match down_in(map, argument) {
        Some(id) if privileged || old.has(id) || id == old.fs => FourIds { fs: id, ..old },
        _ => old,
    }
}

// The id that an inside id stands for, None where it has no mapping.
#[inline]
pub(crate) fn down_in(map: &Option<IdMap>, inside: u32) -> Option<u32>
    ensures image { result ≡ down (extents_of map.now) inside }
    ensures is_id { IfSome result (λ id. id < id_count) }
{
    match map {
        Some(map) => map.down(inside),
        None => None,
    }
}

// The id that an argument asks for: the old one at -1, else the one that it is mapped to.
#[inline]
pub(crate) fn asked_for(map: &Option<IdMap>, old: u32, given: u32) -> Option<u32>
    requires { old < id_count }
    ensures image { result ≡ asked (extents_of map.now) old given }
    ensures is_id { IfSome result (λ id. id < id_count) }
{
    if given == MINUS_ONE {
        Some(old)
    } else {
        down_in(map, given)
    }
}

// An id as the space sees it.
#[inline]
pub(crate) fn seen(map: &Option<IdMap>, id: u32) -> u32
    ensures { result ≡ seen_id (extents_of map.now) id }
{
    match map {
        Some(map) => map.up(id).unwrap_or(OVERFLOW_ID),
        None => OVERFLOW_ID,
    }
}
