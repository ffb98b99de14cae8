// Becoming an id: the first permitted call that makes an inside id the effective one.
ghost use Rattle.std.specs.Prelude.{◌≡◌, ◌<◌, option_map, length, find, IfSome};
ghost use Rattle.cm_plans.specs.Moves.{setting, may_do, becomes_uid, becomes_gid, inside_of, IsOfWalk};
ghost use Rattle.cm_state.specs.Call.{call_of as told};
ghost use Rattle.model_cred.specs.Call.{kind_of};
ghost use Rattle.model_cred.specs.IdMap.{up as model_up, extents_of};
ghost use Rattle.model_cred.specs.Space.{Spaces as ModelSpaces};
ghost use Rattle.model_plans.specs.Move.{uid_calls, gid_calls};

use crate::moves::if_permitted;
use crate::query::{May, Query};
use crate::seat::Seat;
use cm_base::MINUS_ONE;
use cm_filter::CallKind;
use cm_idmap::IdMap;
use cm_state::Call;

// To make an optional user id the effective one.
pub(crate) fn becoming_uid(q: &Query<'_>, seat: &Seat, id: Option<u32>) -> Option<Call>
    requires stands { seat.now.space < length q.now.spaces.now }
    ensures call { option_map told result ≡ becomes_uid (setting q.now) seat.now id }
    ensures walks { IfSome result (λ call. IsOfWalk q.now.spaces.now (told call)) }
{
    let s = q.spaces.standing(seat.space);
    match inside(&s.uids, seat.cred.euid.number(), id) {
        Some(inside) => uid_call(&q.may, inside),
        None => None,
    }
}

// To make an optional group id the effective one.
pub(crate) fn becoming_gid(q: &Query<'_>, seat: &Seat, id: Option<u32>) -> Option<Call>
    requires stands { seat.now.space < length q.now.spaces.now }
    ensures call { option_map told result ≡ becomes_gid (setting q.now) seat.now id }
    ensures walks { IfSome result (λ call. IsOfWalk q.now.spaces.now (told call)) }
{
    let s = q.spaces.standing(seat.space);
    match inside(&s.gids, seat.cred.egid.number(), id) {
        Some(inside) => gid_call(&q.may, inside),
        None => None,
    }
}

// The inside id of an id that isn't the effective one.
fn inside(map: &Option<IdMap>, effective: u32, id: Option<u32>) -> Option<u32>
    ensures { result ≡ inside_of (extents_of map.now) effective id }
{
    match id {
        Some(id) => { if effective == id { None } else { up(map, id) } }
        None => None,
    }
}

// The inside id of an id, by a map that may be unwritten.
pub(crate) fn up(map: &Option<IdMap>, id: u32) -> Option<u32>
    ensures { result ≡ model_up (extents_of map.now) id }
{
    match map {
        Some(map) => map.up(id),
        None => None,
    }
}

// The first permitted call that makes an inside id the effective user id.
fn uid_call(f: &May, id: u32) -> Option<Call>
    ensures call { option_map told result ≡ find (λ c. may_do f.now (kind_of c)) (uid_calls id) }
    ensures walks { (spaces : ModelSpaces) → IfSome result (λ call. IsOfWalk spaces (told call)) }
{
    if f.permits(CallKind::SetResUid) {
        return Some(Call::SetResUid(MINUS_ONE, id, MINUS_ONE));
    }
    if f.permits(CallKind::SetReUid) {
        return Some(Call::SetReUid(MINUS_ONE, id));
    }
    if_permitted(*f, CallKind::SetUid, Call::SetUid(id))
}

// The first permitted call that makes an inside id the effective group id.
fn gid_call(f: &May, id: u32) -> Option<Call>
    ensures call { option_map told result ≡ find (λ c. may_do f.now (kind_of c)) (gid_calls id) }
    ensures walks { (spaces : ModelSpaces) → IfSome result (λ call. IsOfWalk spaces (told call)) }
{
    if f.permits(CallKind::SetResGid) {
        return Some(Call::SetResGid(MINUS_ONE, id, MINUS_ONE));
    }
    if f.permits(CallKind::SetReGid) {
        return Some(Call::SetReGid(MINUS_ONE, id));
    }
    if_permitted(*f, CallKind::SetGid, Call::SetGid(id))
}
