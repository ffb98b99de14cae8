// The moves of plans, and the call of each at its moment.
ghost use Rattle.std.specs.Prelude.{◌≡◌, ◌∷◌, [], ◌<◌, option_map, length, find, IfSome};
ghost use Rattle.cm_plans.specs.Moves.{setting, may_do, move_of, IsOfWalk, IsMoveOfWalk};
ghost use Rattle.cm_plans.specs.Ready.{IsReady};
ghost use Rattle.cm_plans.specs.declared.moves.Move.TheVariants as move;
ghost use Rattle.cm_state.specs.Call.{call_of as told};
ghost use Rattle.cm_state.specs.Right.{right_of};
ghost use Rattle.model_cred.specs.Call.{kind_of};
ghost use Rattle.model_plans.specs.Move.{call_of, sought_gid};

use crate::becoming::{becoming_gid, becoming_uid};
use crate::query::{May, Query};
use crate::seat::Seat;
use cm_base::{FileRef, SpaceId};
use cm_filter::CallKind;
use cm_state::{Call, Right};

// What a member tries next: at most one call.
#[derive(Clone, Copy, Debug, PartialEq, Eq)]
pub enum Move {
    Raise,
    BecomeZero,
    BecomeSought,
    BecomeGroup,
    TakeGroup,
    RunFile(FileRef),
    JoinSpace(SpaceId),
}

// The call of a move from where the member stands; of each move but that which takes a group, which needs memory.
pub(crate) fn call_for(q: &Query<'_>, seat: &Seat, m: Move) -> Option<Call>
    requires ready { IsReady q.now }
    requires stands { seat.now.space < length q.now.spaces.now }
    requires single { IsMoveOfWalk q.now.spaces.now m }
    ensures call { option_map told result ≡ call_of (setting q.now) seat.now (move_of m) }
    ensures walks { IfSome result (λ call. IsOfWalk q.now.spaces.now (told call)) }
{
    match m {
        Move::Raise => raising(q, seat),
        Move::BecomeZero => becoming_uid(q, seat, q.spaces.standing(seat.space).zero()),
        Move::BecomeSought => becoming_uid(q, seat, q.way(seat.space).sought),
        Move::BecomeGroup => becoming_gid(q, seat, sought_group(q.right)),
        Move::TakeGroup => None,
        Move::RunFile(f) => if_permitted(q.may, CallKind::Exec, Call::Exec(f)),
        Move::JoinSpace(n) => if_permitted(q.may, CallKind::SetNs, Call::SetNs(n)),
    }
}

// The call, if its kind is permitted.
pub(crate) fn if_permitted(f: May, kind: CallKind, call: Call) -> Option<Call>
    requires { kind ≡ kind_of (told call) }
    ensures call { option_map told result ≡ find (λ c. may_do f (kind_of c)) (told call ∷ []) }
    ensures same { IfSome result (λ c. c ≡ call) }
{
    if f.permits(kind) { Some(call) } else { None }
}

// To make the effective set the permitted one.
fn raising(q: &Query<'_>, seat: &Seat) -> Option<Call>
    ensures call { option_map told result ≡ call_of (setting q.now) seat.now (move_of move.Raise) }
    ensures walks { IfSome result (λ call. IsOfWalk q.now.spaces.now (told call)) }
{
    let c = &seat.cred;
    if c.eff == c.prm {
        return None;
    }
    let call = Call::CapSet {
        eff: c.prm,
        prm: c.prm,
        inh: c.inh,
    };
    if_permitted(q.may, CallKind::CapSet, call)
}

// The group id that is sought.
pub(crate) fn sought_group(right: &Right) -> Option<u32>
    ensures { result ≡ sought_gid (right_of right.now) }
{
    match right {
        Right::Gid(id) => Some(id.number()),
        _ => None,
    }
}
