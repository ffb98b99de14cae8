// Whether a member can take a group, known without memory.
ghost use Rattle.std.specs.Prelude.{◌≡◌, ◌<◌, length};
ghost use Rattle.cm_plans.specs.Moves.{setting};
ghost use Rattle.cm_plans.specs.Takes.{takes};
ghost use Rattle.model_cred.specs.IdMap.{is_the};

use crate::query::Query;
use crate::seat::Seat;
use cm_base::{Cap, Kgid};
use cm_filter::CallKind;

// The member can take the group as its only supplementary one (setgroups(2)).
pub(crate) fn takes_group(q: &Query<'_>, seat: &Seat, id: Kgid) -> bool
    requires { seat.now.space < length q.now.spaces.now }
    ensures { result ≡ takes (setting q.now) seat.now id }
{
    if !seat.cred.eff.holds(Cap::SETGID) {
        return false;
    }
    let s = q.spaces.standing(seat.space);
    match &s.gids {
        Some(map) => match map.up(id.number()) {
            Some(inside) => {
                q.may.permits(CallKind::SetGroups) && !s.deny && is_id(map.down(inside), id)
            }
            None => false,
        },
        None => false,
    }
}

// The number is there, and is the id.
fn is_id(number: Option<u32>, id: Kgid) -> bool
    ensures { result ≡ is_the number id }
{
    match number {
        Some(number) => id.number() == number,
        None => false,
    }
}
