// A line of a script log that stands as events are written (`put_line`), read once, from left to right.
ghost use Rattle.std.specs.Prelude.{◌≡◌, ◌++◌, ◌∷◌, decimal, IfSome};
ghost use Rattle.cm_declared.specs.World.{world_of};
ghost use Rattle.cm_filter.specs.Kinds.{call_name};
ghost use Rattle.model_text.specs.Line.{Tells, script_line};
ghost use Rattle.model_text.specs.Print.{event_text};

mod arguments;
mod calls;
mod lists;
mod numbers;
mod pieces;
mod results;
mod sets;

use self::calls::{take_call, take_kind};
use self::numbers::take_decimal;
use self::pieces::{after_blank, after_equals};
use self::results::own_result;
use crate::reading::groups_within;
use cm_base::Pid;
use cm_declared::World;
use cm_filter::CallKind;
use cm_state::Event;
use std::alloc::Global;

/// The event of a line that stands as events are written (`put_line`). None says nothing of the line: it may tell an
/// event in another spelling, or none, or have a fault, and there may have been no memory for a list.
pub fn read_own(alloc: Global, line: &[u8], w: &World) -> Option<Event>
    ensures tells { IfSome result (λ e. script_line (world_of w.now) line.now ≡ Tells e) }
    ensures own { IfSome result (λ e. event_text (world_of w.now) e ≡ line.now) }
{
    let (number, kind, rest) = take_front(line)?;
    let (call, rest) = take_call(alloc, kind, rest, w)?;
    let res = own_result(kind, after_equals(rest)?)?;
    if !groups_within(&call) {
        return None;
    }
    match Pid::new(number) {
        Some(pid) => Some(Event { pid, call, res }),
        None => None,
    }
}

// The number that the pid is to be, the kind of the call, and what follows its name.
#[inline]
fn take_front(line: &[u8]) -> Option<(u32, CallKind, &[u8])>
    ensures { IfSome result (λ p. line.now ≡ decimal p.0 ++ (32 ∷ call_name p.1 ++ p.2.now)) }
{
    let (number, rest) = take_decimal(line)?;
    let (kind, rest) = take_kind(after_blank(rest)?)?;
    Some((number, kind, rest))
}
