// Deeds are done: the event gets its place, and the parts change as the call has changed what is known. Whatever
// memory this takes is asked for first, but for that by which a change can be rolled back where a savepoint is set.
ghost use Rattle.std.specs.Prelude.{◌≡◌, ◌++◌, ◌∷◌, [], ◌<◌, ◌≤◌, ◌+◌, nat_lt, length, OnErr, vec_len};
ghost use Rattle.std.specs.Prelude.{vec_capacity, IsOk, None, Some};
ghost use Rattle.cm_base.specs.Limited.{limit_number};
ghost use Rattle.cm_base.specs.Limits.{greatest_number};
ghost use Rattle.cm_base.specs.Outcome.{OrNoMemory};
ghost use Rattle.cm_base.specs.declared.limited.Limited.TheVariants.{Descriptors};
ghost use Rattle.cm_state.specs.Call.{call_of};
ghost use Rattle.cm_strace.specs.Deeds.{child_of, left_of, line_turn, GivesEvent};
ghost use Rattle.cm_strace.specs.Given.{placed_at, read_is, Gave};
ghost use Rattle.cm_strace_parts.specs.Savepoints.{LeftOnErr};
ghost use Rattle.model_strace.specs.After.{preceded};
ghost use Rattle.model_strace.specs.Lines.{given_at};
ghost use Rattle.model_strace.specs.Turn.{after_call, with_child};

use crate::deed::{Birth, Deed, Origin};
use crate::stage::{Stage, Stop};
use crate::told::birth_call;
use cm_base::{Limited, NoMemory, Pid, Res};
use cm_declared::Placed;
use cm_state::{Call, Event};
use cm_strace_parts::Parts;
use std::alloc::Global;

/// The deed of a line is done: whether the reading goes on. It fails only where memory runs out, which can be with what
/// gives an event alone where no savepoint is set, and then leaves the parts as they were, or to be rolled back.
pub(crate) fn conclude(
    alloc: Global,
    parts: &mut Parts,
    origin: Origin,
    deed: Deed,
    events: &mut Vec<Placed>,
) -> Result<Stage, NoMemory>
    requires { parts.old.known.spaces < greatest_number }
    ensures given { OrNoMemory result (λ stage. Gave stage events.new.items (read_is (child_of deed) parts.new.known)
        (preceded events.old.items (given_at origin.line (line_turn origin deed parts.old.known)))) }
    ensures saved { parts.new.saved ≡ parts.old.saved }
    ensures unchanged { LeftOnErr result parts.new parts.old }
    ensures event { OnErr result (parts.old.saved ≡ None → GivesEvent deed) }
    ensures spaces { OrNoMemory result (λ _. parts.new.known.spaces ≤ parts.old.known.spaces + 1) }
{
    match deed {
        Deed::Quiet => {
            forget(parts, origin.pid, origin.resumed)?;
            Ok(Stage::Going)
        }
        Deed::Refused(why) => Ok(Stage::Stopped(Stop::Fault(origin.line, why))),
        Deed::Exceeds(limit) => Ok(Stage::Stopped(Stop::Limit(limit))),
        Deed::Does(call, answer) => {
            events.reserve(1)?;
            change(alloc, parts, origin.pid, &call, &answer)?;
            forget(parts, origin.pid, origin.resumed)?;
            put_event(events, origin, call, answer);
            Ok(Stage::Going)
        }
        Deed::Bears(birth) => bears(alloc, parts, origin, birth, events),
        Deed::Ends => ends(parts, origin, events),
    }
}

// The text that is kept of a process whose call was resumed isn't kept any more.
fn forget(parts: &mut Parts, pid: Pid, resumed: bool) -> Result<(), NoMemory>
    ensures changed { OrNoMemory result (λ _. parts.new.known ≡ left_of resumed pid parts.old.known) }
    ensures saved { parts.new.saved ≡ parts.old.saved }
    ensures unchanged { LeftOnErr result parts.new parts.old }
    ensures never { parts.old.saved ≡ None → IsOk result }
{
    if resumed {
        parts.forget_kept(pid)?;
    }
    Ok(())
}

// The end of a process.
fn ends(parts: &mut Parts, origin: Origin, events: &mut Vec<Placed>) -> Result<Stage, NoMemory>
    ensures given { OrNoMemory result (λ stage. Gave stage events.new.items (read_is None parts.new.known)
        (preceded events.old.items (given_at origin.line (line_turn origin Deed.Ends parts.old.known)))) }
    ensures saved { parts.new.saved ≡ parts.old.saved }
    ensures unchanged { LeftOnErr result parts.new parts.old }
    ensures spaces { OrNoMemory result (λ _. parts.new.known.spaces ≡ parts.old.known.spaces) }
{
    events.reserve(1)?;
    let pid = origin.pid;
    let resumed = origin.resumed;
    forget(parts, pid, resumed)?;
    parts.end(pid)?;
    put_event(events, origin, Call::Exit, Res::Done);
    Ok(Stage::Going)
}

// A birth, unless the descriptors exceed their limit then.
fn bears(
    alloc: Global,
    parts: &mut Parts,
    origin: Origin,
    birth: Birth,
    events: &mut Vec<Placed>,
) -> Result<Stage, NoMemory>
    requires { parts.old.known.spaces < greatest_number }
    ensures given { OrNoMemory result (λ stage. Gave stage events.new.items (read_is (Some birth.child) parts.new.known)
        (preceded events.old.items (given_at origin.line (line_turn origin (Deed.Bears birth) parts.old.known)))) }
    ensures saved { parts.new.saved ≡ parts.old.saved }
    ensures unchanged { LeftOnErr result parts.new parts.old }
    ensures spaces { OrNoMemory result (λ _. parts.new.known.spaces ≤ parts.old.known.spaces + 1) }
{
    events.reserve(1)?;
    let Birth {
        user,
        shares,
        child,
    } = birth;
    let pid = origin.pid;
    let resumed = origin.resumed;
    bear(alloc, parts, pid, user, shares, child)?;
    forget(parts, pid, resumed)?;
    if has_too_many(parts) {
        return Ok(Stage::Stopped(Stop::Limit(Limited::Descriptors)));
    }
    put_event(events, origin, birth_call(user), Res::Child(child));
    Ok(Stage::Going)
}

// The descriptors exceed their limit.
fn has_too_many(parts: &Parts) -> bool
    ensures { result ≡ nat_lt (limit_number Descriptors) (length parts.now.known.descriptors) }
{
    parts.descriptor_count() > u128::from(Limited::Descriptors.number())
}

// What is known after a call: unshare and setns move the process to another user namespace, execve closes
// descriptors. It fails only where memory runs out, and then leaves the parts as they were, or to be rolled back.
fn change(
    alloc: Global,
    parts: &mut Parts,
    pid: Pid,
    call: &Call,
    answer: &Res,
) -> Result<(), NoMemory>
    requires { parts.old.known.spaces < greatest_number }
    ensures changed { OrNoMemory result (λ _. parts.new.known
        ≡ after_call pid (call_of call.now) answer.now parts.old.known) }
    ensures saved { parts.new.saved ≡ parts.old.saved }
    ensures unchanged { LeftOnErr result parts.new parts.old }
    ensures spaces { OrNoMemory result (λ _. parts.new.known.spaces ≤ parts.old.known.spaces + 1) }
{
    match answer {
        Res::Done => match call {
            Call::Unshare => parts.move_to_new(pid),
            Call::SetNs(space) => parts.move_to(pid, *space),
            Call::Exec(_) => parts.execute(alloc, pid),
            _ => Ok(()),
        },
        Res::Id(_) | Res::Child(_) | Res::Err(_) => Ok(()),
    }
}

// A birth. It fails only where memory runs out, and then leaves the parts as they were, or to be rolled back.
fn bear(
    alloc: Global,
    parts: &mut Parts,
    pid: Pid,
    user: bool,
    shares: bool,
    child: Pid,
) -> Result<(), NoMemory>
    requires { parts.old.known.spaces < greatest_number }
    ensures born { OrNoMemory result (λ _. parts.new.known ≡ with_child pid child user shares parts.old.known) }
    ensures saved { parts.new.saved ≡ parts.old.saved }
    ensures unchanged { LeftOnErr result parts.new parts.old }
    ensures spaces { OrNoMemory result (λ _. parts.new.known.spaces ≤ parts.old.known.spaces + 1) }
{
    if user {
        parts.bear_in_new(alloc, pid, child, shares)
    } else {
        let space = parts.space_of(pid);
        parts.bear(alloc, pid, child, space, shares)
    }
}

// One event more, for which there is room.
fn put_event(events: &mut Vec<Placed>, origin: Origin, call: Call, answer: Res)
    requires { vec_len events.old < vec_capacity events.old }
    ensures { events.new.items ≡ events.old.items ++ placed_at origin.line origin.pid (call_of call) answer ∷ [] }
{
    let event = Event {
        pid: origin.pid,
        call,
        res: answer,
    };
    events.push_reserved(Placed {
        line: origin.line,
        event,
    });
}
