// A line of a script log: PID CALL ARGUMENTS = RESULT, its tokens parted by blanks (choice).
ghost use Rattle.std.specs.Prelude.{◌≡◌, ◌≢◌, ◌^◌, ◌<◌, Some, Ok, length, option_map};
ghost use Rattle.cm_script.specs.Lines.{IsRead};
ghost use Rattle.cm_script.specs.Steps.{arguments_in};
ghost use Rattle.cm_state.specs.Call.{call_of};
ghost use Rattle.cm_declared.specs.World.{world_of};
ghost use Rattle.model_text.specs.Cut.{tokens_of};
ghost use Rattle.model_text.specs.Line.{script_line, call_line, kind_line, outcome_line, groups_fit};

use crate::calls::read_call;
use crate::error::LineError;
use crate::parts::find_parts;
use crate::results::read_result;
use cm_base::{Limited, LineFault, Pid};
use cm_declared::World;
use cm_filter::CallKind;
use cm_state::{Call, Event};
use cm_tokens::{begins_comment, next_token, read_pid};
use std::alloc::Global;

/// The event that a line of a script log tells; None for a blank line and for a comment. The error is `Bad` exactly where the
/// line has that fault first, in the order pid, call, shape, count, argument, result; `Limit` exactly where it has none and
/// names more groups than one list may have; `NoMemory` may come with any line, but is never needed for one without a list.
pub fn read_line(alloc: Global, line: &[u8], w: &World) -> Result<Option<Event>, LineError>
    requires { length line.now < 2 ^ 32 }
    ensures { IsRead result (script_line (world_of w.now) line.now) }
{
    let Some((first, rest)) = next_token(line) else {
        return Ok(None);
    };
    if begins_comment(first) {
        return Ok(None);
    }
    match read_pid(first) {
        Some(pid) => read_after_pid(alloc, pid, rest, w),
        None => Err(LineError::Bad(LineFault::Pid)),
    }
}

// What stands after the pid: the name of a call, its arguments, and its result.
fn read_after_pid(
    alloc: Global,
    pid: Pid,
    text: &[u8],
    w: &World,
) -> Result<Option<Event>, LineError>
    requires { length text.now < 4294967295 }
    ensures { IsRead result (call_line (world_of w.now) pid (tokens_of text.now)) }
{
    let Some((name, rest)) = next_token(text) else {
        return Err(LineError::Bad(LineFault::Call));
    };
    match CallKind::from_name(name) {
        Some(kind) => read_after_name(alloc, pid, kind, rest, w),
        None => Err(LineError::Bad(LineFault::Call)),
    }
}

// What stands after the name of a call of that kind: arguments, `=` and a result.
#[tactic(auto, using(crate::proofs::Outcomes::parts_are))]
fn read_after_name(
    alloc: Global,
    pid: Pid,
    kind: CallKind,
    text: &[u8],
    w: &World,
) -> Result<Option<Event>, LineError>
    requires { length text.now < 4294967292 }
    ensures { IsRead result (kind_line (world_of w.now) pid (Some kind) (tokens_of text.now)) }
{
    let Some((count, outcome)) = find_parts(text) else {
        return Err(LineError::Bad(LineFault::Shape));
    };
    let call = read_call(alloc, kind, count, text, w)?;
    read_outcome(pid, kind, call, outcome)
}

// The event of a call, by the token of its result. It takes no memory.
fn read_outcome(
    pid: Pid,
    kind: CallKind,
    call: Call,
    token: &[u8],
) -> Result<Option<Event>, LineError>
    ensures read { IsRead result (outcome_line pid kind (Ok (call_of call)) token.now) }
    ensures no_memory { result ≢ Err LineError.NoMemory }
{
    let Some(res) = read_result(kind, token) else {
        return Err(LineError::Bad(LineFault::Outcome));
    };
    if !groups_within(&call) {
        return Err(LineError::Limit(Limited::Groups));
    }
    Ok(Some(Event { pid, call, res }))
}

/// A list of groups is no longer than one may be.
pub(crate) fn groups_within(call: &Call) -> bool
    ensures { result ≡ groups_fit (call_of call.now) }
{
    match call {
        Call::SetGroups(ids) => ids.items().len() as u64 <= Limited::Groups.number(),
        _ => true,
    }
}
