// The step of a process: its call, with the result that is told. A call that the process's own filter excludes answers
// EPERM and nothing else (choice). Some errors a call answers for causes outside the machine, as memory that runs out,
// or a signal: nothing changes then (choice; the calls' manual pages, "ERRORS"). Any other result is held against what
// the rules give.
ghost use Rattle.std.specs.Prelude.{◌≡◌, ◌≢◌, ◌<◌, length, true, false};
ghost use Rattle.cm_base.specs.Limits.{greatest_number};
ghost use Rattle.cm_base.specs.Outcome.{UnchangedOnErr};
ghost use Rattle.cm_machine.specs.Asking.{OfCaller, told_excluded, told_permitted};
ghost use Rattle.cm_machine.specs.Outcomes.{Becomes, takes_memory};
ghost use Rattle.cm_declared.specs.World.{world_of};
ghost use Rattle.cm_state.specs.Call.{call_of};
ghost use Rattle.model_cred.specs.Process.{State};
ghost use Rattle.model_run.specs.Outside.{comes_from_outside, is_common, is_of_execve, is_of_spaces};
ghost use Rattle.model_run.specs.Same.{same_res, same_errno};
ghost use Rattle.model_run.specs.Step.{is_living_child, names_no_space, told_call};

use crate::births::told_pid;
use crate::change::{Change, keep, undo};
use crate::error::StepError;
use crate::filters::is_excluded;
use crate::ruling::ask;
use cm_base::{Errno, Res};
use cm_declared::World;
use cm_state::{Call, Event, State};
use std::alloc::Global;

/// The call of the process at this place with the result that is told. Its own filter is asked first, before errors from
/// outside and before the rules.
#[inline]
pub(crate) fn told_call(
    alloc: Global,
    w: &World,
    state: &mut State,
    at: usize,
    e: &Event,
) -> Result<(), StepError>
    requires here { at < length state.old.processes }
    requires stands { names_no_space state.old.spaces e.now.call ≡ false }
    requires fresh { is_living_child state.old.processes e.now.res ≡ false }
    requires room { length state.old.spaces < greatest_number }
    ensures becomes { OfCaller state.old at (λ p.
        Becomes result state.new (told_call (world_of w.now) state.old p e.now.call e.now.res)) }
    ensures memory { result ≡ Err StepError.NoMemory → takes_memory e.now.call ≡ true }
    ensures unchanged { UnchangedOnErr result state.new state.old }
{
    if is_excluded(&state.procs, at, &e.call) {
        return told_excluded(&e.res);
    }
    told_permitted(alloc, w, state, at, e)
}

// A call that the filter excludes answers EPERM, and changes nothing.
fn told_excluded(told: &Res) -> Result<(), StepError>
    ensures becomes { (s : State) → Becomes result s (told_excluded s told.now) }
    ensures memory { result ≢ Err StepError.NoMemory }
{
    let rules_give = Res::Err(Errno::EPERM);
    if is_same(told, &rules_give) {
        Ok(())
    } else {
        Err(StepError::Wrong { rules_give })
    }
}

// Of a call that the filter permits an error from outside changes nothing. Else the rules are asked, and the told
// result is held against their answer: what the call has changed is kept, or undone. The old credentials, without groups,
// stand here and aren't handed on, since most events are told as the rules give them.
#[inline]
fn told_permitted(
    alloc: Global,
    w: &World,
    state: &mut State,
    at: usize,
    e: &Event,
) -> Result<(), StepError>
    requires here { at < length state.old.processes }
    requires stands { names_no_space state.old.spaces e.now.call ≡ false }
    requires fresh { is_living_child state.old.processes e.now.res ≡ false }
    requires room { length state.old.spaces < greatest_number }
    ensures becomes { OfCaller state.old at (λ p.
        Becomes result state.new (told_permitted (world_of w.now) state.old p e.now.call e.now.res)) }
    ensures memory { result ≡ Err StepError.NoMemory → takes_memory e.now.call ≡ true }
    ensures unchanged { UnchangedOnErr result state.new state.old }
{
    if from_outside(&e.call, &e.res) {
        return Ok(());
    }
    let child = told_pid(&state.procs, &e.call, &e.res);
    let procs = &state.procs;
    let p = &procs.list[at];
    let old = p.cred.without_groups(alloc);
    let mut change = Change::Fields;
    let res = ask(alloc, w, state, at, &e.call, child, &mut change)?;
    if is_same(&e.res, &res) {
        keep(alloc, state, at, change)?;
        Ok(())
    } else {
        undo(state, at, change, old);
        Err(StepError::Wrong { rules_give: res })
    }
}

// The result is an error that the call may answer from outside; setfsuid, setfsgid and exit have none.
#[inline]
fn from_outside(call: &Call, res: &Res) -> bool
    ensures { result ≡ comes_from_outside (call_of call.now) res.now }
{
    let Res::Err(error) = res else {
        return false;
    };
    match call {
        Call::SetFsUid(_) | Call::SetFsGid(_) | Call::Exit => false,
        Call::Unshare | Call::CloneUser | Call::SetNs(_) => is_error_of_spaces(*error),
        Call::Exec(_) => is_error_of_execve(*error),
        _ => is_common_error(*error),
    }
}

fn is_common_error(error: Errno) -> bool
    ensures { result ≡ is_common error }
{
    matches!(
        error,
        Errno::ENOMEM | Errno::EAGAIN | Errno::EINTR | Errno::EFAULT | Errno::EIO
    )
}

// One of the calls that make or join a space.
fn is_error_of_spaces(error: Errno) -> bool
    ensures { result ≡ is_of_spaces error }
{
    matches!(error, Errno::EINVAL) || is_common_error(error)
}

// One of execve: of the path, the arguments or the file's format.
fn is_error_of_execve(error: Errno) -> bool
    ensures { result ≡ is_of_execve error }
{
    matches!(
        error,
        Errno::ENOENT
            | Errno::EACCES
            | Errno::ENOTDIR
            | Errno::ELOOP
            | Errno::ENAMETOOLONG
            | Errno::E2BIG
            | Errno::ENOEXEC
            | Errno::ETXTBSY
            | Errno::ELIBBAD
    ) || is_common_error(error)
}

// The result that is told and the one that the rules give are one.
#[inline]
fn is_same(told: &Res, given: &Res) -> bool
    ensures { result ≡ same_res told.now given.now }
{
    match (told, given) {
        (Res::Done, Res::Done) => true,
        (Res::Id(a), Res::Id(b)) => *a == *b,
        (Res::Child(a), Res::Child(b)) => a.number() == b.number(),
        (Res::Err(a), Res::Err(b)) => is_same_error(*a, *b),
        _ => false,
    }
}

#[inline]
fn is_same_error(told: Errno, given: Errno) -> bool
    ensures { result ≡ same_errno told given }
{
    told as u8 == given as u8
}
