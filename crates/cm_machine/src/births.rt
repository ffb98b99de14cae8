// Births by fork(2), or clone(2) without CLONE_NEWUSER; and by clone(2) with it, into a new space.
ghost use Rattle.std.specs.Prelude.{◌≡◌, ◌∷◌, ◌<◌, length, List, slice_get, Some, false, IfSome, IsSomeAnd};
ghost use Rattle.cm_base.specs.Limits.{greatest_number};
ghost use Rattle.cm_base.specs.Outcome.{OrNoMemory, UnchangedOnErr};
ghost use Rattle.cm_machine.specs.Asking.{GivesOwn, GivesTold, OfCaller, birth_change, born, born_inside, inner_birth_change, inside, pid_number, state_of};
ghost use Rattle.cm_nscalls.specs.Answers.{res_of};
ghost use Rattle.cm_state.specs.Call.{call_of};
ghost use Rattle.model_cred.specs.Process.{Process, Ascends, insert_process, is_alive};
ghost use Rattle.model_cred.specs.Space.{Spaces};
ghost use Rattle.model_rules.specs.Namespaces.{created_by as model_created_by};
ghost use Rattle.model_run.specs.Outside.{comes_from_outside};
ghost use Rattle.model_run.specs.Ruling.{birth as model_birth, birth_unless, clone_child, fork_child};
ghost use Rattle.model_run.specs.Step.{is_living_child};

use crate::change::Change;
use crate::entries::come_into;
use crate::pids::{least_free, see_pid};
use crate::ruling::{Asked, refused};
use cm_base::{Errno, NoMemory, Pid, Res, SpaceId};
use cm_nscalls::created_by;
use cm_state::{Call, Proc, Procs, Space, Spaces, State};
use std::alloc::Global;

/// The pid of the child that a process has of its own by the call, if it is a birth: the least one that isn't alive.
/// None where all are, and for any other call, which looks at no pid.
pub(crate) fn own_pid(procs: &Procs, call: &Call) -> Option<Pid>
    requires { Ascends procs.now }
    ensures own { GivesOwn procs.now (call_of call.now) (pid_number result) }
    ensures free { IfSome result (λ pid. is_alive procs.now pid ≡ false) }
{
    match call {
        Call::Fork | Call::CloneUser => least_free(procs),
        _ => None,
    }
}

/// The pid of the child that is told, or the own one where none is told. The rules with this pid are what a told result
/// is held against: their answer is the told one, or the process's own.
#[inline]
pub(crate) fn told_pid(procs: &Procs, call: &Call, told: &Res) -> Option<Pid>
    requires ascends { Ascends procs.now }
    requires fresh { is_living_child procs.now told.now ≡ false }
    requires inside { comes_from_outside (call_of call.now) told.now ≡ false }
    ensures told { GivesTold procs.now (call_of call.now) told.now (pid_number result) }
    ensures free { IfSome result (λ pid. is_alive procs.now pid ≡ false) }
{
    match told {
        Res::Child(pid) => {
            see_pid(*pid);
            Some(*pid)
        }
        _ => own_pid(procs, call),
    }
}

/// What the rules answer a birth with that pid for the child: EAGAIN where there is none (fork(2), "ERRORS"). The child
/// is still to be born.
#[inline]
pub(crate) fn birth(child: Option<Pid>) -> Asked
    ensures res { (processes : List Process) (spaces : Spaces) (p : Process) →
        result.res ≡ (model_birth (state_of processes spaces) (fork_child p (pid_number child)) spaces).res }
    ensures change { result.change ≡ birth_change result.res }
{
    match child {
        Some(pid) => {
            see_pid(pid);
            Asked {
                res: Res::Child(pid),
                change: Change::Birth(pid),
            }
        }
        None => refused(Errno::EAGAIN),
    }
}

/// The same for a birth into a new space, which may be made or is refused: that refusal comes first. Child and space
/// are still to be made.
pub(crate) fn inner_birth(may: Result<(), Errno>, child: Option<Pid>) -> Asked
    ensures res { (processes : List Process) (spaces after : Spaces) (p : Process) → result.res
        ≡ (birth_unless (res_of may) (state_of processes spaces) (clone_child spaces p (pid_number child)) after).res }
    ensures change { result.change ≡ inner_birth_change result.res }
{
    if let Err(why) = may {
        return refused(why);
    }
    match child {
        Some(pid) => {
            see_pid(pid);
            Asked {
                res: Res::Child(pid),
                change: Change::InnerBirth(pid),
            }
        }
        None => refused(Errno::EAGAIN),
    }
}

/// The process at this place has a child of that pid.
pub(crate) fn fork_as(alloc: Global, state: &mut State, at: usize, pid: Pid) -> Result<(), NoMemory>
    requires here { at < length state.old.processes }
    requires fresh { is_alive state.old.processes pid ≡ false }
    ensures born { OrNoMemory result (λ _. OfCaller state.old at (λ p. state.new ≡ born state.old p pid)) }
    ensures unchanged { UnchangedOnErr result state.new state.old }
{
    let child = child_at(alloc, &state.procs, at, pid)?;
    state.procs.insert(child)
}

// The child of the process at this place, with that pid.
fn child_at(alloc: Global, procs: &Procs, at: usize, pid: Pid) -> Result<Proc, NoMemory>
    requires { at < length procs.now }
    ensures { OrNoMemory result (λ child. (p : Process) → slice_get procs.now at ≡ Some p → child ≡ fork_child p pid) }
{
    let p = &procs.list[at];
    child_of(alloc, p, pid)
}

// A copy of the process, with that pid and the process as its forebear.
fn child_of(alloc: Global, p: &Proc, pid: Pid) -> Result<Proc, NoMemory>
    ensures { OrNoMemory result (λ child. child ≡ fork_child p.now pid) }
{
    let mut child = p.copy(alloc)?;
    child.pid = pid;
    child.forebear = Some(p.pid);
    Ok(child)
}

/// The process at this place has a child of that pid in a space that is made for it.
pub(crate) fn clone_as(
    alloc: Global,
    state: &mut State,
    at: usize,
    pid: Pid,
) -> Result<(), NoMemory>
    requires here { at < length state.old.processes }
    requires can { (is_alive state.old.processes pid ≡ false) × (length state.old.spaces < greatest_number) }
    ensures born { OrNoMemory result (λ _. OfCaller state.old at (λ p. state.new ≡ born_inside state.old p pid)) }
    ensures unchanged { UnchangedOnErr result state.new state.old }
{
    let mut child = child_at(alloc, &state.procs, at, pid)?;
    let made = made_for(state, at);
    come_into(&mut child, SpaceId(state.spaces.count()));
    add_both(&mut state.procs, &mut state.spaces, child, made)
}

// The space that the process at this place makes.
fn made_for(state: &State, at: usize) -> Space
    requires { at < length state.now.processes }
    ensures { OfCaller state.now at (λ p. result ≡ model_created_by state.now.spaces p.space p.cred) }
{
    let procs = &state.procs;
    let p = &procs.list[at];
    created_by(&state.spaces, p.space, &*p.cred)
}

// One more process and one more space; where memory runs out neither.
fn add_both(
    procs: &mut Procs,
    spaces: &mut Spaces,
    child: Proc,
    made: Space,
) -> Result<(), NoMemory>
    requires ascends { Ascends procs.old }
    requires fresh { is_alive procs.old child.pid ≡ false }
    requires parent { IsSomeAnd made.parent (λ p. p < length spaces.old) }
    requires room { length spaces.old < greatest_number }
    ensures child { OrNoMemory result (λ _. procs.new ≡ insert_process child procs.old) }
    ensures space { OrNoMemory result (λ _. spaces.new ≡ made ∷ spaces.old) }
    ensures unchanged { UnchangedOnErr result procs.new procs.old }
    ensures same_spaces { UnchangedOnErr result spaces.new spaces.old }
    ensures still { Ascends procs.new }
{
    spaces.add(made)?;
    match procs.insert(child) {
        Ok(()) => Ok(()),
        Err(why) => {
            spaces.remove_newest();
            Err(why)
        }
    }
}
