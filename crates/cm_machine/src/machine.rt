// The machine and its public calls: they look for the process, and for the space that its call names. The steps
// themselves are made on its state.
ghost use Rattle.std.specs.Prelude.{◌≡◌, ◌<◌, None, true, false, length, IfOk, IfErr};
ghost use Rattle.cm_base.specs.Limits.{greatest_number};
ghost use Rattle.cm_base.specs.Outcome.{OrNoMemory, UnchangedOnErr};
ghost use Rattle.cm_base.specs.declared.errno.Errno.{Errno};
ghost use Rattle.cm_machine.specs.Outcomes.{IsOwn, IsNoAnswer, takes_memory};
ghost use Rattle.cm_state.specs.Call.{call_of};
ghost use Rattle.cm_declared.specs.World.{world_of};
ghost use Rattle.model_run.specs.Family.{family};
ghost use Rattle.model_run.specs.Own.{common_filter};
ghost use Rattle.model_run.specs.Step as outcome;
ghost use Rattle.model_cred.specs.Process.{process_at, is_alive};
ghost use Rattle.model_run.specs.Step.{outcome, names_no_space};

use crate::error::StepError;
use crate::family::family_of;
use crate::filters::shared_by;
use crate::own::make_own;
use crate::step::told_call;
use cm_base::{NoMemory, Pid, Res};
use cm_declared::World;
use cm_filter::Filter;
use cm_state::{Call, Event, Spaces, State};
use std::alloc::Global;

/// The machine: the state that it is in.
#[derive(Debug, Drop)]
pub struct Machine {
    pub state: State,
}

impl Machine {
    /// The machine in a copy of the state that the world begins with (choice: a machine keeps its state beside the
    /// world, which stays as it was declared). It fails only where memory runs out.
    pub fn new(alloc: Global, w: &World) -> Result<Machine, NoMemory>
        ensures { OrNoMemory result (λ m. m.state ≡ w.now.start) }
    {
        let state = w.start.copy(alloc)?;
        Ok(Machine { state })
    }

    /// Makes the step of an event: one completed call of one process, with the result that is told, by the rules of the
    /// call's manual page (docs/RULES.md). The errors come in this order (choice): NoProcess exactly where no process
    /// of the pid is alive; NoSpace exactly where the call names a user namespace that doesn't stand; PidInUse exactly
    /// where the result is a child that is alive; Wrong exactly where the result is neither an error from outside that
    /// the call may answer, which changes nothing (choice), nor what the rules give (with the process's own answer),
    /// and of a call that the process's own filter excludes where it isn't EPERM, which changes nothing (choice);
    /// NoMemory may come with a call that carries a list or makes a process or a space, and with no other. The machine
    /// is as it was after each, and after a step whose result is an error. Fewer than 4294967295 spaces stand before
    /// it.
    pub fn step(&mut self, alloc: Global, w: &World, e: &Event) -> Result<(), StepError>
        requires room { length self.old.state.spaces < greatest_number }
        ensures goes { IfOk result (λ _. outcome (world_of w.now) self.old.state e.now ≡ outcome.Goes self.new.state) }
        ensures no_process { result ≡ Err StepError.NoProcess → outcome (world_of w.now) self.old.state e.now ≡ outcome.NoProcess }
        ensures no_space { result ≡ Err StepError.NoSpace → outcome (world_of w.now) self.old.state e.now ≡ outcome.NoSpace }
        ensures pid_in_use { result ≡ Err StepError.PidInUse → outcome (world_of w.now) self.old.state e.now ≡ outcome.PidInUse }
        ensures no_memory { result ≡ Err StepError.NoMemory → takes_memory e.now.call ≡ true }
        ensures wrong { (given : Res) → result ≡ Err (StepError.Wrong given) → outcome (world_of w.now) self.old.state e.now ≡ outcome.Wrong given }
        ensures unchanged { UnchangedOnErr result self.new self.old }
        ensures told_error { (error : Errno) → e.now.res ≡ Res.Err error → self.new ≡ self.old }
    {
        let Some(at) = self.state.procs.find(e.pid) else {
            return Err(StepError::NoProcess);
        };
        if names_no_space(&self.state.spaces, &e.call) {
            return Err(StepError::NoSpace);
        }
        match e.res {
            Res::Child(pid) if self.state.procs.find(pid).is_some() => Err(StepError::PidInUse),
            _ => told_call(alloc, w, &mut self.state, at, e),
        }
    }

    /// Makes the call of the process as the rules give it, and says what it answers, an error of the rules too; EPERM
    /// where its own filter excludes the call (choice). The child of fork has the least pid that isn't alive, or the
    /// answer is EAGAIN where all are (choice). The errors are NoProcess exactly where no process of the pid is alive,
    /// NoSpace exactly where the call names a user namespace that doesn't stand, and NoMemory, which may come with a
    /// call that carries a list or makes a process or a space, and with no other. The machine is as it was after each,
    /// and after an error that the rules answer. Fewer than 4294967295 spaces stand before it.
    pub fn answer(
        &mut self,
        alloc: Global,
        w: &World,
        pid: Pid,
        call: &Call,
    ) -> Result<Res, StepError>
        requires room { length self.old.state.spaces < greatest_number }
        ensures makes { IfOk result (λ res. IsOwn (world_of w.now) self.old.state pid (call_of call.now) res self.new.state) }
        ensures no_process { result ≡ Err StepError.NoProcess → process_at self.old.state.processes pid ≡ None }
        ensures no_space { result ≡ Err StepError.NoSpace → (is_alive self.old.state.processes pid ≡ true)
            × (names_no_space self.old.state.spaces (call_of call.now) ≡ true) }
        ensures no_memory { result ≡ Err StepError.NoMemory → takes_memory (call_of call.now) ≡ true }
        ensures no_other { IfErr result IsNoAnswer }
        ensures unchanged { UnchangedOnErr result self.new self.old }
        ensures refused { (error : Errno) → result ≡ Ok (Res.Err error) → self.new ≡ self.old }
    {
        let Some(at) = self.state.procs.find(pid) else {
            return Err(StepError::NoProcess);
        };
        if names_no_space(&self.state.spaces, call) {
            return Err(StepError::NoSpace);
        }
        Ok(make_own(alloc, w, &mut self.state, at, call)?)
    }

    /// The filter that is common to the world and to all these live processes: it excludes what the world's filter
    /// excludes, and what the own filters of all of them exclude. None of them makes such a call in a later run, nor does
    /// a child of theirs.
    pub fn common(&self, w: &World, members: &[Pid]) -> Filter
        ensures { result ≡ common_filter (world_of w.now) self.now.state members.now }
    {
        w.filter.with(shared_by(&self.state, members))
    }

    /// The pids of the process and of all whose chain of forebears reaches it, ascending; none where it isn't alive. It
    /// fails only where memory runs out. A forebear is the nearest living ancestor, so that an exit takes no one else
    /// out of the family (choice).
    pub fn family(&self, alloc: Global, root: Pid) -> Result<Vec<Pid>, NoMemory>
        ensures { OrNoMemory result (λ pids. pids.items ≡ family self.now.state root) }
    {
        family_of(alloc, &self.state, root)
    }
}

// The call names a space that doesn't stand.
#[inline]
fn names_no_space(spaces: &Spaces, call: &Call) -> bool
    ensures { result ≡ names_no_space spaces.now (call_of call.now) }
{
    match call {
        Call::SetNs(n) | Call::WriteUidMap(n, _) | Call::WriteGidMap(n, _) => {
            n.0 >= spaces.count()
        }
        Call::WriteSetgroups { space, .. } => space.0 >= spaces.count(),
        _ => false,
    }
}
