// The generator of events: what is drawn goes by the state of the machine, which makes the event.
ghost use Rattle.std.specs.Prelude.{◌≡◌, ◌<◌, false, true, length, OnOk};
ghost use Rattle.cm_base.specs.Limits.{greatest_number};
ghost use Rattle.cm_base.specs.Outcome.{OrNoMemory};
ghost use Rattle.cm_declared.specs.World.{world_of};
ghost use Rattle.cm_machine.specs.Outcomes.{IsOwn};
ghost use Rattle.cm_machine.specs.declared.error.StepError.{StepError};
ghost use Rattle.cm_state.specs.Call.{call_of};
ghost use Rattle.model_cred.specs.Process.{is_alive};
ghost use Rattle.model_drill.specs.Drill.{asked_at, drill_start, turn};
ghost use Rattle.model_drill.specs.DrillWorld.{drill_world};
ghost use Rattle.model_drill.specs.Laws.{IsDrillState};
ghost use Rattle.model_run.specs.Step.{names_no_space};

use crate::calls::draw_call;
use crate::draws::Draws;
use cm_base::{NoMemory, Pid, Res};
use cm_declared::World;
use cm_machine::{Machine, StepError};
use cm_state::{Call, Event, State};
use std::alloc::Global;
use std::marker::Model;

/// The drill between two events.
#[derive(Drop)]
pub(crate) struct Generator {
    draws: Draws,
    pub machine: Machine,
}

impl Model for Generator {
    ghost use Rattle.model_drill.specs.Drill.{Stand};

    ghost Value = { Stand };

    ghost view = { λ g. record { number = g.draws; state = g.machine.state } };
}

impl Generator {
    /// The drill of that number before its first event.
    pub(crate) fn start(alloc: Global, w: &World, n: u32) -> Result<Generator, NoMemory>
        requires { world_of w.now ≡ drill_world }
        ensures { OrNoMemory result (λ g. g ≡ drill_start n) }
    {
        let machine = Machine::new(alloc, w)?;
        Ok(Generator {
            draws: Draws::from(n),
            machine,
        })
    }

    /// The next event, which is made.
    pub(crate) fn next(&mut self, alloc: Global, w: &World) -> Result<Event, NoMemory>
        requires world { world_of w.now ≡ drill_world }
        requires state { IsDrillState self.old.state }
        ensures event { OrNoMemory result (λ e. e ≡ (turn self.old).event) }
        ensures after { OnOk result (self.new ≡ (turn self.old).after) }
    {
        let (pid, call) = ask(alloc, &mut self.draws, &self.machine.state)?;
        let res = answered(alloc, &mut self.machine, w, pid, &call)?;
        Ok(Event { pid, call, res })
    }
}

// What is drawn for an event: the caller's pid, and its call.
#[tactic(auto, unfolding(model_drill::specs::Drill::asked_at))]
fn ask(alloc: Global, draws: &mut Draws, st: &State) -> Result<(Pid, Call), NoMemory>
    requires { 0 < length st.now.processes }
    ensures pid { OrNoMemory result (λ asked. asked.0 ≡ (asked_at (record { number = draws.old; state = st.now })).caller.pid) }
    ensures call { OrNoMemory result (λ asked. call_of asked.1 ≡ (asked_at (record { number = draws.old; state = st.now })).call) }
    ensures number { OnOk result (draws.new ≡ (asked_at (record { number = draws.old; state = st.now })).number) }
{
    let list = st.procs.items();
    let at = draws.draw() as usize % list.len();
    let row = draws.draw() % 16;
    let p = &list[at];
    let call = draw_call(alloc, draws, st, p, row)?;
    Ok((p.pid, call))
}

// What the machine answers a call of a process that lives, which names no missing space.
fn answered(
    alloc: Global,
    m: &mut Machine,
    w: &World,
    pid: Pid,
    call: &Call,
) -> Result<Res, NoMemory>
    requires room { length m.old.state.spaces < greatest_number }
    requires lives { is_alive m.old.state.processes pid ≡ true }
    requires named { names_no_space m.old.state.spaces (call_of call.now) ≡ false }
    ensures { OrNoMemory result (λ res. IsOwn (world_of w.now) m.old.state pid (call_of call.now) res m.new.state) }
{
    match m.answer(alloc, w, pid, call) {
        Ok(res) => Ok(res),
        Err(e) => Err(no_fault(e)),
    }
}

// Out of memory, which is all that keeps the machine from an answer.
fn no_fault(e: StepError) -> NoMemory
    requires { e ≡ StepError.NoMemory }
{
    match e {
        StepError::NoMemory => NoMemory,
        StepError::NoProcess => unreachable!(),
        StepError::NoSpace => unreachable!(),
        StepError::PidInUse => unreachable!(),
        StepError::Wrong { .. } => unreachable!(),
    }
}
