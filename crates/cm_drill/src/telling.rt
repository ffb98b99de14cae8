// What is told of a drill.
ghost use Rattle.std.specs.Prelude.{◌≡◌, ◌<◌, ◌≤◌, length};
ghost use Rattle.cm_audit.specs.Told.{told, IsVerdictOn};
ghost use Rattle.cm_audit.specs.declared.verdict.AuditRefusal.{AuditRefusal};
ghost use Rattle.cm_base.specs.Outcome.{OrNoMemory};
ghost use Rattle.cm_declared.specs.World.{world_of};
ghost use Rattle.model_drill.specs.Drill.{drill_members, drill_right, drill_text, drilled, first_live, is_refusal};
ghost use Rattle.model_drill.specs.DrillWorld.{drill_world};
ghost use Rattle.model_drill.specs.Laws.{IsDrillState};
ghost use Rattle.model_drill.specs.Rows.{most};
ghost use Rattle.model_run.specs.Family.{family};

use crate::generator::Generator;
use crate::start::drill_world;
use cm_audit::{AuditRefusal, Verdict, audit};
use cm_base::{Cap, NoMemory, Pid, Res, SpaceId};
use cm_declared::World;
use cm_machine::Machine;
use cm_script::put_line;
use cm_state::{Event, Right, State};
use std::alloc::Global;

/// What is told of a drill: how many events were made, and how many of them the rules refused; how many processes live and
/// how many user namespaces stand after them, the initial one among them; and the verdict on CAP_SYS_ADMIN over the initial
/// namespace, of the family of the live process with the least pid.
#[derive(Debug, Drop)]
pub struct Drilled {
    pub events: u32,
    pub refused: u32,
    pub live: u32,
    pub spaces: u32,
    pub verdict: Verdict,
}

/// Makes the n events of the drill of n, and tells of them. It fails only where memory runs out.
pub fn drill(alloc: Global, n: u32) -> Result<Drilled, NoMemory>
    ensures events { OrNoMemory result (λ d. d.events ≡ (drilled n).events) }
    ensures refused { OrNoMemory result (λ d. d.refused ≡ (drilled n).refused) }
    ensures live { OrNoMemory result (λ d. d.live ≡ (drilled n).live) }
    ensures spaces { OrNoMemory result (λ d. d.spaces ≡ (drilled n).spaces) }
    ensures verdict { OrNoMemory result (λ d. IsVerdictOn drill_world (drilled n).state (drill_members n) drill_right (told d.verdict)) }
{
    let w = drill_world(alloc)?;
    let mut g = Generator::start(alloc, &w, n)?;
    let mut refused = 0;
    for _made in 0..n {
        let e = g.next(alloc, &w)?;
        if is_refused(&e) {
            refused += 1;
        }
    }
    let verdict = verdict_on(alloc, &w, &g.machine)?;
    Ok(Drilled {
        events: n,
        refused,
        live: count_live(&g.machine.state),
        spaces: g.machine.state.spaces.count(),
        verdict,
    })
}

/// The same n events as the lines of a script log, each with its LF: the log of a run in the drill's world. It fails only
/// where memory runs out.
pub fn drill_log(alloc: Global, n: u32) -> Result<Vec<u8>, NoMemory>
    ensures { OrNoMemory result (λ text. text.items ≡ drill_text n) }
{
    let w = drill_world(alloc)?;
    let mut g = Generator::start(alloc, &w, n)?;
    let mut text = Vec::new(alloc);
    for _made in 0..n {
        let e = g.next(alloc, &w)?;
        put_line(&mut text, &e, &w)?;
        text.push(b'\n')?;
    }
    Ok(text)
}

// The event's answer is a refusal.
fn is_refused(e: &Event) -> bool
    ensures { result ≡ is_refusal e.now.res }
{
    match e.res {
        Res::Err(_) => true,
        _ => false,
    }
}

// How many processes live.
fn count_live(st: &State) -> u32
    requires { length st.now.processes ≤ most }
    ensures { result ≡ length st.now.processes }
{
    st.procs.items().len() as u32
}

// The verdict on the machine after its events.
fn verdict_on(alloc: Global, w: &World, m: &Machine) -> Result<Verdict, NoMemory>
    requires world { world_of w.now ≡ drill_world }
    requires state { IsDrillState m.now.state }
    ensures { OrNoMemory result (λ v. IsVerdictOn drill_world m.now.state (family m.now.state (first_live m.now.state)) drill_right (told v)) }
{
    let right = Right::Cap(Cap::SYS_ADMIN, SpaceId(0));
    let root = first_live(&m.state);
    match audit(alloc, w, m, root, &right) {
        Ok(v) => Ok(v),
        Err(e) => Err(no_fault(e)),
    }
}

// The live process with the least pid.
fn first_live(st: &State) -> Pid
    requires { 0 < length st.now.processes }
    ensures { result ≡ first_live st.now }
{
    let list = st.procs.items();
    let p = &list[0];
    p.pid
}

// Out of memory, which is all that refuses this audit.
fn no_fault(e: AuditRefusal) -> NoMemory
    requires { e ≡ AuditRefusal.NoMemory }
{
    match e {
        AuditRefusal::NoMemory => NoMemory,
        AuditRefusal::NoProcess => unreachable!(),
        AuditRefusal::NoSpace => unreachable!(),
        AuditRefusal::FamilyTooLarge(_) => unreachable!(),
    }
}

#[cfg(test)]
mod tests;
