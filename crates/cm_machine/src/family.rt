// The family of a process: itself and its descendants. The chain of forebears of each process is walked up to a process
// that is known to be of the family or not, and what was found is marked along it.
ghost use Rattle.std.specs.Prelude.{◌≡◌, ◌<◌, ℕ, Bool, Option, None, Some, filter, map, length, IfSome, IfNone, IfOk, false};
ghost use Rattle.cm_base.specs.Outcome.{OrNoMemory};
ghost use Rattle.cm_machine.specs.Marks.{AreMarks, HasNoForebearAt, IsForebearAt, reaching, reaches_at};
ghost use Rattle.cm_state.specs.Places.{pid_at};
ghost use Rattle.model_cred.specs.Process.{is_alive};
ghost use Rattle.model_run.specs.Family.{family, reaches, forebear_of};

use cm_base::{NoMemory, Pid};
use cm_state::{Proc, State};
use std::alloc::Global;

/// The pids of the family, ascending; none where the root isn't alive.
pub(crate) fn family_of(alloc: Global, state: &State, root: Pid) -> Result<Vec<Pid>, NoMemory>
    ensures { OrNoMemory result (λ pids. pids.items ≡ family state.now root) }
{
    match state.procs.find(root) {
        Some(at) => members(alloc, state, at),
        None => Ok(Vec::new(alloc)),
    }
}

// The processes whose chain of forebears reaches the one at this place.
fn members(alloc: Global, state: &State, root: usize) -> Result<Vec<Pid>, NoMemory>
    requires { root < length state.now.processes }
    ensures { OrNoMemory result (λ pids. pids.items ≡ reaching state.now (pid_at state.now.processes root)) }
{
    let mut marks = first_marks(alloc, state, root)?;
    collect(alloc, state, &mut marks)
}

// The processes that reach the root of the marks.
fn collect(alloc: Global, state: &State, marks: &mut [Option<bool>]) -> Result<Vec<Pid>, NoMemory>
    requires { length marks.old ≡ length state.now.processes }
    ensures { OrNoMemory result (λ pids.
        (root : ℕ) → AreMarks state.now root marks.old → pids.items ≡ reaching state.now root) }
{
    let mut pids = Vec::new(alloc);
    for at in 0..marks.len() {
        if mark(state, marks, at) {
            pids.push(pid_there(state, at))?;
        }
    }
    Ok(pids)
}

// Marks of which the root's alone is known.
fn first_marks(alloc: Global, state: &State, root: usize) -> Result<Vec<Option<bool>>, NoMemory>
    requires { root < length state.now.processes }
    ensures { OrNoMemory result (λ marks. AreMarks state.now (pid_at state.now.processes root) marks.items) }
{
    let mut marks = unmarked(alloc, state.procs.items())?;
    marks[root] = Some(true);
    Ok(marks)
}

fn unmarked(alloc: Global, list: &[Proc]) -> Result<Vec<Option<bool>>, NoMemory>
    ensures { OrNoMemory result (λ marks. marks.items ≡ map (λ _. None) list.now) }
{
    Ok(list.iter().map(|_| None).collect(alloc)?)
}

// Marks the chain of the process at this place, and says whether it reaches the root.
fn mark(state: &State, marks: &mut [Option<bool>], at: usize) -> bool
    requires here { at < length state.now.processes }
    requires count { length marks.old ≡ length state.now.processes }
    ensures reached { (root : ℕ) → AreMarks state.now root marks.old → result ≡ reaches_at state.now root at }
    ensures marks { (root : ℕ) → AreMarks state.now root marks.old → AreMarks state.now root marks.new }
{
    let reached = look(state, marks, at);
    spread(state, marks, at, reached);
    reached
}

// Whether the chain reaches the root: what the first known process on it says. A chain without one ends, or goes round.
fn look(state: &State, marks: &[Option<bool>], at: usize) -> bool
    requires here { at < length state.now.processes }
    requires count { length marks.now ≡ length state.now.processes }
    ensures { (root : ℕ) → AreMarks state.now root marks.now → result ≡ reaches_at state.now root at }
{
    let mut here = at;
    for _step in 0..marks.len() + 1 {
        if let Some(reached) = marks[here] {
            return reached;
        }
        let Some(next) = forebear_place(state, here) else {
            return false;
        };
        here = next;
    }
    false
}

// Marks the chain up to its first known process.
fn spread(state: &State, marks: &mut [Option<bool>], at: usize, reached: bool)
    requires here { at < length state.now.processes }
    requires count { length marks.old ≡ length state.now.processes }
    ensures { (root : ℕ) → AreMarks state.now root marks.old → reached ≡ reaches_at state.now root at → AreMarks state.now root marks.new }
{
    let mut here = at;
    for _step in 0..marks.len() {
        if marks[here].is_some() {
            return;
        }
        marks[here] = Some(reached);
        let Some(next) = forebear_place(state, here) else {
            return;
        };
        here = next;
    }
}

// The place of the forebear of the process at this place. None where it has none, or none that is alive.
fn forebear_place(state: &State, at: usize) -> Option<usize>
    requires { at < length state.now.processes }
    ensures found { IfSome result (λ up. (up < length state.now.processes) × IsForebearAt state.now at up) }
    ensures none { IfNone result (HasNoForebearAt state.now at) }
{
    let procs = &state.procs;
    let p = &procs.list[at];
    match p.forebear {
        Some(forebear) => procs.find(forebear),
        None => None,
    }
}

// The pid of the process at this place.
fn pid_there(state: &State, at: usize) -> Pid
    requires { at < length state.now.processes }
    ensures { result ≡ pid_at state.now.processes at }
{
    let procs = &state.procs;
    let p = &procs.list[at];
    p.pid
}
