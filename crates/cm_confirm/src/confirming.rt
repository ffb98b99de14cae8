// The run, line by line: each of its events is made a step of the machine, and is held against the limits, the members,
// the world's filter and their own.
ghost use Rattle.std.specs.Prelude.{◌≡◌, ◌<◌, ◌≤◌, ◌+◌, ◌^◌, length};
ghost use Rattle.cm_base.specs.Limited.{limit_number};
ghost use Rattle.cm_base.specs.Outcome.{OrNoMemory};
ghost use Rattle.cm_base.specs.declared.limited.Limited.TheVariants as limit;
ghost use Rattle.cm_confirm.specs.Confirmed.{confirmed_of, ComesTo, IsTurn};
ghost use Rattle.cm_confirm.specs.Lines.{line_before};
ghost use Rattle.cm_declared.specs.World.{world_of};
ghost use Rattle.cm_filter.specs.Filters.{permits};
ghost use Rattle.cm_lines.specs.Cut.{Cut, ends_by};
ghost use Rattle.cm_log.specs.Counts.{lines_read};
ghost use Rattle.cm_log.specs.Left.{left, told_of, told_then, IsScript};
ghost use Rattle.cm_state.specs.Right.{right_of};
ghost use Rattle.cm_strace.specs.Answers.{stop_is};
ghost use Rattle.model_confirm.specs.Confirm.{by_ending, by_stop, confirm_of, is_for_members};
ghost use Rattle.model_cred.specs.Call.{kind_of};
ghost use Rattle.model_plans.specs.Firsts.{PidsAscend};
ghost use Rattle.model_run.specs.Own.{may_call};
ghost use Rattle.model_run.specs.Step.{outcome};
ghost use Rattle.model_run.specs.Within.{IsWithin};
ghost use Rattle.model_text.specs.Reading.{AtEnd, Reading, script_reading};

use crate::confirmed::Confirmed;
use crate::members::Members;
use cm_base::{Limited, NoMemory, Pid};
use cm_declared::World;
use cm_lines::{Past, next_line};
use cm_log::{Log, Placed, Stage, Stop};
use cm_machine::{Machine, StepError};
use cm_state::{Event, Right, State};
use std::alloc::Global;

/// What the lines of a run come to, from where the machine is, by these members, whose pids ascend. They are read as
/// a script, whatever form of log the world declares. For each event the limits come first, then whether it is a
/// member's, whether the world's filter and the member's own permit it, and whether it is a step. The state is within
/// the limits of processes and spaces, and the text has fewer than 2^31 bytes. Its only error is out of memory.
pub fn confirm(
    alloc: Global,
    w: &World,
    machine: Machine,
    members: Vec<Pid>,
    right: &Right,
    text: &[u8],
) -> Result<Confirmed, NoMemory>
    requires within { IsWithin machine.state }
    requires ascends { PidsAscend members.items }
    requires text { length text.now < 2 ^ 31 }
    ensures { OrNoMemory result (λ confirmed. confirmed_of confirmed
        ≡ confirm_of (world_of w.now) machine.state members.items (right_of right.now) (script_reading (world_of w.now) text.now)) }
{
    let mut machine = machine;
    let mut members = Members::new(members);
    let mut run = Log::of_script(alloc);
    let mut rest = text;
    while let Some((line, after)) = next_line(rest) {
        let stage = read_line(alloc, w, &mut run, line)?;
        let told = run.events();
        match take_told(alloc, w, &mut machine, &mut members, right, told, stage)? {
            Turn::Goes => {}
            Turn::Ends(confirmed) => return Ok(confirmed),
        }
        rest = after;
    }
    finish(alloc, w, &mut machine, &mut members, right, &mut run)
}

// No line of the run comes any more: what its end tells is taken, and this is what the run comes to.
fn finish(
    alloc: Global,
    w: &World,
    machine: &mut Machine,
    members: &mut Members,
    right: &Right,
    run: &mut Log,
) -> Result<Confirmed, NoMemory>
    requires { IsWithin machine.old.state }
    ensures { OrNoMemory result (λ confirmed. confirm_of (world_of w.now) machine.old.state members.old (right_of right.now)
        (left (world_of w.now) run.old (ends_by None)) ≡ confirmed_of confirmed) }
{
    let stage = run.end(alloc, w, None)?;
    let told = run.events();
    match take_told(alloc, w, machine, members, right, told, stage)? {
        Turn::Ends(confirmed) => Ok(confirmed),
        Turn::Goes => unreachable!(),
    }
}

// A line of the run is read; one that has more bytes than lines may have ends its reading.
fn read_line(alloc: Global, w: &World, run: &mut Log, line: &[u8]) -> Result<Stage, NoMemory>
    requires script { IsScript run.old }
    requires lines { lines_read run.old < 2 ^ 63 }
    ensures told { OrNoMemory result (λ stage. (cut : Cut) →
        left (world_of w.now) run.old (line_before (limit_number limit.Line) line.now cut)
        ≡ told_then (told_of run.new) stage (left (world_of w.now) run.new cut)) }
    ensures script { OrNoMemory result (λ _. IsScript run.new) }
    ensures lines { OrNoMemory result (λ _. lines_read run.new ≤ lines_read run.old + 1) }
{
    if line.len() as u64 > Limited::Line.number() {
        return run.end(alloc, w, Some(Past::Line));
    }
    run.read_line(alloc, w, line)
}

// What a line is to the run, or an event: it goes on, or comes to this.
#[derive(Clone, Copy, Debug)]
enum Turn {
    Goes,
    Ends(Confirmed),
}

// The events that a line told are taken, or that the end told, and then the run goes on or is over, by what its reading
// is at.
fn take_told(
    alloc: Global,
    w: &World,
    machine: &mut Machine,
    members: &mut Members,
    right: &Right,
    told: &[Placed],
    stage: Stage,
) -> Result<Turn, NoMemory>
    requires within { IsWithin machine.old.state }
    ensures turn { OrNoMemory result (λ turn. (later : Reading)
        → ComesTo (world_of w.now) machine.old.state members.old (right_of right.now)
        (told_then told.now stage later) turn machine.new.state members.new later) }
    ensures goes { OrNoMemory result (λ turn. turn ≡ Turn.Goes → stage ≡ Stage.Going) }
{
    for event in told {
        match take_event(alloc, w, machine, members, event)? {
            Turn::Goes => {}
            Turn::Ends(confirmed) => return Ok(Turn::Ends(confirmed)),
        }
    }
    match stage {
        Stage::Going => Ok(Turn::Goes),
        Stage::Stopped(stop) => Ok(Turn::Ends(stop_run(stop))),
        Stage::Finished => Ok(Turn::Ends(end_run(&machine.state, members, right))),
    }
}

// One event of the run. Where it is a step the machine makes it, whoever's it is; the machine isn't used any more after an end.
fn take_event(
    alloc: Global,
    w: &World,
    machine: &mut Machine,
    members: &mut Members,
    event: &Placed,
) -> Result<Turn, NoMemory>
    requires within { IsWithin machine.old.state }
    ensures { OrNoMemory result (λ turn. IsTurn (world_of w.now) machine.old.state members.old event.now turn
        (outcome (world_of w.now) machine.old.state event.now.event) machine.new.state members.new) }
{
    let theirs = is_for_members(w, &machine.state, members, &event.event);
    match machine.step(alloc, w, &event.event) {
        Ok(()) => {
            if let Some(limit) = machine.state.exceeded() {
                return Ok(Turn::Ends(Confirmed::PastLimit(limit)));
            }
            if !theirs {
                return Ok(Turn::Ends(Confirmed::RefusesLine(event.line)));
            }
            members.follow(&event.event)?;
            Ok(Turn::Goes)
        }
        Err(StepError::NoMemory) => Err(NoMemory),
        Err(
            StepError::NoProcess
            | StepError::NoSpace
            | StepError::PidInUse
            | StepError::Wrong { .. },
        ) => Ok(Turn::Ends(Confirmed::RefusesLine(event.line))),
    }
}

// The event is a member's, and its call of a kind that the member may call in that state.
fn is_for_members(w: &World, state: &State, members: &Members, e: &Event) -> bool
    ensures { result ≡ is_for_members (world_of w.now) state.now members.now e.now }
{
    members.has(e.pid) && may_call(w, state, e)
}

// The world's filter permits the call, and so does the caller's own in that state.
fn may_call(w: &World, state: &State, e: &Event) -> bool
    ensures { result ≡ may_call (permits w.now.filter) state.now e.now.pid (kind_of e.now.call) }
{
    let kind = e.call.kind();
    w.filter.permits(kind) && state.filter_of(e.pid).permits(kind)
}

// What the run comes to at its end.
fn end_run(state: &State, members: &Members, right: &Right) -> Confirmed
    ensures { confirmed_of result ≡ by_ending state.now members.now (right_of right.now) AtEnd }
{
    match members.holder(state, right) {
        Some(pid) => Confirmed::Confirms(pid),
        None => Confirmed::RefusesEnd,
    }
}

// What it comes to at the line that stops its reading.
fn stop_run(stop: Stop) -> Confirmed
    ensures { confirmed_of result ≡ by_stop (stop_is stop) }
{
    match stop {
        Stop::Fault(number, _) => Confirmed::RefusesLine(number),
        Stop::Limit(limit) => Confirmed::PastLimit(limit),
    }
}
