// The replay of a log, a line at a time, whatever its form: each event is made a step of the machine, and its lines of the report
// are written where the replay is shown.
ghost use Rattle.std.specs.Prelude.{◌≡◌, ◌≢◌, ◌<◌, ◌+◌, ◌^◌, ◌++◌, ◌∷◌, [], length, Ok, Err, IfSome};
ghost use Rattle.cm_base.specs.Outcome.{OrNoMemory};
ghost use Rattle.cm_credentials.specs.Kept.{Keeps};
ghost use Rattle.cm_declared.specs.World.{world_of};
ghost use Rattle.cm_lines.specs.Cut.{Cut, before, ends_by};
ghost use Rattle.cm_log.specs.Counts.{events_due, lines_read};
ghost use Rattle.cm_log.specs.Left.{left, told_then};
ghost use Rattle.cm_replay.specs.Coming.{ComesTo};
ghost use Rattle.cm_replay.specs.Following.{Advances, Follows, IsReady, Took};
ghost use Rattle.cm_replay.specs.Replay.{event_lines, EndsBy, IsTurn};
ghost use Rattle.cm_replay.specs.Untold.{UntoldFaults};
ghost use Rattle.model_report.specs.Replay.{text_of, IsWithin};
ghost use Rattle.model_run.specs.Step.{outcome};
ghost use Rattle.model_text.specs.Print.{event_text};
ghost use Rattle.model_text.specs.Reading.{Reading, reads_on};

use crate::untold::Untold;
use cm_base::{NoMemory, Status};
use cm_credentials::KeptLines;
use cm_declared::World;
use cm_io::Sink;
use cm_lines::Past;
use cm_log::{Log, Placed, Stage, Stop};
use cm_machine::Machine;
use cm_report::{put_bad_log, put_end, put_impossible, put_limit, put_step, send_full};
use std::alloc::Global;

/// Where a replay stands: the machine after the events so far, and how many these are; whether it is shown; and the
/// last credential lines of some processes, which the next ones are made of.
#[derive(Debug, Drop)]
pub struct Replay {
    pub machine: Machine,
    pub events: u64,
    pub shows: bool,
    pub kept: KeptLines,
}

impl Replay {
    /// The beginning of a replay in a world, which is shown or not. Its only error is out of memory.
    pub fn new(alloc: Global, w: &World, shows: bool) -> Result<Replay, NoMemory>
        ensures state { OrNoMemory result (λ replay. replay.machine.state ≡ w.now.start) }
        ensures none { OrNoMemory result (λ replay. replay.events ≡ 0) }
        ensures shows { OrNoMemory result (λ replay. replay.shows ≡ shows) }
        ensures keeps { OrNoMemory result (λ replay. Keeps w.now.names replay.kept) }
    {
        let machine = Machine::new(alloc, w)?;
        let kept = KeptLines::new(alloc)?;
        Ok(Replay {
            machine,
            events: 0,
            shows,
            kept,
        })
    }
}

/// What a line is to the replay: it goes on, and a line more is wanted; or its report ends, with this status.
#[derive(Clone, Copy, Debug)]
pub enum Turn {
    Goes,
    Ends(Status),
}

/// Replays what a line of the log tells, where all that the lines before it told was taken. The events' lines of the report go
/// through the buffer `text` to the sink in large pieces, and what isn't sent of them waits in the buffer; at an end so does the
/// line that ends the report. Of a replay that isn't shown nothing is written but the line that says why it isn't accepted. The
/// errors are the sink's, and out of memory; after one a front of the report is written.
pub fn replay_line<K: Sink>(
    alloc: Global,
    w: &World,
    replay: &mut Replay,
    log: &mut Log,
    line: &[u8],
    text: &mut Vec<u8>,
    out: &mut K,
) -> Result<Turn, Untold>
    requires ready { IsReady (world_of w.now) replay.old log.old }
    requires line { length line.now < 2 ^ 32 }
    requires lines { lines_read log.old < 2 ^ 63 }
    requires events { replay.old.events + events_due log.old < 2 ^ 63 }
    // Whatever comes after the line, what is told of the whole is what is told now and what is told of the rest.
    ensures follows { (cut : Cut) → Follows (world_of w.now) replay.old replay.new
        (record { written = K.written out.old; waits = text.old.items })
        (record { written = K.written out.new; waits = text.new.items })
        result (left (world_of w.now) log.old (before line.now cut)) (left (world_of w.now) log.new cut) }
    ensures advances { result ≡ Ok Turn.Goes → Advances (world_of w.now) 1 1 replay.old replay.new log.old log.new }
    ensures no_read_fault { result ≢ Err Untold.ReadFault }
    ensures cause { UntoldFaults (K.faults out.old) (K.faults out.new) result }
{
    if let Some(event) = log.read_own(alloc, w, line) {
        return take_and_send(alloc, w, replay, &event, Some(line), text, out);
    }
    let stage = log.read_line(alloc, w, line)?;
    let told = log.events();
    follow(alloc, w, replay, told, stage, text, out)
}

/// Replays what the log still tells where no line comes any more, since it ends or since the line that comes is past a limit;
/// says the report's status. All else is as with a line.
pub fn replay_end<K: Sink>(
    alloc: Global,
    w: &World,
    replay: &mut Replay,
    log: &mut Log,
    past: Option<Past>,
    text: &mut Vec<u8>,
    out: &mut K,
) -> Result<Status, Untold>
    requires ready { IsReady (world_of w.now) replay.old log.old }
    requires events { replay.old.events + events_due log.old < 2 ^ 63 }
    ensures told { ComesTo (world_of w.now) replay.old replay.new
        (record { written = K.written out.old; waits = text.old.items })
        (record { written = K.written out.new; waits = text.new.items })
        result (left (world_of w.now) log.old (ends_by past)) }
    ensures no_read_fault { result ≢ Err Untold.ReadFault }
    ensures cause { UntoldFaults (K.faults out.old) (K.faults out.new) result }
{
    let stage = log.end(alloc, w, past)?;
    let told = log.events();
    match follow(alloc, w, replay, told, stage, text, out)? {
        Turn::Ends(status) => Ok(status),
        Turn::Goes => unreachable!(),
    }
}

// The events that a line told are taken, or that the end told, and then a line is wanted or the report ends, by what
// the reading is at.
fn follow<K: Sink>(
    alloc: Global,
    w: &World,
    replay: &mut Replay,
    told: &[Placed],
    stage: Stage,
    text: &mut Vec<u8>,
    out: &mut K,
) -> Result<Turn, Untold>
    requires within { IsWithin replay.old.machine.state }
    requires keeps { Keeps w.now.names replay.old.kept }
    requires events { replay.old.events + length told.now < 2 ^ 64 }
    ensures follows { (later : Reading) → Follows (world_of w.now) replay.old replay.new
        (record { written = K.written out.old; waits = text.old.items })
        (record { written = K.written out.new; waits = text.new.items })
        result (told_then told.now stage later) later }
    ensures took { result ≡ Ok Turn.Goes → Took (world_of w.now) told.now replay.old replay.new }
    ensures goes { result ≡ Ok Turn.Goes → stage ≡ Stage.Going }
    ensures no_read_fault { result ≢ Err Untold.ReadFault }
    ensures cause { UntoldFaults (K.faults out.old) (K.faults out.new) result }
{
    for event in told {
        match take_and_send(alloc, w, replay, event, None, text, out)? {
            Turn::Goes => {}
            Turn::Ends(status) => return Ok(Turn::Ends(status)),
        }
    }
    Ok(put_ending(text, replay, stage)?)
}

// An event is taken with its lines, which are sent where they fill a piece. Where its line stands as events are
// written, it is given as `own`.
fn take_and_send<K: Sink>(
    alloc: Global,
    w: &World,
    replay: &mut Replay,
    event: &Placed,
    own: Option<&[u8]>,
    text: &mut Vec<u8>,
    out: &mut K,
) -> Result<Turn, Untold>
    requires within { IsWithin replay.old.machine.state }
    requires keeps { Keeps w.now.names replay.old.kept }
    requires own { IfSome own (λ line. event_text (world_of w.now) event.now.event ≡ line.now) }
    requires events { replay.old.events + 1 < 2 ^ 64 }
    ensures takes { (reading rest : Reading) → reading ≡ reads_on event.now rest → Follows (world_of w.now) replay.old replay.new
        (record { written = K.written out.old; waits = text.old.items })
        (record { written = K.written out.new; waits = text.new.items }) result reading rest }
    ensures took { result ≡ Ok Turn.Goes → Took (world_of w.now) (event.now ∷ []) replay.old replay.new }
    ensures no_read_fault { result ≢ Err Untold.ReadFault }
    ensures cause { UntoldFaults (K.faults out.old) (K.faults out.new) result }
{
    match take_event(alloc, w, replay, event, own, text)? {
        Turn::Goes => {
            send_full(text, out)?;
            Ok(Turn::Goes)
        }
        Turn::Ends(status) => Ok(Turn::Ends(status)),
    }
}

// One event of the log: says whether the replay goes on with it, and writes its lines where it is shown, or why it doesn't.
fn take_event(
    alloc: Global,
    w: &World,
    replay: &mut Replay,
    event: &Placed,
    own: Option<&[u8]>,
    text: &mut Vec<u8>,
) -> Result<Turn, NoMemory>
    requires count { replay.old.events + 1 < 2 ^ 64 }
    requires within { IsWithin replay.old.machine.state }
    requires keeps { Keeps w.now.names replay.old.kept }
    requires own { IfSome own (λ line. event_text (world_of w.now) event.now.event ≡ line.now) }
    ensures turn { OrNoMemory result (λ turn. IsTurn (world_of w.now) event.now turn
        (outcome (world_of w.now) replay.old.machine.state event.now.event) replay.new.machine.state) }
    ensures lines { OrNoMemory result (λ _. text.new.items ≡ text.old.items
        ++ text_of (event_lines replay.old.shows (world_of w.now) event.now (outcome (world_of w.now) replay.old.machine.state event.now.event))) }
    ensures events { OrNoMemory result (λ turn. turn ≡ Turn.Goes → replay.new.events ≡ replay.old.events + 1) }
    ensures keeps { OrNoMemory result (λ _. Keeps w.now.names replay.new.kept) }
    ensures shows { replay.new.shows ≡ replay.old.shows }
{
    match replay.machine.step(alloc, w, &event.event) {
        Ok(()) => {
            if let Some(limit) = replay.machine.state.exceeded() {
                put_limit(text, limit)?;
                return Ok(Turn::Ends(Status::Limit));
            }
            if replay.shows {
                put_step(text, w, &replay.machine.state, event, own, &mut replay.kept)?;
            }
            replay.events += 1;
            Ok(Turn::Goes)
        }
        Err(why) => {
            put_impossible(text, event.line, &why)?;
            Ok(Turn::Ends(Status::Impossible))
        }
    }
}

// What the reading is at to the replay: it goes on, or the line that ends the report is written.
fn put_ending(text: &mut Vec<u8>, replay: &Replay, stage: Stage) -> Result<Turn, NoMemory>
    ensures { OrNoMemory result (λ turn. EndsBy replay.now stage turn text.old.items text.new.items) }
{
    match stage {
        Stage::Going => Ok(Turn::Goes),
        Stage::Finished => {
            if replay.shows {
                put_end(text, replay.events)?;
            }
            Ok(Turn::Ends(Status::Accepted))
        }
        Stage::Stopped(Stop::Fault(number, why)) => {
            put_bad_log(text, number, why)?;
            Ok(Turn::Ends(Status::BadLog))
        }
        Stage::Stopped(Stop::Limit(limit)) => {
            put_limit(text, limit)?;
            Ok(Turn::Ends(Status::Limit))
        }
    }
}
