// The replay of a log as it comes: its lines are cut out of the file and told one by one, and none is kept.
ghost use Rattle.std.specs.Prelude.{◌≡◌, ◌≤◌, ◌<◌, ◌+◌, ◌++◌, length, Ok, Err, IfOk, IfErr, IfSome, OnOk, OnErr};
ghost use Rattle.cm_base.specs.Limited.{limit_number};
ghost use Rattle.cm_base.specs.declared.limited.Limited.TheVariants as limit;
ghost use Rattle.cm_declared.specs.World.{world_of};
ghost use Rattle.cm_io.specs.Cutter.{Fits, left_of};
ghost use Rattle.cm_io.specs.Account.{account, ReadsFile};
ghost use Rattle.cm_io.specs.Shelf.{bytes_at};
ghost use Rattle.cm_log.specs.Left.{left};
ghost use Rattle.cm_replay.specs.Coming.{Begins, ComesTo, IsReplayAnswer, KeepsAtEnd, Sends, SendsBy};
ghost use Rattle.cm_replay.specs.Shown.{shown_report};
ghost use Rattle.cm_replay.specs.Told.{TellsTaken, lines_report, report_of_lines};
ghost use Rattle.cm_replay.specs.Untold.{UntoldFaults};
ghost use Rattle.cm_report.specs.Sent.{IsSent, IsFront};
ghost use Rattle.model_report.specs.Replay.{text_of, IsWithin};
ghost use Rattle.model_report.specs.Report.{replay_of};
ghost use Rattle.model_run.specs.Within.{RunWithin};
ghost use Rattle.model_strace.specs.Logs.{log_reading};
ghost use Rattle.model_text.specs.Reading.{events_of};

use crate::replay::{Replay, Turn, replay_end, replay_line};
use crate::untold::Untold;
use cm_base::{Limited, Status};
use cm_declared::World;
use cm_io::{CutError, LineCutter, Shelf, Sink};
use cm_lines::Past;
use cm_log::Log;
use cm_machine::Machine;
use cm_report::{send, send_unless};
use std::alloc::Global;

/// Replays the log of that name in a world, from the world's state on, as it is read: says the report's status, and with
/// which machine the replay ends. What it writes goes through the buffer `text` to the sink in large pieces; at `Ok` the
/// rest of it waits in the buffer. Before each read of the log what waits is written: so at a fault of reading the
/// sink has all that was told of the lines before. Of a replay that isn't shown nothing is written but the line that says
/// why it isn't accepted.
pub fn replay_log<H: Shelf, K: Sink>(
    alloc: Global,
    w: &World,
    name: &str,
    shows: bool,
    shelf: &mut H,
    text: &mut Vec<u8>,
    out: &mut K,
) -> Result<(Status, Machine), Untold>
    requires within { IsWithin w.now.start }
    ensures status { IfSome (H.held shelf.old) (λ files. IfOk result (λ ended.
        (shown_report shows (replay_of (world_of w.now) (log_reading (world_of w.now) (bytes_at files name.now)))).status
        ≡ ended.0)) }
    ensures sent { IfSome (H.held shelf.old) (λ files.
        OnOk result (IsSent (K.written out.old) (K.written out.new) text.new.items (text.old.items ++ text_of
        (shown_report shows (replay_of (world_of w.now) (log_reading (world_of w.now) (bytes_at files name.now)))).lines))) }
    ensures stopped { IfSome (H.held shelf.old) (λ files.
        OnErr result (IsFront (K.written out.old) (K.written out.new) (text.old.items ++ text_of
        (shown_report shows (replay_of (world_of w.now) (log_reading (world_of w.now) (bytes_at files name.now)))).lines))) }
    ensures sends { Sends shows (K.written out.old) (K.written out.new) text.old.items text.new.items result }
    // At a fault of reading, all that is told of the whole lines among the bytes that were taken is written.
    ensures tells { IfErr result (λ why. why ≡ Untold.ReadFault → IfSome (H.held shelf.old) (λ files.
        TellsTaken shows (lines_report shows (world_of w.now)) (bytes_at files name.now)
        (H.taken shelf.old name.now) (H.taken shelf.new name.now) text.old.items (K.written out.old) (K.written out.new))) }
    ensures cause { UntoldFaults (K.faults out.old) (K.faults out.new) result }
    ensures answers { IfOk result (λ ended. IsReplayAnswer ended.0) }
    // Where the log is accepted, the machine is in the state that its events lead to, within the limits; no space went.
    ensures reached { IfSome (H.held shelf.old) (λ files. IfOk result (λ ended. ended.0 ≡ Status.Accepted →
        RunWithin (world_of w.now) w.now.start
        (events_of (log_reading (world_of w.now) (bytes_at files name.now)).events) ended.1.state)) }
    ensures within { IfOk result (λ ended. ended.0 ≡ Status.Accepted → IsWithin ended.1.state) }
    ensures spaces { IfOk result (λ ended. ended.0 ≡ Status.Accepted →
        length w.now.start.spaces ≤ length ended.1.state.spaces) }
    ensures file { ReadsFile (account H.Shelf shelf.old) (account H.Shelf shelf.new) name.now
        (limit_number limit.Log + 1) 1 (result ≡ Err Untold.ReadFault) }
{
    let mut replay = Replay::new(alloc, w, shows)?;
    let mut log = Log::new(alloc, w)?;
    let mut cutter = LineCutter::new(alloc, name, Limited::Line.number(), Limited::Log.number())?;
    let status = replay_lines(
        alloc,
        w,
        &mut replay,
        &mut log,
        &mut cutter,
        shelf,
        text,
        out,
    )?;
    let Replay { machine, .. } = replay;
    Ok((status, machine))
}

// Replays the lines that the cutter gives, and ends the report. At first no line is at hand.
#[tactic(auto, using(crate::proofs::Told::past_none, crate::proofs::Told::sent_first, crate::proofs::Lines::begun_ends))]
fn replay_lines<H: Shelf, K: Sink>(
    alloc: Global,
    w: &World,
    replay: &mut Replay,
    log: &mut Log,
    cutter: &mut LineCutter,
    shelf: &mut H,
    text: &mut Vec<u8>,
    out: &mut K,
) -> Result<Status, Untold>
    requires begins { Begins (world_of w.now) cutter.old.name replay.old log.old cutter.old }
    requires fits { Fits (H.held shelf.old) cutter.old }
    ensures told { IfSome (H.held shelf.old) (λ files. ComesTo (world_of w.now) replay.old replay.new
        (record { written = K.written out.old; waits = text.old.items })
        (record { written = K.written out.new; waits = text.new.items })
        result (left (world_of w.now) log.old (left_of cutter.old (bytes_at files cutter.old.name)))) }
    ensures sends { SendsBy replay.old.shows (K.written out.old) (K.written out.new) text.old.items text.new.items result }
    ensures tells { result ≡ Err Untold.ReadFault → IfSome (H.held shelf.old) (λ files.
        TellsTaken replay.old.shows (report_of_lines (world_of w.now) replay.old log.old)
        (bytes_at files cutter.old.name) (H.taken shelf.old cutter.old.name) (H.taken shelf.new cutter.old.name)
        text.old.items (K.written out.old) (K.written out.new)) }
    ensures answers { IfOk result IsReplayAnswer }
    ensures keeps { KeepsAtEnd replay.old replay.new result }
    ensures cause { UntoldFaults (K.faults out.old) (K.faults out.new) result }
    ensures file { ReadsFile (account H.Shelf shelf.old) (account H.Shelf shelf.new) cutter.old.name
        (limit_number limit.Log + 1) 1 (result ≡ Err Untold.ReadFault) }
{
    send(text, out)?;
    loop {
        if cutter.has_ended() {
            return replay_end(alloc, w, replay, log, None, text, out);
        }
        match cutter.next_line(shelf) {
            Ok(Some(line)) => match replay_line(alloc, w, replay, log, line, text, out)? {
                Turn::Goes => {}
                Turn::Ends(status) => return Ok(status),
            },
            Ok(None) => return replay_end(alloc, w, replay, log, None, text, out),
            Err(CutError::TooLong) => {
                return replay_end(alloc, w, replay, log, Some(Past::Line), text, out);
            }
            Err(CutError::TooMuch) => {
                return replay_end(alloc, w, replay, log, Some(Past::Whole), text, out);
            }
            Err(CutError::Read) => return Err(Untold::ReadFault),
            Err(CutError::NoMemory) => return Err(Untold::NoMemory),
        }
        send_unless(cutter, text, out)?;
    }
}
