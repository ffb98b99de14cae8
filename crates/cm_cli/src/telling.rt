// Telling the report of a log: what is written goes to the sink, and the answer says how it went.
ghost use Rattle.std.specs.Prelude.{◌≡◌, ◌≢◌, ◌∷◌, [], true, Ok, Err, IfOk, IfSome, OnOk, OnErr};
ghost use Rattle.cm_base.specs.declared.limited.Limited.TheVariants as limit;
ghost use Rattle.cm_cli.specs.BeforeFault.{HoldsShown};
ghost use Rattle.cm_cli.specs.Claims.{IsLogAnswer};
ghost use Rattle.cm_cli.specs.LogReport.{log_report, TellsLog, WorldGives};
ghost use Rattle.cm_cli.specs.LogReading.{LogFails, ThirdStaysUnread};
ghost use Rattle.cm_cli.specs.Query.{file_of, shows_of, task_view};
ghost use Rattle.cm_cli.specs.Reading.{ReadsFiles};
ghost use Rattle.cm_declared.specs.World.{world_of};
ghost use Rattle.cm_io.specs.Account.{account};
ghost use Rattle.cm_io.specs.Shelf.{bytes_at};
ghost use Rattle.cm_replay.specs.Shown.{start_shown};
ghost use Rattle.cm_replay.specs.Told.{TellsTaken, lines_report};
ghost use Rattle.cm_replay.specs.Untold.{UntoldFaults};
ghost use Rattle.cm_report.specs.Sent.{IsSent, IsFront};
ghost use Rattle.cm_report.specs.Telling.{CountsWrites};
ghost use Rattle.model_cred.specs.World.{KeepsWorld};
ghost use Rattle.model_report.specs.Judged.{Judged};
ghost use Rattle.model_report.specs.Replay.{text_of, IsWithin};

use crate::answer::put_answer;
use crate::query::Task;
use cm_base::Status;
use cm_declared::World;
use cm_io::{Shelf, Sink};
use cm_replay::{Untold, replay_log, send_start};
use cm_report::{send, stopped};
use std::alloc::Global;

/// Tells the report of the log of that name in a world, and after an accepted log the answer to what is asked: with
/// whatever verdict is given. The log is read as it is told, and not kept.
pub(crate) fn tell_log<H: Shelf, K: Sink>(
    alloc: Global,
    w: &World,
    log: &str,
    task: Task<'_>,
    shelf: &mut H,
    out: &mut K,
) -> Status
    requires keeps { KeepsWorld (world_of w.now) }
    requires within { IsWithin w.now.start }
    ensures report { IfSome (H.held shelf.old) (λ files. (j : Judged) →
        WorldGives (task_view task.entry (bytes_at files)) w.now (bytes_at files log.now) j →
        TellsLog (log_report (task_view task.entry (bytes_at files)) j w.now (bytes_at files log.now)) result
        (K.written out.old) (K.written out.new)) }
    ensures start { result ≡ Status.ReadFault → HoldsShown (shows_of task.entry) (world_of w.now) (K.written out.old)
        (K.written out.new) }
    // Where a read of the log failed, all that is told of the whole lines among the bytes that were taken is written.
    ensures tells { result ≡ Status.ReadFault → shows_of task.entry ≡ true → IfSome (H.held shelf.old) (λ files.
        TellsTaken (shows_of task.entry) (lines_report (shows_of task.entry) (world_of w.now)) (bytes_at files log.now)
        (H.taken shelf.old log.now) (H.taken shelf.new log.now) (text_of (start_shown (shows_of task.entry) (world_of w.now)))
        (K.written out.old) (K.written out.new)) }
    ensures not_usage { result ≢ Status.Usage }
    ensures counts { CountsWrites result (K.faults out.old) (K.faults out.new) }
    // A third file is read only where the log is accepted and the query stands.
    ensures order { IfSome (H.held shelf.old) (λ files. result ≡ Status.ReadFault →
        LogFails task.entry (world_of w.now) log.now (bytes_at files log.now) (H.faults shelf.old)
        (H.faults shelf.new)) }
    ensures waits { IfSome (H.held shelf.old) (λ files. ThirdStaysUnread task.entry (world_of w.now) log.now
        (bytes_at files log.now) (H.reads shelf.old) (H.reads shelf.new)) }
    ensures files { ReadsFiles (account H.Shelf shelf.old) (account H.Shelf shelf.new)
        ((log.now, limit.Log) ∷ file_of task.entry) (result ≡ Status.ReadFault) }
{
    let mut text = Vec::new(alloc);
    let status = match put_log(alloc, w, log, task, shelf, &mut text, out) {
        Ok(status) => status,
        Err(why) => return why.status(),
    };
    match send(&mut text, out) {
        Ok(()) => status,
        Err(why) => stopped(why),
    }
}

// Writes that report, and says its status. What is written goes through the buffer `text` to the sink; at `Ok` the rest
// of it waits in the buffer. At a fault of the log's the lines at the start are written, where the replay is shown; else
// nothing is.
fn put_log<H: Shelf, K: Sink>(
    alloc: Global,
    w: &World,
    log: &str,
    task: Task<'_>,
    shelf: &mut H,
    text: &mut Vec<u8>,
    out: &mut K,
) -> Result<Status, Untold>
    requires keeps { KeepsWorld (world_of w.now) }
    requires within { IsWithin w.now.start }
    requires empty { text.old.items ≡ [] }
    ensures status { IfSome (H.held shelf.old) (λ files. (j : Judged) →
        WorldGives (task_view task.entry (bytes_at files)) w.now (bytes_at files log.now) j → IfOk result (λ status.
        (log_report (task_view task.entry (bytes_at files)) j w.now (bytes_at files log.now)).status ≡ status)) }
    ensures sent { IfSome (H.held shelf.old) (λ files. (j : Judged) →
        WorldGives (task_view task.entry (bytes_at files)) w.now (bytes_at files log.now) j →
        OnOk result (IsSent (K.written out.old) (K.written out.new) text.new.items
        (text_of (log_report (task_view task.entry (bytes_at files)) j w.now (bytes_at files log.now)).lines))) }
    ensures stopped { IfSome (H.held shelf.old) (λ files. (j : Judged) →
        OnErr result (IsFront (K.written out.old) (K.written out.new)
        (text_of (log_report (task_view task.entry (bytes_at files)) j w.now (bytes_at files log.now)).lines))) }
    ensures answers { IfOk result IsLogAnswer }
    ensures start { result ≡ Err Untold.ReadFault → HoldsShown (shows_of task.entry) (world_of w.now)
        (K.written out.old) (K.written out.new) }
    // Where a read of the log failed, all that is told of the whole lines among the bytes that were taken is written.
    ensures tells { result ≡ Err Untold.ReadFault → shows_of task.entry ≡ true → IfSome (H.held shelf.old) (λ files.
        TellsTaken (shows_of task.entry) (lines_report (shows_of task.entry) (world_of w.now)) (bytes_at files log.now)
        (H.taken shelf.old log.now) (H.taken shelf.new log.now) (text_of (start_shown (shows_of task.entry) (world_of w.now)))
        (K.written out.old) (K.written out.new)) }
    ensures cause { UntoldFaults (K.faults out.old) (K.faults out.new) result }
    ensures order { IfSome (H.held shelf.old) (λ files. result ≡ Err Untold.ReadFault →
        LogFails task.entry (world_of w.now) log.now (bytes_at files log.now) (H.faults shelf.old)
        (H.faults shelf.new)) }
    ensures waits { IfSome (H.held shelf.old) (λ files. ThirdStaysUnread task.entry (world_of w.now) log.now
        (bytes_at files log.now) (H.reads shelf.old) (H.reads shelf.new)) }
    ensures files { ReadsFiles (account H.Shelf shelf.old) (account H.Shelf shelf.new)
        ((log.now, limit.Log) ∷ file_of task.entry) (result ≡ Err Untold.ReadFault) }
{
    let shown = task.shows();
    send_start(w, shown, text, out)?;
    let (end, machine) = replay_log(alloc, w, log, shown, shelf, text, out)?;
    match end {
        Status::Accepted => put_answer(alloc, w, machine, task, shelf, text),
        _ => Ok(end),
    }
}
