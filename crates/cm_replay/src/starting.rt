// The credential lines at the start of a report.
ghost use Rattle.std.specs.Prelude.{◌≢◌, ◌++◌, map, Err, OnOk, OnErr};
ghost use Rattle.cm_report.specs.Sent.{IsSent, IsFront};
ghost use Rattle.cm_declared.specs.World.{world_of};
ghost use Rattle.model_report.specs.Replay.{Credentials, text_of};
ghost use Rattle.cm_replay.specs.Shown.{start_shown};
ghost use Rattle.cm_replay.specs.Untold.{UntoldFaults};

use crate::untold::Untold;
use cm_declared::World;
use cm_io::Sink;
use cm_report::{put_process, send_full};
use cm_state::Proc;

/// The credential lines of the processes with which the world begins, where the replay is shown. They go through the buffer
/// `text` to the sink in large pieces; at `Ok` the rest of them waits in the buffer, after an error a front of them is
/// written.
pub fn send_start<K: Sink>(
    w: &World,
    shows: bool,
    text: &mut Vec<u8>,
    out: &mut K,
) -> Result<(), Untold>
    ensures sent { OnOk result (IsSent (K.written out.old) (K.written out.new) text.new.items
        (text.old.items ++ text_of (start_shown shows (world_of w.now)))) }
    ensures stopped { OnErr result (IsFront (K.written out.old) (K.written out.new)
        (text.old.items ++ text_of (start_shown shows (world_of w.now)))) }
    ensures no_read_fault { result ≢ Err Untold.ReadFault }
    ensures cause { UntoldFaults (K.faults out.old) (K.faults out.new) result }
{
    if shows {
        send_lines(w, w.start.procs.items(), text, out)
    } else {
        Ok(())
    }
}

// The credential lines of these processes.
fn send_lines<K: Sink>(
    w: &World,
    procs: &[Proc],
    text: &mut Vec<u8>,
    out: &mut K,
) -> Result<(), Untold>
    ensures sent { OnOk result (IsSent (K.written out.old) (K.written out.new) text.new.items
        (text.old.items ++ text_of (map (Credentials (world_of w.now)) procs.now))) }
    ensures stopped { OnErr result (IsFront (K.written out.old) (K.written out.new)
        (text.old.items ++ text_of (map (Credentials (world_of w.now)) procs.now))) }
    ensures no_read_fault { result ≢ Err Untold.ReadFault }
    ensures cause { UntoldFaults (K.faults out.old) (K.faults out.new) result }
{
    for p in procs {
        put_process(text, w, p)?;
        send_full(text, out)?;
    }
    Ok(())
}
