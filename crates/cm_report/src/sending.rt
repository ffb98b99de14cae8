// The buffer in front of a sink: the report leaves it in large pieces, and before each read of the log.
ghost use Rattle.std.specs.Prelude.{◌≡◌, ◌<◌, [], OnOk, OnErr, false, vec_len};
ghost use Rattle.cm_report.specs.Sent.{IsSent, IsFront};
ghost use Rattle.cm_io.specs.Cutter.{is_at_hand};
ghost use Rattle.cm_io.specs.Sink.{WriteFaults};

use cm_io::{LineCutter, Outside, Sink, write_all};

// A piece is sent once so many bytes wait.
const PIECE: usize = 65_536;

/// Sends what waits where it is a large piece, so that less than one waits after it. After an error a front of it is
/// written.
#[tactic(auto, using(crate::proofs::Waiting::all_waits))]
pub fn send_full<K: Sink>(text: &mut Vec<u8>, out: &mut K) -> Result<(), Outside>
    ensures sent { OnOk result (IsSent (K.written out.old) (K.written out.new) text.new.items text.old.items) }
    ensures less { OnOk result (vec_len text.new < 65536) }
    ensures front { OnErr result (IsFront (K.written out.old) (K.written out.new) text.old.items) }
    ensures cause { WriteFaults (K.faults out.old) (K.faults out.new) result }
{
    if text.len() < PIECE {
        return Ok(());
    }
    send(text, out)
}

/// Sends all that waits where a read of the log comes next: no line of it is at hand, and it hasn't ended. After an error a
/// front of it is written.
#[tactic(auto, using(crate::proofs::Waiting::all_waits))]
pub fn send_unless<K: Sink>(
    cutter: &LineCutter,
    text: &mut Vec<u8>,
    out: &mut K,
) -> Result<(), Outside>
    ensures none_waits { OnOk result (is_at_hand cutter.now ≡ false → cutter.now.ended ≡ false → text.new.items ≡ []) }
    ensures sent { OnOk result (IsSent (K.written out.old) (K.written out.new) text.new.items text.old.items) }
    ensures front { OnErr result (IsFront (K.written out.old) (K.written out.new) text.old.items) }
    ensures cause { WriteFaults (K.faults out.old) (K.faults out.new) result }
{
    if cutter.is_at_hand() || cutter.has_ended() {
        return Ok(());
    }
    send(text, out)
}

/// Sends all that waits. After an error a front of it is written.
#[tactic(auto, using(crate::proofs::Waiting::none_waits, crate::proofs::Waiting::taken))]
pub fn send<K: Sink>(text: &mut Vec<u8>, out: &mut K) -> Result<(), Outside>
    ensures sent { OnOk result (IsSent (K.written out.old) (K.written out.new) text.new.items text.old.items) }
    ensures empty { OnOk result (text.new.items ≡ []) }
    ensures front { OnErr result (IsFront (K.written out.old) (K.written out.new) text.old.items) }
    ensures cause { WriteFaults (K.faults out.old) (K.faults out.new) result }
{
    write_all(out, text)?;
    text.clear();
    Ok(())
}
