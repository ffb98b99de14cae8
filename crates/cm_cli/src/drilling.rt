// Telling what a drill comes to.
ghost use Rattle.std.specs.Prelude.{◌≡◌, ◌≢◌, ◌++◌, [], ◌∷◌, codes};
ghost use Rattle.cm_audit.specs.Told.{told};
ghost use Rattle.cm_base.specs.Outcome.{OrNoMemory};
ghost use Rattle.cm_cli.specs.Drilling.{drill_of, drilled_lines, GivesDrill};
ghost use Rattle.cm_report.specs.Telling.{CountsWrites, TellsReport};
ghost use Rattle.model_report.specs.Judged.{Judged};
ghost use Rattle.model_report.specs.Replay.{text_of, Plain};
ghost use Rattle.model_report.specs.Report.{verdict_word};

use crate::answers::put_numbered;
use cm_audit::Verdict;
use cm_base::{NoMemory, Status};
use cm_drill::{Drilled, drill};
use cm_io::Sink;
use cm_report::{send, stopped};
use cm_tokens::put;
use std::alloc::Global;

/// Tells the drill of so many events.
pub(crate) fn tell_drill<K: Sink>(alloc: Global, n: u32, out: &mut K) -> Status
    ensures report { (j : Judged) → GivesDrill n j
        → TellsReport (drill_of n j) result (K.written out.old) (K.written out.new)
        (K.faults out.old) (K.faults out.new) }
    ensures not_usage { result ≢ Status.Usage }
    ensures not_read_fault { result ≢ Status.ReadFault }
    ensures counts { CountsWrites result (K.faults out.old) (K.faults out.new) }
{
    let mut text = Vec::new(alloc);
    match put_drill(alloc, n, &mut text) {
        Ok(()) => {}
        Err(NoMemory) => return Status::NoMemory,
    }
    match send(&mut text, out) {
        Ok(()) => Status::Accepted,
        Err(why) => stopped(why),
    }
}

// Makes the drill, and writes what comes of it.
fn put_drill(alloc: Global, n: u32, text: &mut Vec<u8>) -> Result<(), NoMemory>
    ensures { (j : Judged) → GivesDrill n j
        → OrNoMemory result (λ _. text.new.items ≡ text.old.items ++ text_of (drill_of n j).lines) }
{
    let d = drill(alloc, n)?;
    put_drilled(text, &d)
}

// The five lines.
fn put_drilled(text: &mut Vec<u8>, d: &Drilled) -> Result<(), NoMemory>
    ensures { OrNoMemory result (λ _. text.new.items ≡ text.old.items ++ text_of (drilled_lines d.now)) }
{
    put_numbered(text, b"events ", u64::from(d.events))?;
    put_numbered(text, b"refused ", u64::from(d.refused))?;
    put_numbered(text, b"live ", u64::from(d.live))?;
    put_numbered(text, b"spaces ", u64::from(d.spaces))?;
    put_word(text, &d.verdict)
}

// The word of the verdict.
fn put_word(text: &mut Vec<u8>, verdict: &Verdict) -> Result<(), NoMemory>
    ensures { OrNoMemory result (λ _. text.new.items ≡ text.old.items
        ++ text_of (Plain (codes "verdict " ++ verdict_word (told verdict.now)) ∷ [])) }
{
    match verdict {
        Verdict::Yes(_) => put(text, b"verdict yes\n"),
        Verdict::No { .. } => put(text, b"verdict no\n"),
        Verdict::Undecided { .. } => put(text, b"verdict undecided\n"),
    }
}
