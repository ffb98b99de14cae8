// What comes of a claim, a certificate or a run, after an accepted log. Its file is read only for a query that stands.
ghost use Rattle.std.specs.Prelude.{◌≡◌, ◌≢◌, ◌≤◌, ◌↔◌, ℕ, List, [], ◌∷◌, Err, IfOk, IfSome, length};
ghost use Rattle.cm_base.specs.Limited.{limit_number};
ghost use Rattle.cm_base.specs.Outcome.{OrNoMemory};
ghost use Rattle.cm_cli.specs.Asking.{IsQuestion};
ghost use Rattle.cm_cli.specs.Claims.{IsLogAnswer, IsTooMuch, StandsIn};
ghost use Rattle.cm_cli.specs.LogReport.{IsPut};
ghost use Rattle.cm_cli.specs.Query.{limit_of, query_view, task_by};
ghost use Rattle.cm_cli.specs.Reading.{ReadsFiles};
ghost use Rattle.cm_declared.specs.World.{world_of};
ghost use Rattle.cm_io.specs.Account.{account};
ghost use Rattle.cm_io.specs.Shelf.{bytes_at};
ghost use Rattle.cm_state.specs.Right.{right_of};
ghost use Rattle.model_report.specs.Answer.{query_answer, task_report};
ghost use Rattle.model_report.specs.Given.{StateGives};
ghost use Rattle.model_report.specs.Judged.{Judged};
ghost use Rattle.model_report.specs.Query.{Query};
ghost use Rattle.model_report.specs.Replay.{IsWithin, limit_hit};
ghost use Rattle.model_run.specs.Never.{MountsStand};

use crate::asking::{put_refusal, read_question};
use crate::checking::put_check;
use crate::confirming::put_confirm;
use crate::query::{Claim, ClaimKind};
use crate::reading::{Unread, read_file};
use cm_audit::Question;
use cm_base::{Limited, NoMemory, Status};
use cm_declared::World;
use cm_io::Shelf;
use cm_machine::Machine;
use cm_replay::Untold;
use cm_report::put_limit;
use std::alloc::Global;

/// Answers a claim in the state after an accepted log, and says the status.
pub(crate) fn put_claim<H: Shelf>(
    alloc: Global,
    w: &World,
    machine: Machine,
    claim: Claim<'_>,
    shelf: &mut H,
    text: &mut Vec<u8>,
) -> Result<Status, Untold>
    requires within { IsWithin machine.state }
    requires mounts { MountsStand (world_of w.now) machine.state }
    ensures report { IfSome (H.held shelf.old) (λ files. (j : Judged) →
        StateGives (task_by claim.entry.kind (query_view claim.entry.query) (bytes_at files claim.entry.file.now))
        (world_of w.now) machine.state j →
        OrNoMemory result (λ status. IsPut (query_answer (task_by claim.entry.kind (query_view claim.entry.query)
        (bytes_at files claim.entry.file.now)) j (world_of w.now) machine.state (query_view claim.entry.query))
        text.old.items text.new.items status)) }
    ensures answers { IfOk result IsLogAnswer }
    ensures not_write_fault { result ≢ Err Untold.WriteFault }
    // The file is read only for a query that stands.
    ensures stands { result ≡ Err Untold.ReadFault
        → StandsIn (query_view claim.entry.query) (world_of w.now) machine.state }
    ensures waits { (StandsIn (query_view claim.entry.query) (world_of w.now) machine.state → ⊥) →
        (n : List ℕ) → H.reads shelf.new n ≡ H.reads shelf.old n }
    ensures files { ReadsFiles (account H.Shelf shelf.old) (account H.Shelf shelf.new)
        ((claim.entry.file.now, limit_of claim.entry.kind) ∷ []) (result ≡ Err Untold.ReadFault) }
{
    let question = match read_question(alloc, w, &machine, claim.query) {
        Ok(question) => question,
        Err(why) => return Ok(put_refusal(text, why)?),
    };
    match read_file(alloc, shelf, claim.file, claim.kind.limit()) {
        Ok(bytes) => Ok(put_claimed(alloc, w, machine, question, claim.kind, &bytes, text)?),
        Err(why) => put_unread(text, why),
    }
}

// The file wasn't read: past its limit a line tells it.
fn put_unread(text: &mut Vec<u8>, why: Unread) -> Result<Status, Untold>
    ensures told { OrNoMemory result (λ status. (limit : Limited) → why ≡ Unread.TooMuch limit →
        IsPut (limit_hit limit) text.old.items text.new.items status) }
    ensures past { IfOk result (λ _. IsTooMuch why) }
    ensures answers { IfOk result IsLogAnswer }
    ensures fault { (result ≡ Err Untold.ReadFault) ↔ (why ≡ Unread.ReadFault) }
    ensures not_write_fault { result ≢ Err Untold.WriteFault }
{
    match why {
        Unread::TooMuch(limit) => {
            put_limit(text, limit)?;
            Ok(Status::Limit)
        }
        Unread::ReadFault => Err(Untold::ReadFault),
        Unread::NoMemory => Err(Untold::NoMemory),
    }
}

// What the bytes of a claim come to.
fn put_claimed(
    alloc: Global,
    w: &World,
    machine: Machine,
    question: Question,
    kind: ClaimKind,
    bytes: &[u8],
    text: &mut Vec<u8>,
) -> Result<Status, NoMemory>
    requires within { IsWithin machine.state }
    requires mounts { MountsStand (world_of w.now) machine.state }
    requires size { length bytes.now ≤ limit_number (limit_of kind) }
    requires asked { (q : Query) × IsQuestion q (world_of w.now) machine.state question }
    ensures report { (q : Query) → IsQuestion q (world_of w.now) machine.state question → (j : Judged) →
        StateGives (task_by kind q bytes.now) (world_of w.now) machine.state j →
        OrNoMemory result (λ status. IsPut (task_report (task_by kind q bytes.now) j (world_of w.now) machine.state
        question.members.items (right_of question.right)) text.old.items text.new.items status) }
    ensures answers { IfOk result IsLogAnswer }
{
    match kind {
        ClaimKind::Certificate => put_check(alloc, w, &machine, &question, bytes, text),
        ClaimKind::Run => put_confirm(alloc, w, machine, question, bytes, text),
    }
}
