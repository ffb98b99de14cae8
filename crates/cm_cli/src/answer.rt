// The answer to what is asked after an accepted log: why the query is refused, the verdict, or what comes of a claim.
ghost use Rattle.std.specs.Prelude.{◌≡◌, ◌≢◌, ℕ, List, Err, IfOk, IfSome};
ghost use Rattle.cm_audit.specs.Told.{told};
ghost use Rattle.cm_base.specs.Outcome.{OrNoMemory};
ghost use Rattle.cm_cli.specs.Claims.{ClaimStands, IsLogAnswer};
ghost use Rattle.cm_cli.specs.LogReport.{IsPut};
ghost use Rattle.cm_cli.specs.Query.{file_of, query_view, task_view};
ghost use Rattle.cm_cli.specs.Reading.{ReadsFiles};
ghost use Rattle.cm_declared.specs.World.{world_of};
ghost use Rattle.cm_io.specs.Account.{account};
ghost use Rattle.cm_io.specs.Shelf.{bytes_at};
ghost use Rattle.model_report.specs.Answer.{answer, query_answer, verdict_report};
ghost use Rattle.model_report.specs.Given.{StateGives};
ghost use Rattle.model_report.specs.Judged.{Judged};
ghost use Rattle.model_report.specs.Replay.{IsWithin};
ghost use Rattle.model_report.specs.Task.{ToJudge};
ghost use Rattle.model_run.specs.Never.{MountsStand};

use crate::answers::{put_certificate, put_run, put_undecided, put_yes};
use crate::asking::{put_refusal, read_question};
use crate::claims::put_claim;
use crate::query::{Query, Task};
use cm_audit::{Verdict, judge};
use cm_base::{NoMemory, Status};
use cm_declared::World;
use cm_io::Shelf;
use cm_machine::Machine;
use cm_replay::Untold;
use cm_state::Spaces;
use std::alloc::Global;

/// Answers what is asked after an accepted log, and says the status of the whole: with whatever is judged so in the
/// state.
pub(crate) fn put_answer<H: Shelf>(
    alloc: Global,
    w: &World,
    machine: Machine,
    task: Task<'_>,
    shelf: &mut H,
    text: &mut Vec<u8>,
) -> Result<Status, Untold>
    requires within { IsWithin machine.state }
    requires mounts { MountsStand (world_of w.now) machine.state }
    ensures report { IfSome (H.held shelf.old) (λ files. (j : Judged) →
        StateGives (task_view task.entry (bytes_at files)) (world_of w.now) machine.state j →
        IfOk result (λ status. IsPut (answer (task_view task.entry (bytes_at files)) j (world_of w.now) machine.state)
        text.old.items text.new.items status)) }
    ensures answers { IfOk result IsLogAnswer }
    ensures not_write_fault { result ≢ Err Untold.WriteFault }
    // The file of a claim is read only where its query stands.
    ensures stands { result ≡ Err Untold.ReadFault → ClaimStands task.entry (world_of w.now) machine.state }
    ensures waits { (ClaimStands task.entry (world_of w.now) machine.state → ⊥) → (n : List ℕ)
        → H.reads shelf.new n ≡ H.reads shelf.old n }
    ensures files { ReadsFiles (account H.Shelf shelf.old) (account H.Shelf shelf.new) (file_of task.entry)
        (result ≡ Err Untold.ReadFault) }
{
    match task {
        Task::Nothing => Ok(Status::Accepted),
        Task::Judge(query) => Ok(put_verdict(alloc, w, &machine, query, text)?),
        Task::Claims(claim) => put_claim(alloc, w, machine, claim, shelf, text),
    }
}

// Answers an audit.
fn put_verdict(
    alloc: Global,
    w: &World,
    m: &Machine,
    query: Query<'_>,
    text: &mut Vec<u8>,
) -> Result<Status, NoMemory>
    requires within { IsWithin m.now.state }
    requires mounts { MountsStand (world_of w.now) m.now.state }
    ensures report { (j : Judged) → StateGives (ToJudge (query_view query.entry)) (world_of w.now) m.now.state j →
        OrNoMemory result (λ status. IsPut
        (query_answer (ToJudge (query_view query.entry)) j (world_of w.now) m.now.state
        (query_view query.entry)) text.old.items text.new.items status) }
    ensures answers { IfOk result IsLogAnswer }
{
    let question = match read_question(alloc, w, m, query) {
        Ok(question) => question,
        Err(why) => return put_refusal(text, why),
    };
    let verdict = judge(alloc, w, m, &question)?;
    put_told(alloc, text, w, &m.state.spaces, &verdict)
}

// What a verdict says, and its status.
fn put_told(
    alloc: Global,
    text: &mut Vec<u8>,
    w: &World,
    spaces: &Spaces,
    verdict: &Verdict,
) -> Result<Status, NoMemory>
    ensures report { OrNoMemory result (λ status. IsPut (verdict_report (world_of w.now) spaces.now (told verdict.now))
        text.old.items text.new.items status) }
    ensures answers { IfOk result IsLogAnswer }
{
    match verdict {
        Verdict::Yes(bounds) => {
            put_yes(alloc, text, bounds)?;
            Ok(Status::Accepted)
        }
        Verdict::No { run, holder } => {
            put_run(text, w, *holder, run)?;
            Ok(Status::No)
        }
        Verdict::Undecided { rule, row, below } => {
            put_undecided(text, &w.names, spaces, *rule, *row)?;
            put_certificate(alloc, text, below)?;
            Ok(Status::Undecided)
        }
    }
}
