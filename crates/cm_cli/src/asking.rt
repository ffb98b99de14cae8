// What a query asks about, in the state after an accepted log: the process, the right, and the members of its family.
ghost use Rattle.std.specs.Prelude.{◌≡◌, IfSome, IfNone, IfOk, IfErr, IsSomeAnd, None, length};
ghost use Rattle.cm_base.specs.Outcome.{OrNoMemory};
ghost use Rattle.cm_cli.specs.Asking.{AsksOf, IsQuestion, refusal_report, Refuses};
ghost use Rattle.cm_cli.specs.Claims.{IsLogAnswer};
ghost use Rattle.cm_cli.specs.LogReport.{IsPut};
ghost use Rattle.cm_cli.specs.Query.{query_view};
ghost use Rattle.cm_declared.specs.World.{world_of};
ghost use Rattle.model_report.specs.Query.{asked_process};

use crate::answers::put_bad_query;
use crate::query::{Query, read_right};
use cm_audit::{AuditRefusal, Question, ask};
use cm_base::{Limited, NoMemory, Pid, Status};
use cm_declared::World;
use cm_machine::Machine;
use cm_report::put_limit;
use cm_script::read_pid;
use cm_state::{Right, State};
use std::alloc::Global;

/// Why there is no question: the query's right is none; or it is refused as an audit is, where its pid is that of no live
/// process, the right's space doesn't stand, or the family is too large; or there was no memory.
#[derive(Clone, Copy, Debug, PartialEq, Eq)]
pub(crate) enum Unasked {
    Right,
    Refused(AuditRefusal),
}

impl From<AuditRefusal> for Unasked {
    ghost use Rattle.cm_cli.specs.declared.asking.Unasked.{Unasked};

    ghost from_gives = { λ why e. e ≡ Unasked.Refused why };

    fn from(why: AuditRefusal) -> Unasked {
        Unasked::Refused(why)
    }
}

/// The right that a query asks about, and the members of the family of its process.
pub(crate) fn read_question(
    alloc: Global,
    w: &World,
    m: &Machine,
    query: Query<'_>,
) -> Result<Question, Unasked>
    ensures asked { IfOk result (λ question. IsQuestion (query_view query.entry)
        (world_of w.now) m.now.state question) }
    ensures refused { IfErr result (λ why. Refuses (query_view query.entry) (world_of w.now) m.now.state why) }
{
    let (root, right) = read_query(w, &m.state, query)?;
    Ok(ask(alloc, m, root, right)?)
}

// The live process and the right that a query names.
fn read_query(w: &World, st: &State, query: Query<'_>) -> Result<(Pid, Right), Unasked>
    ensures asked { IfOk result (λ asked. AsksOf (query_view query.entry) (world_of w.now) st.now asked.0 asked.1) }
    ensures refused { IfErr result (λ why. Refuses (query_view query.entry) (world_of w.now) st.now why) }
{
    let Some(root) = asked_pid(st, query.pid.as_bytes()) else {
        return Err(Unasked::Refused(AuditRefusal::NoProcess));
    };
    let Some(right) = read_right(&w.names, query.right.as_bytes()) else {
        return Err(Unasked::Right);
    };
    Ok((root, right))
}

// The pid that the text is, where it is that of a live process.
#[tactic(auto, using(crate::proofs::Auditing::found_named))]
fn asked_pid(state: &State, text: &[u8]) -> Option<Pid>
    ensures found { IfSome result (λ pid. IsSomeAnd (asked_process state.now text.now) (λ p. p.pid ≡ pid)) }
    ensures none { IfNone result (asked_process state.now text.now ≡ None) }
{
    let pid = read_pid(text)?;
    match state.procs.find(pid) {
        Some(_) => Some(pid),
        None => None,
    }
}

/// The line that says why a query is refused. It says the status, unless there was no memory.
pub(crate) fn put_refusal(text: &mut Vec<u8>, why: Unasked) -> Result<Status, NoMemory>
    ensures report { OrNoMemory result (λ status.
        IsSomeAnd (refusal_report why) (λ report. IsPut report text.old.items text.new.items status)) }
    ensures answers { IfOk result IsLogAnswer }
{
    match why {
        Unasked::Right => put_bad_query(text, b"right"),
        Unasked::Refused(AuditRefusal::NoProcess) => put_bad_query(text, b"pid"),
        Unasked::Refused(AuditRefusal::NoSpace) => put_bad_query(text, b"space"),
        Unasked::Refused(AuditRefusal::FamilyTooLarge(_)) => {
            put_limit(text, Limited::Family)?;
            Ok(Status::Limit)
        }
        Unasked::Refused(AuditRefusal::NoMemory) => Err(NoMemory),
    }
}
