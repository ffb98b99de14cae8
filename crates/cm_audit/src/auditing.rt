// The audit: the list of plans is tried first, then the least bounds, and then what is blamed.
ghost use Rattle.std.specs.Prelude.{◌≡◌, ◌↔◌, ℕ, ◌<◌, ◌≤◌, ◌^◌, false, true, IsTrue, Err, None, length, IfOk};
ghost use Rattle.cm_audit.specs.Told.{told, IsVerdictOn};
ghost use Rattle.cm_audit.specs.Says.{is_yes, is_no, is_undecided, YesIsLeast, NoIsFirst, UndecidedIsBlamed, UndecidedIsBelow};
ghost use Rattle.cm_base.specs.Limited.{limit_number};
ghost use Rattle.cm_base.specs.Outcome.{OrNoMemory};
ghost use Rattle.model_run.specs.Never.{MountsStand, NeverHeld};
ghost use Rattle.cm_state.specs.Right.{right_of};
ghost use Rattle.cm_declared.specs.World.{world_of};
ghost use Rattle.cm_filter.specs.Filters.{permits};
ghost use Rattle.cm_maker.specs.Bounded.{IsBounded, IsWritten};
ghost use Rattle.model_box.specs.Meets.{IsOverStanding};
ghost use Rattle.model_cred.specs.Process.{is_alive};
ghost use Rattle.model_plans.specs.Firsts.{PidsAscend};
ghost use Rattle.model_plans.specs.PlanRun.{first_found};
ghost use Rattle.model_run.specs.Family.{family};
ghost use Rattle.model_run.specs.Own.{common_filter};
ghost use Rattle.model_verdict.specs.InWorld.{ExcludedIn, FoundIn, OpenIn, SettledIn};

use crate::{AuditRefusal, Question, Verdict};
use cm_base::{Limited, NoMemory, Pid};
use cm_declared::World;
use cm_files::see_files;
use cm_machine::Machine;
use cm_maker::{Bounded, decide};
use cm_plans::first_found;
use cm_state::{Right, Spaces, see_state};
use std::alloc::Global;

/// The verdict on a right of the family of a process: by calls that the world's filter and their own permit, can a
/// member, or any process that the members start, ever hold it?
///
/// Refused, in this order: `NoProcess` where the root isn't alive, `NoSpace` where the space that the right names doesn't
/// stand, `FamilyTooLarge` where the family has more members than the limit; and `NoMemory`. Fewer than 2^31 spaces
/// stand, and those of the mounts do.
pub fn audit(
    alloc: Global,
    w: &World,
    m: &Machine,
    root: Pid,
    right: &Right,
) -> Result<Verdict, AuditRefusal>
    requires few { length m.now.state.spaces < 2 ^ 31 }
    requires mounts { MountsStand (world_of w.now) m.now.state }

    // It is the verdict of the definitions, and its bounds have two rows of each space.
    ensures verdict { IfOk result (λ v.
        IsVerdictOn (world_of w.now) m.now.state (family m.now.state root) (right_of right.now) (told v)) }

    // Yes: after no later list of calls, of any length and in whatever order the members make them, does a member hold the
    // right. It is yes exactly where some bounds that are closed and cover the family exclude the right; it tells the least.
    ensures never_held { IfOk result (λ v. IsTrue (is_yes (told v)) →
        NeverHeld (world_of w.now) m.now.state (family m.now.state root) (right_of right.now)) }
    ensures yes { IfOk result (λ v. IsTrue (is_yes (told v)) ↔
        ExcludedIn (world_of w.now) m.now.state (family m.now.state root) (right_of right.now)) }
    ensures least { IfOk result (λ v. YesIsLeast (world_of w.now) m.now.state (family m.now.state root) (told v)) }

    // No: it is no exactly where some plan of the list ends with a holder; it tells the first such run, a later run, and
    // the least holder.
    ensures no { IfOk result (λ v. IsTrue (is_no (told v)) ↔
        FoundIn (world_of w.now) m.now.state (family m.now.state root) (right_of right.now)) }
    ensures run { IfOk result (λ v.
        NoIsFirst (world_of w.now) m.now.state (family m.now.state root) (right_of right.now) (told v)) }

    // Undecided: exactly where neither is so, never for a settled family; it tells what is blamed. The bounds below that are
    // within all closed covering bounds, and what is blamed brings the right into them.
    ensures undecided { IfOk result (λ v. IsTrue (is_undecided (told v)) ↔
        OpenIn (world_of w.now) m.now.state (family m.now.state root) (right_of right.now)) }
    ensures settled { IfOk result (λ v. SettledIn (world_of w.now) m.now.state (family m.now.state root) →
        is_undecided (told v) ≡ false) }
    ensures blame { IfOk result (λ v.
        UndecidedIsBlamed (world_of w.now) m.now.state (family m.now.state root) (right_of right.now) (told v)) }
    ensures below { IfOk result (λ v.
        UndecidedIsBelow (world_of w.now) m.now.state (family m.now.state root) (right_of right.now) (told v)) }

    // The refusals.
    ensures no_process { (result ≡ Err AuditRefusal.NoProcess) ↔ (is_alive m.now.state.processes root ≡ false) }
    ensures no_space { (result ≡ Err AuditRefusal.NoSpace) ↔
        ((is_alive m.now.state.processes root ≡ true) × (IsOverStanding m.now.state.spaces (right_of right.now) → ⊥)) }
    ensures too_large { (n : ℕ) → result ≡ Err (AuditRefusal.FamilyTooLarge n) →
        (n ≡ length (family m.now.state root)) × (limit_number Limited.Family < n)
        × (is_alive m.now.state.processes root ≡ true) × IsOverStanding m.now.state.spaces (right_of right.now) }
    ensures fits { IfOk result (λ _. length (family m.now.state root) ≤ limit_number Limited.Family) }
{
    see_state(&m.state);
    see_files(&w.files);
    let question = ask(alloc, m, root, *right)?;
    Ok(judge(alloc, w, m, &question)?)
}

/// The question whether a member of the family of a process, or any process that the members start, can ever hold a
/// right. It is what the verdict, a certificate and a run are of.
///
/// Refused, in this order: `NoProcess` where the root isn't alive, `NoSpace` where the space that the right names doesn't
/// stand, `FamilyTooLarge` where the family has more members than the limit; and `NoMemory`.
pub fn ask(alloc: Global, m: &Machine, root: Pid, right: Right) -> Result<Question, AuditRefusal>
    ensures right { IfOk result (λ question. question.right ≡ right) }
    ensures members { IfOk result (λ question. question.members.items ≡ family m.now.state root) }
    ensures ascends { IfOk result (λ question. PidsAscend question.members.items) }
    ensures alive { IfOk result (λ _. is_alive m.now.state.processes root ≡ true) }
    ensures stands { IfOk result (λ _. IsOverStanding m.now.state.spaces (right_of right)) }
    ensures fits { IfOk result (λ _. length (family m.now.state root) ≤ limit_number Limited.Family) }
    ensures no_process { (result ≡ Err AuditRefusal.NoProcess) ↔ (is_alive m.now.state.processes root ≡ false) }
    ensures no_space { (result ≡ Err AuditRefusal.NoSpace) ↔
        ((is_alive m.now.state.processes root ≡ true) × (IsOverStanding m.now.state.spaces (right_of right) → ⊥)) }
    ensures too_large { (n : ℕ) → result ≡ Err (AuditRefusal.FamilyTooLarge n) →
        (n ≡ length (family m.now.state root)) × (limit_number Limited.Family < n)
        × (is_alive m.now.state.processes root ≡ true) × IsOverStanding m.now.state.spaces (right_of right) }
{
    let st = &m.state;
    see_state(st);
    match st.procs.find(root) {
        Some(_) => {}
        None => return Err(AuditRefusal::NoProcess),
    }
    if !is_over_standing(&st.spaces, &right) {
        return Err(AuditRefusal::NoSpace);
    }
    let members = m.family(alloc, root)?;
    if members.len() as u64 > Limited::Family.number() {
        return Err(AuditRefusal::FamilyTooLarge(members.len()));
    }
    Ok(Question { right, members })
}

/// The space that the right names, where it names one, stands. It takes no memory.
pub fn is_over_standing(spaces: &Spaces, right: &Right) -> bool
    ensures yes { result ≡ true → IsOverStanding spaces.now (right_of right.now) }
    ensures no { result ≡ false → IsOverStanding spaces.now (right_of right.now) → ⊥ }
{
    match right {
        Right::Cap(_, n) => n.0 < spaces.count(),
        Right::Uid(_) => true,
        Right::Gid(_) => true,
    }
}

/// The verdict on a question, which was asked in the machine's state: its right names a space that stands, where it names
/// one. Fewer than 2^31 spaces stand. It fails only where memory runs out.
pub fn judge(
    alloc: Global,
    w: &World,
    m: &Machine,
    question: &Question,
) -> Result<Verdict, NoMemory>
    requires few { length m.now.state.spaces < 2 ^ 31 }
    requires named { IsOverStanding m.now.state.spaces (right_of question.now.right) }
    ensures { OrNoMemory result (λ v. IsVerdictOn (world_of w.now) m.now.state question.now.members.items
        (right_of question.now.right) (told v)) }
{
    let Question { right, members } = question;
    match first_found(alloc, w, m, members, right)? {
        Some(found) => Ok(Verdict::No {
            run: found.run,
            holder: found.holder,
        }),
        None => bounded(alloc, w, m, members, right),
    }
}

// The verdict where no plan ends with a holder.
fn bounded(
    alloc: Global,
    w: &World,
    m: &Machine,
    members: &[Pid],
    right: &Right,
) -> Result<Verdict, NoMemory>
    requires few { length m.now.state.spaces < 2 ^ 31 }
    requires named { IsOverStanding m.now.state.spaces (right_of right.now) }
    ensures { OrNoMemory result (λ v.
        first_found (permits w.now.filter) (world_of w.now) m.now.state members.now (right_of right.now) ≡ None →
        IsVerdictOn (world_of w.now) m.now.state members.now (right_of right.now) (told v)) }
{
    match decide_in_common(alloc, w, m, members, right)? {
        Bounded::Excludes(b) => Ok(Verdict::Yes(b)),
        Bounded::Blames(x) => Ok(Verdict::Undecided {
            rule: x.rule,
            row: x.row,
            below: x.below,
        }),
    }
}

// What bounds say of the right, by the filter that is common to the world and the members.
fn decide_in_common(
    alloc: Global,
    w: &World,
    m: &Machine,
    members: &[Pid],
    right: &Right,
) -> Result<Bounded, NoMemory>
    requires few { length m.now.state.spaces < 2 ^ 31 }
    requires named { IsOverStanding m.now.state.spaces (right_of right.now) }
    ensures decided { OrNoMemory result (IsBounded (permits (common_filter (world_of w.now) m.now.state members.now))
        w.now.files m.now.state members.now (right_of right.now)) }
    ensures written { OrNoMemory result (IsWritten m.now.state.spaces) }
{
    decide(
        alloc,
        &m.state,
        &w.files,
        m.common(w, members),
        members,
        right,
    )
}
