// What an audit is asked, and what it answers.
use cm_base::{NoMemory, Pid};
use cm_box::{Bounds, Rule};
use cm_state::{Event, Right};

/// What a verdict is on: a right, and the members of a family, in ascending order.
#[derive(Debug, Drop)]
pub struct Question {
    pub right: Right,
    pub members: Vec<Pid>,
}

/// The verdict on a right of a family.
#[derive(Debug, Drop)]
pub enum Verdict {
    /// No member ever holds the right: these, the least bounds that are closed and cover the family, exclude it.
    Yes(Bounds),
    /// After this run, the first of the list of plans that ends so, a member holds the right; the holder is the least.
    No {
        run: Vec<Event>,
        holder: Pid,
    },
    /// Neither: all closed covering bounds meet the right, and no plan ends with a holder. It comes into the bounds by the
    /// rule at the row (rows by number: space n has row 2n, and row 2n + 1 for members in later spaces below it); without a
    /// rule the start bounds meet it, by that row first. `below` are the bounds just before.
    Undecided {
        rule: Option<Rule>,
        row: u32,
        below: Bounds,
    },
}

/// Why there is no question, and so no verdict.
#[derive(Clone, Copy, Debug, PartialEq, Eq)]
pub enum AuditRefusal {
    /// The root isn't alive.
    NoProcess,
    /// The space that the right names doesn't stand.
    NoSpace,
    /// The family has so many members, more than the limit.
    FamilyTooLarge(usize),
    /// There was no memory.
    NoMemory,
}

impl From<NoMemory> for AuditRefusal {
    ghost use Rattle.std.specs.Prelude.{◌≡◌};
    ghost use Rattle.cm_audit.specs.declared.verdict.AuditRefusal.{AuditRefusal};

    ghost from_gives = { λ _ e. e ≡ AuditRefusal.NoMemory };

    fn from(_: NoMemory) -> AuditRefusal {
        AuditRefusal::NoMemory
    }
}
