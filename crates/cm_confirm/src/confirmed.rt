// What a run comes to.
use cm_base::{Limited, Pid};

/// What the lines of a run come to.
#[derive(Clone, Copy, Debug, PartialEq, Eq)]
pub enum Confirmed {
    /// It is a later run, and this is the least of the members that hold the right at its end.
    Confirms(Pid),
    /// The line of that number has a fault, or its event is no member's, is excluded by the world's filter or the
    /// caller's own, or is no step.
    RefusesLine(u64),
    /// No member holds the right at its end.
    RefusesEnd,
    /// A line exceeds this limit, or an event is a step to a state that does.
    PastLimit(Limited),
}
