// The least bounds.
ghost use Rattle.model_verdict.specs.Least.{LeastExist, OneLeast, LeastMeetIfAllDo, LeastWithinLists};

/// There are least bounds, of each state.
#[tactic(auto, using(crate::proofs::Exists::least_exist))]
pub fn least_bounds_exist()
    ensures { LeastExist }
{}

/// Two least bounds are one.
#[tactic(auto, using(crate::proofs::Leasts::one_least))]
pub fn least_bounds_are_one()
    ensures { OneLeast }
{}

/// The least bounds meet a right exactly where all closed covering bounds do.
#[tactic(auto, using(crate::proofs::Leasts::least_meet))]
pub fn least_bounds_meet_if_all_do()
    ensures { LeastMeetIfAllDo }
{}

/// The least bounds are within each list of rows that is closed and covers the members.
#[tactic(auto, using(crate::proofs::Leasts::least_within_lists))]
pub fn least_bounds_are_within_lists()
    ensures { LeastWithinLists }
{}
