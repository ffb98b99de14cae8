// What a run comes to, and why.
ghost use Rattle.model_confirm.specs.Laws.{ConfirmsLaterRuns, RefusesLines, RefusesEnds, StopsAtLimits, OthersEndWithout};

/// A run is confirmed, with its holder, exactly where it is a later run within the limits, read to its end, and that is then
/// the least member that holds the right.
#[tactic(auto, using(crate::proofs::Confirms::confirms_later_runs))]
pub fn confirmed_is_a_later_run()
    ensures { ConfirmsLaterRuns }
{}

/// A line is refused exactly where it has a fault, or its event is no member's, of an excluded kind, or no step; what stands
/// before it is a later run within the limits.
#[tactic(auto, using(crate::proofs::Confirms::refuses_lines))]
pub fn refused_line_has_a_fault_or_is_no_members_step()
    ensures { RefusesLines }
{}

/// The end is refused exactly where the whole is a later run within the limits, and no member holds the right at its end.
#[tactic(auto, using(crate::proofs::Confirms::refuses_ends))]
pub fn refused_end_has_no_holder()
    ensures { RefusesEnds }
{}

/// A limit is exceeded exactly where a line exceeds it, or an event is a step to a state that does.
#[tactic(auto, using(crate::proofs::Confirms::stops_at_limits))]
pub fn past_limit_by_a_line_or_a_step()
    ensures { StopsAtLimits }
{}

/// A run that isn't confirmed is no later run within the limits that ends with a holder.
#[tactic(auto, using(crate::proofs::Confirms::others_end_without))]
pub fn refused_runs_end_with_no_holder()
    ensures { OthersEndWithout }
{}
