// What plans change.
ghost use Rattle.model_plans.specs.Changes.{CallsOfMoves, WalkIsRun, MovesLeaveOthers, RunsAreLater, FirstMovesStay};

/// The call of a move changes its caller alone, and is of a kind that is permitted.
#[tactic(auto, using(crate::proofs::Calls::calls_of_moves))]
pub fn moves_change_their_caller_alone()
    ensures { CallsOfMoves }
{}

/// The walk on a seat has the events of the machine's run, and ends where that leaves the member.
#[tactic(auto, using(crate::proofs::Walks::walk_is_run))]
pub fn walk_is_run()
    ensures { WalkIsRun }
{}

/// A plan leaves the spaces, all other processes, and all families.
#[tactic(auto, using(crate::proofs::Others::moves_leave_others))]
pub fn moves_leave_others()
    ensures { MovesLeaveOthers }
{}

/// The run of each plan is a later run of the members, who are the same after it.
#[tactic(auto, using(crate::proofs::Laters::runs_are_later))]
pub fn runs_are_later()
    ensures { RunsAreLater }
{}

/// The first moves of a plan leave the member in its space.
#[tactic(auto, using(crate::proofs::Skips::first_moves_stay))]
pub fn first_moves_stay()
    ensures { FirstMovesStay }
{}
