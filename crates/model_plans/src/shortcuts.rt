// What a walk may share, and what it may leave out.
ghost use Rattle.model_plans.specs.Shortcuts.{FirstMovesAreShared, FirstChoicesTriedBefore, MiddleChoicesTriedBefore};
ghost use Rattle.model_plans.specs.Shortcuts.{MembersTriedBefore, MembersSeatsDecide};

/// Moves after others go on from where those end.
#[tactic(auto, using(crate::proofs::Shared::first_moves_are_shared))]
pub fn first_moves_are_shared()
    ensures { FirstMovesAreShared }
{}

/// A first choice that leaves the seat where an earlier one left it may be skipped.
#[tactic(auto, using(crate::proofs::Skips::first_choices_tried_before))]
pub fn first_choices_tried_before()
    ensures { FirstChoicesTriedBefore }
{}

/// So may a middle choice.
#[tactic(auto, using(crate::proofs::Skips::middle_choices_tried_before))]
pub fn middle_choices_tried_before()
    ensures { MiddleChoicesTriedBefore }
{}

/// So may a member that is like an earlier one.
#[tactic(auto, using(crate::proofs::Skips::members_tried_before))]
pub fn members_tried_before()
    ensures { MembersTriedBefore }
{}

/// What is found depends on the spaces and on the members' own seats alone.
#[tactic(auto, using(crate::proofs::Isolated::members_seats_decide))]
pub fn members_seats_decide()
    ensures { MembersSeatsDecide }
{}
