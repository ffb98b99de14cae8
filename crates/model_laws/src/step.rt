// The laws of one step.
ghost use Rattle.model_laws.specs.Steps.{OneNextState, ErrorChangesNothing, StepsMakeSpaces};

/// An event leads to at most one next state.
#[tactic(auto, using(crate::proofs::Refusals::one_next_state))]
pub fn one_next_state()
    ensures { OneNextState }
{}

/// A step whose result is an error changes nothing.
#[tactic(auto, using(crate::proofs::Refusals::error_changes_nothing))]
pub fn error_changes_nothing()
    ensures { ErrorChangesNothing }
{}

/// A step makes the user namespace that its event tells of as made, an unshare that is done or a birth into a new one, and no
/// other; and none goes.
#[tactic(auto, using(crate::proofs::MadeSpaces::steps_make_spaces))]
pub fn step_makes_spaces()
    ensures { StepsMakeSpaces }
{}
