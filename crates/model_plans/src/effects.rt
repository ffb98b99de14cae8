// What single moves do where nothing is in their way.
ghost use Rattle.model_plans.specs.Effects.{RaisesAreDone, BecomesAreDone};

/// A raise is never refused.
#[tactic(auto, using(crate::proofs::Raises::raises_are_done))]
pub fn raises_are_done()
    ensures { RaisesAreDone }
{}

/// Who may make an id its effective one has it after the move.
#[tactic(auto, using(crate::proofs::Becomes::becomes_are_done))]
pub fn becomes_are_done()
    ensures { BecomesAreDone }
{}
