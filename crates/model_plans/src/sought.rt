// The user id that is sought for a capability over a space.
ghost use Rattle.model_plans.specs.Sought.{OwnersAreSought};

/// Above the space of the right it is the owner of the next space on the way down, and elsewhere there is none.
#[tactic(auto, using(crate::proofs::Owners::owners_are_sought))]
pub fn owners_are_sought()
    ensures { OwnersAreSought }
{}
