// What is found, and by which plan.
ghost use Rattle.model_plans.specs.Firsts.{NoHolder, FamilyAscends, HolderIsLeast, NothingFound, FoundIsFirst};
ghost use Rattle.model_plans.specs.Firsts.{FoundIsLater, MoverDecides, WalkFindsTheSame};

/// There is no holder exactly where no member holds the right.
#[tactic(auto, using(crate::proofs::Holders::no_holder))]
pub fn no_holder()
    ensures { NoHolder }
{}

/// The pids of a family ascend.
#[tactic(auto, using(crate::proofs::Holders::family_ascends))]
pub fn family_ascends()
    ensures { FamilyAscends }
{}

/// Where members ascend, the holder is the least member that holds the right.
#[tactic(auto, using(crate::proofs::Holders::holder_is_least))]
pub fn holder_is_least()
    ensures { HolderIsLeast }
{}

/// Nothing is found exactly where no plan of the list ends with a member that holds the right.
#[tactic(auto, using(crate::proofs::Finds::nothing_found))]
pub fn nothing_found()
    ensures { NothingFound }
{}

/// What is found is the run of the first plan of the list that ends so, and the member that then holds the right.
#[tactic(auto, using(crate::proofs::Finds::found_is_first))]
pub fn found_is_first()
    ensures { FoundIsFirst }
{}

/// What is found is a later run of the members after which the holder has the right.
#[tactic(auto, using(crate::proofs::Finds::found_is_later))]
pub fn found_is_later()
    ensures { FoundIsLater }
{}

/// Where no member held the right, after a plan only the one who moved needs to be looked at.
#[tactic(auto, using(crate::proofs::Holders::mover_decides))]
pub fn mover_decides()
    ensures { MoverDecides }
{}

/// The walk on seats, member by member and choice by choice, finds what the list of plans does.
#[tactic(auto, using(crate::proofs::Nested::walk_finds_the_same))]
pub fn walk_finds_the_same()
    ensures { WalkFindsTheSame }
{}
