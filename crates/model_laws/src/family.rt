// The laws of families, and of members in later runs.
ghost use Rattle.model_laws.specs.Families.{FamilyIsComputed, StepKeepsChains, MembersAreFamily, CallersAreMembers};
ghost use Rattle.model_laws.specs.Families.{ChildrenAreMembers, OthersStay, OthersStayWhole, StrangersStay};

/// The relation of a family and the function that computes it agree.
#[tactic(auto, using(crate::proofs::Reaching::family_is_computed))]
pub fn family_is_computed()
    ensures { FamilyIsComputed }
{}

/// Each step keeps that chains of forebears end.
#[tactic(auto, using(crate::proofs::Members::step_keeps_chains))]
pub fn step_keeps_chains()
    ensures { StepKeepsChains }
{}

/// The members are the family of the root as long as it lives.
#[tactic(auto, using(crate::proofs::Members::members_are_family))]
pub fn members_are_family()
    ensures { MembersAreFamily }
{}

/// Every caller is a member when it calls.
#[tactic(auto, using(crate::proofs::Members::callers_are_members))]
pub fn callers_are_members()
    ensures { CallersAreMembers }
{}

/// The child of a birth is a member from then on.
#[tactic(auto, using(crate::proofs::Members::children_are_members))]
pub fn children_are_members()
    ensures { ChildrenAreMembers }
{}

/// Whoever isn't a member keeps its space and its credential, and doesn't become one.
#[tactic(auto, using(crate::proofs::Members::others_stay))]
pub fn others_stay()
    ensures { OthersStay }
{}

/// Whoever isn't a member and has no member as its forebear stays as it is.
#[tactic(auto, using(crate::proofs::Members::others_stay_whole))]
pub fn others_stay_whole()
    ensures { OthersStayWhole }
{}

/// Whoever isn't of the family stays as it is.
#[tactic(auto, using(crate::proofs::Members::strangers_stay))]
pub fn strangers_stay()
    ensures { StrangersStay }
{}
