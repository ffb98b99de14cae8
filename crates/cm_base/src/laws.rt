// The laws of sets of capabilities and of the tables of names. Each function does nothing: its contract is the law,
// which the check proves, and which proofs above cite by its lemmas in proofs/.
ghost use Rattle.cm_base.specs.Laws.{Membership, InclusionByMembers, EqualityByMembers, InclusionOrder, CapSetsKept, NamesReadBack};

/// Which capabilities each set holds, operation by operation.
#[tactic(auto, using(crate::proofs::CapSets::membership))]
pub fn membership()
    ensures { Membership }
{}

/// A set is within another exactly where each member of the first is a member of the second.
#[tactic(auto, using(crate::proofs::CapSets::within_by_members))]
pub fn inclusion_by_members()
    ensures { InclusionByMembers }
{}

/// Two words with the same members are one.
#[tactic(auto, using(crate::proofs::CapSets::same_members))]
pub fn equality_by_members()
    ensures { EqualityByMembers }
{}

/// Inclusion is an order from the set of none to the set of all; meet and union are the bounds of two sets in it.
#[tactic(auto, using(crate::proofs::CapSets::inclusion_order))]
pub fn inclusion_order()
    ensures { InclusionOrder }
{}

/// The operations give sets of capabilities.
#[tactic(auto, using(crate::proofs::CapSets::cap_sets_kept))]
pub fn cap_sets_kept()
    ensures { CapSetsKept }
{}

/// The name of a capability or of an error, read back, gives that capability or error: no name stands for two.
#[tactic(auto, using(crate::proofs::Tables::names_read_back))]
pub fn names_read_back()
    ensures { NamesReadBack }
{}
