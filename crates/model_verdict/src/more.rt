// A family with more members.
ghost use Rattle.model_verdict.specs.More.{MoreFind, MoreNeedMore};

/// What plans find is found with more members too.
#[tactic(auto, using(crate::proofs::Mores::more_find))]
pub fn more_members_find_as_much()
    ensures { MoreFind }
{}

/// The least bounds of more members are no smaller.
#[tactic(auto, using(crate::proofs::Mores::more_need_more))]
pub fn more_members_need_no_smaller_bounds()
    ensures { MoreNeedMore }
{}
