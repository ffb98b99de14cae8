// What is blamed.
ghost use Rattle.model_verdict.specs.Blame.{BlameIsWithin, OneBlame, BlamedRules, BeforeAndAfter, BlamedIfMet};

/// The bounds just before are within all bounds that are closed and cover the members.
#[tactic(auto, using(crate::proofs::Blames::blame_is_within))]
pub fn blame_is_within_closed_covering_bounds()
    ensures { BlameIsWithin }
{}

/// Blame is determined: what is blamed, and what the bounds before it hold.
#[tactic(auto, using(crate::proofs::Blames::one_blame))]
pub fn blame_is_determined()
    ensures { OneBlame }
{}

/// There is a blame exactly where the least closed covering bounds meet the right.
#[tactic(auto, using(crate::proofs::Exists::blamed_if_met))]
pub fn blame_is_there_exactly_where_least_bounds_meet()
    ensures { BlamedIfMet }
{}

/// It is enough to look at the bounds before a turn and after it.
#[tactic(auto, using(crate::proofs::Blames::before_and_after))]
pub fn blame_shows_before_and_after_its_turn()
    ensures { BeforeAndAfter }
{}

/// Only rules that add effective ids, groups or permitted capabilities to a standing row are blamed.
#[tactic(auto, using(crate::proofs::BlamedRules::blamed_rules))]
pub fn eight_rules_can_be_blamed()
    ensures { BlamedRules }
{}
