// The law of the two ways to find the least bounds. The function does nothing: its contract is the law.
ghost use Rattle.cm_maker.specs.Bodies.{BothGiveOneList};

/// `least` and `least_by_rounds` give one list of rows: both tell that theirs are the least bounds, each set written in the
/// one way.
#[tactic(auto, using(crate::proofs::OneList::both_give_one_list))]
pub fn both_give_one_list()
    ensures { BothGiveOneList }
{}
