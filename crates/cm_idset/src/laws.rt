// The law of lists of intervals. The function does nothing: its contract is the law, which proofs above cite by its lemma
// in proofs/.
ghost use Rattle.cm_idset.specs.Laws.{OneMeaningOneList};

/// Two canonical lists of intervals that hold the same ids are one list: so are the intervals of two sets.
#[tactic(auto, using(crate::proofs::Meanings::one_meaning_one_list))]
pub fn one_meaning_one_list()
    ensures { OneMeaningOneList }
{}
