// Rows by what they hold.
ghost use Rattle.model_verdict.specs.Rows.{OneMeaningOneList, LeastRowsAreOne, RowsSayEachTest};

/// Two lists of as many rows that hold the same are one list.
#[tactic(auto, using(crate::proofs::RowMeanings::one_meaning_one_list))]
pub fn rows_of_one_meaning_are_one_list()
    ensures { OneMeaningOneList }
{}

/// The least bounds have one way to be told in rows, however they were found.
#[tactic(auto, using(crate::proofs::RowMeanings::least_rows_are_one))]
pub fn least_rows_are_one_list()
    ensures { LeastRowsAreOne }
{}

/// There are rows that say what a test says, where that is in rows of standing spaces, and below the limit of each part.
#[tactic(auto, using(crate::proofs::RowsOf::rows_say_each_test))]
pub fn rows_say_each_low_test()
    ensures { RowsSayEachTest }
{}
