// The laws of certificates. Each function does nothing: its contract is the law, which the check proves.
ghost use Rattle.model_cert.specs.Laws.{RoundTrip, LineRoundTrip, OneTextOneBounds, TwoRowsASpace};

/// The text that is written for bounds stands for them.
#[tactic(auto, using(crate::proofs::Stated::round_trip))]
pub fn the_text_of_bounds_stands_for_them()
    ensures { RoundTrip }
{}

/// So does that text with an LF after it.
#[tactic(auto, using(crate::proofs::Stated::line_round_trip))]
pub fn the_line_of_bounds_stands_for_them()
    ensures { LineRoundTrip }
{}

/// Two bounds have two texts.
#[tactic(auto, using(crate::proofs::Stated::one_text_one_bounds))]
pub fn two_bounds_have_two_texts()
    ensures { OneTextOneBounds }
{}

/// What a text stands for has two rows for each space.
#[tactic(auto, using(crate::proofs::Counts::two_rows_a_space))]
pub fn accepted_texts_have_two_rows_a_space()
    ensures { TwoRowsASpace }
{}
