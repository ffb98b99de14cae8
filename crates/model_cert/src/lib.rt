//! Definitions: the one text of bounds, what a text stands for, and their laws. No code but functions that do nothing
//! and carry a law each.
#![tactic(auto)]

mod laws;

pub use laws::{
    accepted_texts_have_two_rows_a_space, the_line_of_bounds_stands_for_them,
    the_text_of_bounds_stands_for_them, two_bounds_have_two_texts,
};
