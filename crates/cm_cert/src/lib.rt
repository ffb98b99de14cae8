//! Certificates: bounds as one text of JSON, written and read. Which text is written, and what a text stands for, is
//! defined in `model_cert`.
#![tactic(auto)]

mod caps;
mod document;
mod fault;
mod fields;
mod ids;
mod laws;
mod plain;
mod rows;
mod seeing;
mod writing;

pub use document::read_bounds;
pub use fault::BadCert;
pub use laws::{bounds_have_lawful_sets, two_bounds_have_two_texts, written_bounds_are_read};
pub use rows::read_row;
pub use writing::{row_value, write_bounds};

#[cfg(test)]
mod tests;
