//! The kinds of the 27 calls: their names in script lines, their order and their shapes, which stand here once, for the
//! definitions and for the code; and filters, which are sets of kinds that are excluded. Nothing here takes memory.
#![tactic(auto)]

mod filter;
mod kind;
mod shape;

pub use filter::{Filter, NoSuchCall};
pub use kind::CallKind;
pub use shape::Shape;

#[cfg(test)]
mod tests;
