//! The check of a run that is put forward: whether its lines are a later run of the members of a family, at whose end one of
//! them holds a right. The machine goes on by its lines, and which processes are members is kept beside it.
#![tactic(auto)]

mod confirmed;
mod confirming;
mod members;

pub use confirmed::Confirmed;
pub use confirming::confirm;
