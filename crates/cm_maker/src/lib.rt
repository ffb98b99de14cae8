//! The least bounds of what a family can ever hold, and what is blamed where they meet a right. Both are found by the
//! sweep of the closure rules over the rows, which is defined, with what it comes to, in `model_verdict`.
#![tactic(auto)]

mod blaming;
mod deciding;
mod growing;
mod laws;
mod passing;
mod resting;
mod rounds;
mod runners;
mod running;
mod seeing;
mod sweep;
mod waiting;

pub use blaming::{Blamed, blame};
pub use deciding::{Bounded, decide};
pub use growing::least;
pub use laws::both_give_one_list;
pub use rounds::least_by_rounds;
