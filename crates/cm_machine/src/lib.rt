//! The machine: a state, and its steps. An event is one completed call of one live process with the result that was
//! told; the machine makes it where the rules give that result, and is unchanged where they don't.
#![tactic(auto)]

mod births;
mod change;
mod entries;
mod error;
mod exits;
mod family;
mod filters;
mod laws;
mod machine;
mod own;
mod pids;
mod ruling;
mod step;

pub use error::StepError;
pub use laws::read_chains_end;
pub use machine::Machine;
