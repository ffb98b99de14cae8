//! What lines of strace(1) tell, call by call, whatever processes and descriptors stand: the table of calls in
//! model_strace/specs (Calls).
#![tactic(auto)]

mod arguments;
mod births;
mod call;
mod caps;
mod exec;
mod files;
mod groups;
mod ids;
mod listed;
mod prctl;
mod told;

pub use call::{named_call, read_call, read_named};
pub use listed::{Listed, ReadFor};
pub use told::{Opening, Told};
