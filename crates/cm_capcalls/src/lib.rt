//! The calls that change a process's sets of capabilities, its securebits and no_new_privs (capset(2), prctl(2)), each on
//! any credential. A refused call leaves the credential as it was, and none takes memory.
#![tactic(auto)]

mod ambient;
mod bounding;
mod capset;
mod flags;
mod numbers;
mod securebits;

pub use ambient::{amb_clear, amb_lower, amb_raise};
pub use bounding::bset_drop;
pub use capset::cap_set;
pub use flags::{keep_caps, no_new_privs};
pub use securebits::secure_bits;
