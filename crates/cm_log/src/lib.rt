//! Logs as readings, a line at a time: a script, or what strace(1) writes. What a log reads as is in model_text/specs (Reading)
//! and in model_strace/specs (Lines, Logs).
#![tactic(auto)]

mod log;
mod script;
mod strace;

pub use cm_declared::Placed;
pub use cm_strace::{Stage, Stop};
pub use log::Log;
