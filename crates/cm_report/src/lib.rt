//! The lines of a report, written at the end of a byte buffer, each with its LF: each function promises the text of the
//! definitions; where there is no memory, what the buffer holds isn't said. And their way to a sink, in large pieces.
#![tactic(auto)]

mod sending;
mod short;
mod steps;
mod verdicts;

pub use sending::{send, send_full, send_unless};
pub use short::{Short, stopped, tell_short};
pub use steps::{put_process, put_step};
pub use verdicts::{put_bad_log, put_bad_world, put_end, put_impossible, put_limit, put_usage};
