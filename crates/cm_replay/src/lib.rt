//! The replay of a log: each of its events is made a step of the machine, and its lines of the report are written, whatever
//! form of log it is read from.
#![tactic(auto)]

mod coming;
mod replay;
mod starting;
mod untold;

pub use coming::replay_log;
pub use replay::{Replay, Turn, replay_end, replay_line};
pub use starting::send_start;
pub use untold::Untold;
