//! Definitions: what a log of strace(1) reads as, and the laws of that. No code but functions that do nothing and carry a law
//! each.
#![tactic(auto)]

mod laws;

pub use laws::{
    events_are_few, lines_are_counted, readings_end_as_cut, sessions_give_the_reading,
    spaces_by_events, strace_numbers_are_lines, strace_told_read_back,
};
