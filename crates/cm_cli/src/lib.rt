//! The top call: a command's words, the files that they name, and the report.
#![tactic(auto)]

mod answer;
mod answers;
mod asking;
mod checking;
mod claims;
mod commands;
mod confirming;
mod drilling;
mod laws;
mod query;
mod reading;
mod telling;
mod words;

pub use cm_base::Status;
pub use cm_drill::drill_log;
pub use commands::{run, run_surely};
pub use laws::{
    accepted_is_run, bad_log_is_numbered, confirmed_is_run, each_by_its_cause, end_counts_events,
    impossible_is_no_step, impossible_is_numbered, judged_is_given, limit_is_last, log_limits,
    no_is_run, printed_is_accepted, report_is_one, report_tells_of_log, reports_read_back,
    same_logs_same_report, same_reading_same_report, told_events_read_back, undecided_is_open,
    yes_is_never, yes_prints_least,
};
