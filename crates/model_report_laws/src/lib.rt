//! What is proved of the report of a command. No code but functions that do nothing and carry a law each.
#![tactic(auto)]

mod laws;

pub use laws::{
    accepted_is_run, accepted_is_within, bad_log_is_numbered, confirmed_is_run, each_by_its_cause,
    end_counts_events, events_read_back, impossible_is_no_step, impossible_is_numbered,
    judged_is_given, limit_is_last, log_limits_are_exceeded, no_is_run, printed_certificate_holds,
    printed_run_is_confirmed, refused_is_no_run, report_is_one, report_tells_of_log,
    run_reads_back, same_logs_same_report, same_reading_same_report, settled_is_decided,
    told_events_read_back, undecided_is_open, valid_input_is_answered_as_asked, yes_is_never,
    yes_prints_the_least_bounds,
};
