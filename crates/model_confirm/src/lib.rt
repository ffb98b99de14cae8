//! Definitions: what the lines of a run come to, and the laws of that. No code but functions that do nothing and carry a law
//! each.
#![tactic(auto)]

mod laws;

pub use laws::{
    confirmed_is_a_later_run, past_limit_by_a_line_or_a_step, refused_end_has_no_holder,
    refused_line_has_a_fault_or_is_no_members_step, refused_runs_end_with_no_holder,
};
