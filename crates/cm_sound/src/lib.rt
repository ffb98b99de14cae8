//! A certificate's judge: whether bounds show that the members of a family never come to hold a right. `check` puts
//! three tests of `cm_box` in their order, none of which takes memory. What its answer says of all later runs is a
//! clause of its contract. The laws say that what it asks of a world and a state holds after each log.
#![tactic(auto)]

mod checked;
mod judging;
mod laws;

pub use checked::Checked;
pub use judging::check;
pub use laws::{
    enclosing_rows_stay_covering, excluded_after_logs, logs_lead_to_fitting_states,
    mounts_stand_after_logs, read_worlds_have_few_spaces,
};

#[cfg(test)]
mod owner_tests;
#[cfg(test)]
mod tests;
