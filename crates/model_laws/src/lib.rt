//! The laws of the machine, over its definitions: each function does nothing, and its contract is a law, which the check
//! proves. What is built on the definitions cites the lemmas of proofs/.
#![tactic(auto)]

mod family;
mod own;
mod power;
mod run;
mod sentence;
mod step;

pub use family::{
    callers_are_members, children_are_members, family_is_computed, members_are_family, others_stay,
    others_stay_whole, step_keeps_chains, strangers_stay,
};
pub use own::{again_for_want_of_pids, least_free_pid, own_is_step, wrong_has_own_answer};
pub use power::{no_power_above, power_is_computed, power_over_own_space};
pub use run::{later_keeps, run_keeps, step_keeps, world_run_keeps};
pub use sentence::{
    exception_gains_own, root_gains_all, root_sets, saved_after_setregid, saved_after_setreuid,
    who_writes_maps,
};
pub use step::{error_changes_nothing, one_next_state, step_makes_spaces};
