//! Definitions: the least bounds, blame, settled families, and the laws of verdicts. No code but functions that do
//! nothing and carry a law each.
#![tactic(auto)]

mod alike;
mod blame;
mod in_world;
mod least;
mod more;
mod rows;
mod settled;
mod sweep;
mod verdict;

pub use alike::verdicts_rest_on_the_family_alone;
pub use blame::{
    blame_is_determined, blame_is_there_exactly_where_least_bounds_meet,
    blame_is_within_closed_covering_bounds, blame_shows_before_and_after_its_turn,
    eight_rules_can_be_blamed,
};
pub use in_world::{blame_brings_the_right, no_is_the_first_run};
pub use least::{
    least_bounds_are_one, least_bounds_are_within_lists, least_bounds_exist,
    least_bounds_meet_if_all_do,
};
pub use more::{more_members_find_as_much, more_members_need_no_smaller_bounds};
pub use rows::{least_rows_are_one_list, rows_of_one_meaning_are_one_list, rows_say_each_low_test};
pub use settled::{
    kept_states_take_their_ids_back, maps_take_their_ids_back, runs_keep_maps_taking_back,
    settled_families_are_decided, settled_families_are_never_open,
    settled_families_find_what_all_bounds_meet,
};
pub use sweep::{
    closed_turns_are_least, idle_rounds_begin_closed, sweep_comes_to_the_least_bounds, sweep_grows,
    sweep_stays_within_closed_covering_bounds, turns_go_by_rounds,
};
pub use verdict::{
    no_is_shown_by_a_run, undecided_comes_exactly_where_it_is_open,
    undecided_families_are_unsettled, verdict_is_one, verdict_is_there,
    yes_comes_exactly_where_bounds_exclude, yes_is_kept_by_all_runs,
};
