//! Definitions: the list of plans that the members of a family may try, and its laws. No code but functions that do
//! nothing and carry a law each.
#![tactic(auto)]

mod changes;
mod effects;
mod firsts;
mod shortcuts;
mod sought;

pub use changes::{
    first_moves_stay, moves_change_their_caller_alone, moves_leave_others, runs_are_later,
    walk_is_run,
};
pub use effects::{becomes_are_done, raises_are_done};
pub use firsts::{
    family_ascends, found_is_first, found_is_later, holder_is_least, mover_decides, no_holder,
    nothing_found, walk_finds_the_same,
};
pub use shortcuts::{
    first_choices_tried_before, first_moves_are_shared, members_seats_decide, members_tried_before,
    middle_choices_tried_before,
};
pub use sought::owners_are_sought;
