//! One row of bounds, in code: what it holds, what comes to it by each rule, and whether it holds that already. A row
//! is that of the members in one user namespace, or of those in later namespaces below it; what bounds are is defined
//! and proved in `model_box`.
#![tactic(auto)]

mod calls;
mod coming;
mod gained;
mod given;
mod ids;
mod joined;
mod kind;
mod members;
mod programs;
mod row;
mod spread;

pub use calls::{
    cap_set_held, secure_bits_held, set_fs_held, set_groups_held, set_ids_held, spread_held,
};
pub use coming::{brought, fresh_ids, new_ids};
pub use gained::{
    cap_set_gained, ids_gained, secure_bits_gained, set_fs_gained, set_groups_gained,
    set_ids_gained,
};
pub use given::{given_within, id_lacking, ids_given, is_program, view_at};
pub use ids::meet;
pub use kind::IdKind;
pub use members::{map_held, members_held};
pub use programs::{can_run, has_id, may_gain, may_raise_in, root_of};
pub use row::BoxRow;
pub use spread::{brings_held, can_join_by, can_make, fresh_ids_held, joined_held, new_ids_held};
