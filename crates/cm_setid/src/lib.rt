//! The calls that set user ids, group ids and the supplementary groups (setresuid(2), setreuid(2), setuid(2),
//! setfsuid(2), setgroups(2)), each on any credential in any user namespace. Users and groups are one set of rules over
//! four ids; the fixups of the sets and the list of groups stand apart.
#![tactic(auto)]

mod fixups;
mod four;
mod gids;
mod groups;
mod uids;

pub use gids::{set_fsgid, set_gid, set_regid, set_resgid};
pub use groups::set_groups;
pub use uids::{set_fsuid, set_resuid, set_reuid, set_uid};
