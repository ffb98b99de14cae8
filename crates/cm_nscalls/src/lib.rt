//! The calls of user namespaces, called spaces here (user_namespaces(7), unshare(2), setns(2)): a process makes or joins
//! one, and writes its maps and its setgroups word. A call that is refused, or runs out of memory, leaves all as it
//! was. Each call is also given in its two parts: whether it is refused, which changes nothing, and the change.
#![tactic(auto)]

mod file;
mod joining;
mod making;
mod maps;
mod newcomer;
mod stored;
mod word;
mod writer;

pub use file::{MapFile, set_map};
pub use joining::{join_space, may_join};
pub use making::{created_by, may_make, new_space};
pub use maps::{map_to_store, write_gid_map, write_uid_map};
pub use newcomer::come_in;
pub use word::{may_write_word, write_setgroups};
pub use writer::Write;
