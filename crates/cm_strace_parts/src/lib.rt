//! What is known while a log of strace(1) is read (model_strace/specs, Parts): the processes, the calls that aren't
//! finished, the descriptors that are followed; and what the texts written to a process's map files and setgroups
//! file give. Each change that needs memory leaves all as it was where there is none. Where a savepoint is set, each
//! change first saves what it replaces, and after want of memory all can be rolled back, which takes none.
#![tactic(auto)]

mod descriptor;
mod fd;
mod file_changes;
mod files;
mod kept;
mod known;
mod parts;
mod task;
mod written;

pub use descriptor::Descriptor;
pub use parts::Parts;
pub use task::Task;
pub use written::{read_extents, read_written_word};
