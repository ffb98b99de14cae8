//! The small values of Linux credentials: ids, capabilities and their sets, securebits, errors and results, and the
//! numbers and names that texts spell. Contracts see ids, capabilities and sets as plain numbers; nothing here takes
//! memory, and every value is copied freely.
#![tactic(auto)]

mod cap;
mod errno;
mod faults;
mod id;
mod laws;
mod limited;
mod limits;
mod memory;
mod number;
mod res;
mod status;
mod word;

pub use cap::Cap;
pub use errno::Errno;
pub use faults::{LineFault, Table, WorldFault};
pub use id::{Kgid, Kuid, LAST_PID, Pid, SpaceId};
pub use laws::{
    cap_sets_kept, equality_by_members, inclusion_by_members, inclusion_order, membership,
    names_read_back,
};
pub use limited::Limited;
pub use limits::{ALL_CAPS, CAP_COUNT, MINUS_ONE};
pub use memory::NoMemory;
pub use number::{BadNumber, read_octal, read_u32};
pub use res::{FileRef, Res};
pub use status::Status;
pub use word::{CapWord, SecBits};

#[cfg(test)]
mod tests;
