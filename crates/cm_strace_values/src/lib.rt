//! What the arguments and the results of calls stand for, as strace(1) writes them: capabilities, securebits, flags,
//! lists of ids, results, and the paths of files that a log is followed on. Nothing here knows of processes or
//! descriptors.
#![tactic(auto)]

mod caps;
mod flags;
mod hex;
mod lists;
mod outcome;
mod paths;
mod sets;

pub use caps::{Sets, read_capability, read_header, read_sets};
pub use flags::{birth_flags, has_flag};
pub use lists::read_id_list;
pub use outcome::{Outcome, read_outcome};
pub use paths::{Followed, Named, file_at, relative_file};
pub use sets::read_securebits;
