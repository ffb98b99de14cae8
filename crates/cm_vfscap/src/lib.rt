//! A file's attribute security.capability (capabilities(7), "File capabilities"): the capabilities that its program gets,
//! read from bytes and written to bytes. Nothing here takes memory.
#![tactic(auto)]

mod caps;
mod fault;
mod laws;
mod layout;
mod reading;
mod writing;

pub use caps::FileCaps;
pub use fault::BadCap;
pub use laws::written_is_read_back;
pub use reading::read;
pub use writing::write;
