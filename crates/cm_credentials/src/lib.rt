//! The credential line of a process, as text, and kept lines, of which only what differs is written anew.
#![tactic(auto)]

mod credential_line;
mod kept;
mod short_text;
mod shown_parts;
mod two_shown;

pub use credential_line::{credentials, put_credential_line, put_credentials};
pub use kept::KeptLines;
