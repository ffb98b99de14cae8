//! Lines of texts, as LF parts them, and the limits that they are held against: what a text is cut into, what comes of
//! it where a line and the text may have so many bytes, and the code that cuts. The definitions are in specs (Lines,
//! Cut).
#![tactic(auto)]

mod limits;
mod lines;

pub use limits::Past;
pub use lines::{line_len, next_line};
