//! Script lines, the text form of logs: `read_line` makes an event of a line, or answers why it can't (`LineError`), and
//! `put_line` writes an event as a line. What a line stands for, and how an event is written, is in
//! model_text/specs (Line, Arguments, Token, Print).
#![tactic(auto)]

mod arguments;
mod calls;
mod error;
mod files;
mod laws;
mod lists;
mod own;
mod parts;
mod reading;
mod results;
mod writing;

pub use cm_tokens::read_pid;
pub use error::LineError;
pub use laws::{
    first_lines_come, lines_read_back, logs_read_back, numbers_are_lines, told_read_back,
};
pub use own::read_own;
pub use reading::read_line;
pub use writing::{put_line, put_res, write_line};
