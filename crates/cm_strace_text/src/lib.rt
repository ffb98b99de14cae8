//! Lines of strace(1), piece by piece: a line's pid and body, the parts of a call, its arguments, marks, names and
//! quoted texts. What a line stands for is in model_strace/specs; what arguments and results stand for is read by
//! cm_strace_values.
#![tactic(auto)]

mod arguments;
mod body;
mod marks;
mod members;
mod quoted;
mod written;

pub use arguments::{next_argument, read_arguments};
pub use body::{Body, PidLine, read_body, read_row};
pub use marks::{
    after_mark, before_mark, cut_at, cut_name, ends_name, is_word, trimmed, without_front,
};
pub use members::{bracketed, bracketed_whole, value_of};
pub use quoted::{Quote, read_quote};
pub use written::{Written, call_name, read_written, without_32};
