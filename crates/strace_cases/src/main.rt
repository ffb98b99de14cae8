//! Cases of lines of strace(1): what the calls of `cm_strace_text`, `cm_strace_values` and `cm_strace_parts` answer. The
//! cases are standard input, line by line (docs/TESTING.md tells their form); each line that asks something is printed with
//! its answer.
#![tactic(auto)]

mod known;
mod meanings;
mod pieces;
mod session;
mod shown;
mod written;

use crate::session::Session;
use case_lines::{Stop, tell_cases};

fn main(rt: HostRuntime) -> Result<(), Stop> {
    tell_cases(&rt, rt.stdin(), &mut Session::first(rt.alloc())?, " => ")
}
