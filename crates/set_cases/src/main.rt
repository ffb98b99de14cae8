//! Cases of sets of ids, worked out by hand: what the calls of `cm_idset` answer. The cases are standard input, line by line
//! (docs/TESTING.md tells their form); each line that asks something is printed with its answer.
#![tactic(auto)]

mod session;
mod sets;
mod shown;

use crate::session::Sets;
use case_lines::{Stop, tell_cases};

fn main(rt: HostRuntime) -> Result<(), Stop> {
    tell_cases(&rt, rt.stdin(), &mut Sets, " = ")
}
