//! Cases of plans and machines, worked out by hand: what the calls of `cm_plans` and `cm_machine` give. The cases are
//! standard input, line by line (docs/TESTING.md tells their form); each line that asks something is printed, and its answer
//! below it.
#![tactic(auto)]

mod asked;
mod machine;
mod session;
mod shown;

use crate::session::Session;
use case_lines::{Stop, tell_cases};

fn main(rt: HostRuntime) -> Result<(), Stop> {
    tell_cases(&rt, rt.stdin(), &mut Session::first(rt.alloc())?, "\n")
}
