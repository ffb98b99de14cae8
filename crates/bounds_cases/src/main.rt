//! Cases of bounds, worked out by hand: what the calls of `cm_box` answer. The cases are standard input, line by line
//! (docs/TESTING.md tells their form); each line that asks something is printed with its answer.
#![tactic(auto)]

mod asked;
mod calls;
mod case;
mod changes;
mod parts;
mod questions;
mod rules;
mod session;
mod shown;
mod values;

use crate::session::Session;
use case_lines::{Stop, tell_cases};

fn main(rt: HostRuntime) -> Result<(), Stop> {
    tell_cases(&rt, rt.stdin(), &mut Session::first(rt.alloc())?, " = ")
}
