//! Cases of calls, worked out by hand: what the rules of `cm_setid`, `cm_capcalls`, `cm_nscalls` and `cm_exec` answer, and
//! what they leave. The cases are standard input, line by line (docs/TESTING.md tells their form); each call is printed with
//! its answer, and after it the credential that it leaves and the spaces that it changes.
#![tactic(auto)]

mod attributes;
mod case;
mod groups;
mod made;
mod questions;
mod session;
mod shown;
mod spaces;
mod strace;
mod values;

use crate::session::Session;
use case_lines::{Stop, tell_cases};

fn main(rt: HostRuntime) -> Result<(), Stop> {
    tell_cases(&rt, rt.stdin(), &mut Session::first(rt.alloc())?, " = ")
}
