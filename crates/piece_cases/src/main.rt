//! Cases of script lines, id maps, tables of files and credential lines: what the calls of `cm_script`, `cm_idmap`,
//! `cm_files` and `cm_credentials` answer. The cases are standard input, line by line (docs/TESTING.md tells their form); each
//! line that asks something is printed with its answer.
#![tactic(auto)]

mod credential;
mod declared;
mod files;
mod lines;
mod maps;
mod session;
mod values;

use crate::session::Session;
use case_lines::{Stop, tell_cases};

fn main(rt: HostRuntime) -> Result<(), Stop> {
    tell_cases(&rt, rt.stdin(), &mut Session::first(rt.alloc())?, " => ")
}
