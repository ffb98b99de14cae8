//! Worked cases of the program: what `cm_cli::run` answers and writes to the words of a command, over files in memory: a
//! world, a log, a certificate and the calls of a run. The cases are standard input, line by line (docs/TESTING.md tells
//! their form); each case is printed by its name, with its report and its status.
#![tactic(auto)]

mod answer;
mod session;

use crate::session::told;
use case_lines::Stop;
use cm_io::{RealSink, write_all};
use std::io;

fn main(rt: HostRuntime) -> Result<(), Stop> {
    let alloc = rt.alloc();
    let text = io::read_to_string(alloc, rt.stdin())?;
    let told = told(alloc, text.as_str())?;
    write_all(&mut RealSink::new(io::writer(&rt)), &told)?;
    Ok(())
}
