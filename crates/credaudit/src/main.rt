//! The program `credaudit`: its words, the files that they name, and standard output.
#![tactic(auto)]

ghost use Rattle.std.specs.Prelude.{◌≡◌};
ghost use Rattle.std.specs.Process.{exit_status};
ghost use Rattle.cm_base.specs.Statuses.{status_number};

use cm_base::{NoMemory, Status};
use cm_cli::run;
use cm_io::{RealShelf, RealSink};
use std::io::ErrorKind;
use std::process::ExitCode;
use std::rt::Env;
use std::{env, io};

#[cfg(test)]
mod tests;

fn main(rt: HostRuntime) -> ExitCode {
    let words = match words_of(&rt) {
        Ok(words) => words,
        Err(NoMemory) => return exit_code(Status::NoMemory),
    };
    let mut shelf = match RealShelf::new(&rt, rt.alloc(), &words) {
        Ok(shelf) => shelf,
        Err(_) => return exit_code(Status::NoMemory),
    };
    let mut sink = RealSink::new(io::writer(&rt));
    exit_code(run(rt.alloc(), &words, &mut shelf, &mut sink))
}

// The program ends with the number of its answer.
fn exit_code(status: Status) -> ExitCode
    ensures { exit_status result ≡ status_number status }
{
    ExitCode::from(status.number())
}

// The words after the program's name. Words that aren't text are answered as no words are.
fn words_of(rt: &(impl Env + AllocGlobal)) -> Result<Vec<String>, NoMemory> {
    match env::args(rt) {
        Ok(args) => Ok(args.skip(1).collect(rt.alloc())?),
        Err(e) if e.kind() == ErrorKind::OutOfMemory => Err(NoMemory),
        Err(_) => Ok(Vec::new(rt.alloc())),
    }
}
