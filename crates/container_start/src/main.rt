//! A container runtime's use of the crates, without a world's text and without a log: it builds the state in which its
//! first process starts, has it make its calls, and audits it. The certificate is written, read again and checked.
//!
//! It prints what each call answers, then the verdict, then what the check says. `examples/library` tells more.
#![tactic(auto)]

mod asking;
mod starting;
mod stop;

use crate::asking::{Answer, ask, check_text};
use crate::starting::{calls, first_pid, start_world};
use crate::stop::Stop;
use cm_base::Kuid;
use cm_declared::World;
use cm_machine::Machine;
use std::io::Write;

fn main(rt: HostRuntime) -> Result<(), Stop> {
    let alloc = rt.alloc();
    let w = start_world(alloc)?;
    let mut m = Machine::new(alloc, &w)?;
    make_calls(&rt, &w, &mut m)?;
    audit_first(&rt, &w, &m)
}

// The first process makes its calls. Each answer is printed.
fn make_calls(rt: &HostRuntime, w: &World, m: &mut Machine) -> Result<(), Stop> {
    for call in &calls(rt.alloc())? {
        if m.state.spaces.count() > 256 {
            return Err(Stop::Refused);
        }
        let res = m.answer(rt.alloc(), w, first_pid(), call)?;
        println!(rt; "{} {:?}", call.kind().name(), res)?;
    }
    Ok(())
}

// Whether it, or what it starts, can ever be root outside. The verdict is printed, and what a check of a yes says.
fn audit_first(rt: &HostRuntime, w: &World, m: &Machine) -> Result<(), Stop> {
    let alloc = rt.alloc();
    let root = Kuid::of(0);
    match ask(alloc, w, m, first_pid(), root)? {
        Answer::Yes(text) => {
            let checked = check_text(alloc, w, m, first_pid(), root, &text)?;
            println!(rt; "yes")?;
            rt.stdout().write_all(&text)?;
            println!(rt; "\n{:?}", checked)?;
        }
        Answer::Other(word) => println!(rt; "{}", word)?,
    }
    Ok(())
}
