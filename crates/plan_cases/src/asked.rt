// The calls of cm_plans, and their answers as text.
use crate::shown::put_run;
use case_lines::Stop;
use cm_base::Pid;
use cm_declared::World;
use cm_machine::Machine;
use cm_plans::{first_found, first_run, plans};
use cm_state::Right;
use std::alloc::Global;

// How many plans are shown at most.
const MOST: u32 = 1000;

// The run of each plan, up to the end of the list.
pub(crate) fn plan_list(
    alloc: Global,
    w: &World,
    members: &[Pid],
    right: &Right,
) -> Result<String, Stop> {
    let m = Machine::new(alloc, w)?;
    let mut list = plans(alloc, w, &m, members, right)?;
    let mut text = String::new(alloc);
    for _ in 0..MOST {
        match list.next_run(alloc)? {
            Some(run) => put_run(alloc, &mut text, w, &run)?,
            None => {
                text.push_str("end\n")?;
                return Ok(text);
            }
        }
    }
    Err(Stop::Bad)
}

// The run of the first plan that ends with a holder, and the holder.
pub(crate) fn first(
    alloc: Global,
    w: &World,
    members: &[Pid],
    right: &Right,
) -> Result<String, Stop> {
    let m = Machine::new(alloc, w)?;
    match first_found(alloc, w, &m, members, right)? {
        Some(found) => {
            let pid = found.holder.number();
            let mut text = String::new(alloc);
            put_run(alloc, &mut text, w, &found.run)?;
            let holder = format!(in alloc; "holder {pid}\n")?;
            text.push_str(holder.as_str())?;
            Ok(text)
        }
        None => none(alloc),
    }
}

// The run of the first plan that ends with a holder.
pub(crate) fn run(
    alloc: Global,
    w: &World,
    members: &[Pid],
    right: &Right,
) -> Result<String, Stop> {
    let m = Machine::new(alloc, w)?;
    match first_run(alloc, w, &m, members, right)? {
        Some(run) => {
            let mut text = String::new(alloc);
            put_run(alloc, &mut text, w, &run)?;
            Ok(text)
        }
        None => none(alloc),
    }
}

fn none(alloc: Global) -> Result<String, Stop> {
    let mut text = String::new(alloc);
    text.push_str("none\n")?;
    Ok(text)
}
