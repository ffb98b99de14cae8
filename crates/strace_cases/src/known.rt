// What is known while a log of strace(1) is read: what the calls of cm_strace_parts answer and leave.
use crate::shown::{optional, yes_or_no};
use case_lines::{Stop, bytes_of, number, pid, word};
use cm_base::{Pid, SpaceId};
use cm_declared::World;
use cm_strace_parts::{Descriptor, Parts};
use cm_strace_values::Followed;
use std::alloc::Global;
use std::mem;

// What is known, and a copy that was made of it.
#[derive(Drop)]
pub(crate) struct Known {
    now: Option<Parts>,
    copy: Option<Parts>,
}

impl Known {
    pub(crate) fn none() -> Known {
        Known {
            now: None,
            copy: None,
        }
    }

    // The answer to a line on what is known.
    pub(crate) fn answer(&mut self, alloc: Global, rest: &str, w: &World) -> Result<Vec<u8>, Stop> {
        let words: Vec<&str> = rest.split_whitespace().collect(alloc)?;
        match words.as_slice() {
            ["first"] => self.begin(alloc, w),
            ["copy"] => self.make_copy(alloc),
            ["other"] => self.exchange(alloc),
            words => self.standing(alloc, words),
        }
    }

    // What is known at the beginning of the world's log.
    fn begin(&mut self, alloc: Global, w: &World) -> Result<Vec<u8>, Stop> {
        self.now = Some(Parts::first(alloc, w)?);
        word(alloc, "made")
    }

    fn make_copy(&mut self, alloc: Global) -> Result<Vec<u8>, Stop> {
        let Some(parts) = &self.now else {
            return Err(Stop::Bad);
        };
        let copy = parts.copy(alloc)?;
        self.copy = Some(copy);
        word(alloc, "made")
    }

    // The copy comes in the place of what it was made of.
    fn exchange(&mut self, alloc: Global) -> Result<Vec<u8>, Stop> {
        mem::swap(&mut self.now, &mut self.copy);
        word(alloc, "done")
    }

    fn standing(&mut self, alloc: Global, words: &[&str]) -> Result<Vec<u8>, Stop> {
        let Some(parts) = &mut self.now else {
            return Err(Stop::Bad);
        };
        match words {
            ["spaces"] => counted(alloc, u128::from(parts.spaces())),
            ["descriptor_count"] => counted(alloc, parts.descriptor_count()),
            ["set_savepoint"] if !parts.has_savepoint() => {
                parts.set_savepoint();
                word(alloc, "done")
            }
            ["roll_back"] => {
                parts.roll_back();
                word(alloc, "done")
            }
            ["release"] => {
                parts.release();
                word(alloc, "done")
            }
            ["forget_all_kept"] if !parts.has_savepoint() => {
                parts.forget_all_kept();
                word(alloc, "done")
            }
            [asked, process] => of_process(alloc, parts, asked, pid(process)?),
            [asked, process, rest @ ..] => changed(alloc, parts, asked, pid(process)?, rest),
            _ => Err(Stop::Bad),
        }
    }
}

fn counted(alloc: Global, count: u128) -> Result<Vec<u8>, Stop> {
    word(alloc, format!(in alloc; "{count}")?.as_str())
}

// What is asked of a process.
fn of_process(alloc: Global, parts: &mut Parts, asked: &str, pid: Pid) -> Result<Vec<u8>, Stop> {
    match asked {
        "is_known" => yes_or_no(alloc, parts.is_known(pid)),
        "task_of" => yes_or_no(alloc, parts.task_of(pid).is_some()),
        "space_of" => counted(alloc, u128::from(parts.space_of(pid).0)),
        "shares_files" => yes_or_no(alloc, parts.shares_files(pid)),
        "kept_of" => optional(alloc, parts.kept_of(pid)),
        "has_descriptor" => yes_or_no(alloc, parts.has_descriptor(pid)),
        _ => process_changed(alloc, parts, asked, pid),
    }
}

// What becomes of a process.
fn process_changed(
    alloc: Global,
    parts: &mut Parts,
    asked: &str,
    pid: Pid,
) -> Result<Vec<u8>, Stop> {
    match asked {
        "move_to_new" => move_to_new(parts, pid)?,
        "forget_kept" => parts.forget_kept(pid)?,
        "end" => parts.end(pid)?,
        "execute" => parts.execute(alloc, pid)?,
        _ => return Err(Stop::Bad),
    }
    word(alloc, "done")
}

fn move_to_new(parts: &mut Parts, pid: Pid) -> Result<(), Stop> {
    if parts.spaces() == u32::MAX {
        return Err(Stop::Bad);
    }
    parts.move_to_new(pid)?;
    Ok(())
}

// What is asked of a descriptor of a process, and what becomes of it; births, moves and calls that aren't finished.
fn changed(
    alloc: Global,
    parts: &mut Parts,
    asked: &str,
    pid: Pid,
    words: &[&str],
) -> Result<Vec<u8>, Stop> {
    match (asked, words) {
        ("descriptor_of", [n]) => {
            return yes_or_no(
                alloc,
                parts.descriptor_of(pid, u64::from(number(n)?)).is_some(),
            );
        }
        ("forget_descriptor", [n]) => {
            parts.forget_descriptor(alloc, pid, u64::from(number(n)?))?;
        }
        ("follow", [n, end]) => follow(alloc, parts, pid, number(n)?, end)?,
        ("keep", [text]) => parts.keep(alloc, pid, &bytes_of(alloc, text)?)?,
        ("move_to", [space]) => parts.move_to(pid, SpaceId(number(space)?))?,
        _ => bear(alloc, parts, asked, pid, words)?,
    }
    word(alloc, "done")
}

// A descriptor of a map file of a process of space 1 is followed.
fn follow(alloc: Global, parts: &mut Parts, pid: Pid, number: u32, end: &str) -> Result<(), Stop> {
    parts.follow(
        alloc,
        Descriptor {
            pid,
            number: u64::from(number),
            file: Followed::UidMap,
            space: SpaceId(1),
            until_exec: end == "until_exec",
        },
    )?;
    Ok(())
}

// A birth, in the user namespace of that number or in a new one.
fn bear(
    alloc: Global,
    parts: &mut Parts,
    asked: &str,
    parent: Pid,
    words: &[&str],
) -> Result<(), Stop> {
    match (asked, words) {
        ("bear", [child, space, files]) => {
            let space = SpaceId(number(space)?);
            parts.bear(alloc, parent, pid(child)?, space, *files == "shared")?;
        }
        ("bear_in_new", [child, files]) if parts.spaces() < u32::MAX => {
            parts.bear_in_new(alloc, parent, pid(child)?, *files == "shared")?;
        }
        _ => return Err(Stop::Bad),
    }
    Ok(())
}
