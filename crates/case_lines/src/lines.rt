// The lines of a text of cases, one after the other, and the answers to them.
use crate::{Stop, Told};
use cm_io::{RealSink, write_all};
use std::alloc::Global;
use std::io;
use std::io::Read;

/// What a program of cases does with their lines.
pub trait Cases {
    /// The text of a world came, in which the lines that follow stand. Where there are no worlds, it is bad.
    fn declare(&mut self, _alloc: Global, _world: &str) -> Result<(), Stop> {
        Err(Stop::Bad)
    }

    /// A case begins, whose name is told next.
    fn begin(&mut self, _alloc: Global) -> Result<(), Stop> {
        Ok(())
    }

    /// Another line: it is answered, or changes what later ones are asked of.
    fn take(&mut self, alloc: Global, line: &str, told: &mut Told) -> Result<(), Stop>;
}

/// Reads cases to their end, and prints what is told of their lines, with the mark between a line and its answer. The
/// text of a world stands between the lines `world` and `end`; a line that begins with `case` begins a case; an empty
/// line, and one that begins with `#`, tell nothing. A line that is bad, or for which there is no memory, is answered so.
pub fn tell_cases<P: Print + AllocGlobal, R: Read + Drop, C: Cases>(
    rt: &P,
    input: R,
    cases: &mut C,
    mark: &'static str,
) -> Result<(), Stop> {
    let alloc = rt.alloc();
    let text = io::read_to_string(alloc, input)?;
    let told = answers(alloc, cases, mark, text.as_str())?;
    write_all(&mut RealSink::new(io::writer(rt)), &told)?;
    Ok(())
}

fn answers<C: Cases>(
    alloc: Global,
    cases: &mut C,
    mark: &'static str,
    text: &str,
) -> Result<Vec<u8>, Stop> {
    let mut told = Told::new(alloc, mark);
    let mut world: Option<String> = None;
    for line in text.lines() {
        take_line(alloc, cases, &mut world, line, &mut told)?;
    }
    Ok(told.text)
}

fn take_line<C: Cases>(
    alloc: Global,
    cases: &mut C,
    world: &mut Option<String>,
    line: &str,
    told: &mut Told,
) -> Result<(), Stop> {
    let taken = match world.take() {
        Some(text) => world_line(alloc, cases, world, text, line),
        None => case_line(alloc, cases, world, line, told),
    };
    match taken {
        Err(Stop::Bad) => told.answer(line, b"bad"),
        Err(Stop::NoMemory) => told.answer(line, b"no memory"),
        other => other,
    }
}

// A line of the text of a world, which `end` ends.
fn world_line<C: Cases>(
    alloc: Global,
    cases: &mut C,
    world: &mut Option<String>,
    text: String,
    line: &str,
) -> Result<(), Stop> {
    if line == "end" {
        return cases.declare(alloc, text.as_str());
    }
    let mut text = text;
    text.push_str(line)?;
    text.push_str("\n")?;
    *world = Some(text);
    Ok(())
}

// Another line.
fn case_line<C: Cases>(
    alloc: Global,
    cases: &mut C,
    world: &mut Option<String>,
    line: &str,
    told: &mut Told,
) -> Result<(), Stop> {
    if line.is_empty() || line.starts_with('#') {
        return Ok(());
    }
    if line == "world" {
        *world = Some(String::new(alloc));
        return Ok(());
    }
    if line.starts_with("case ") {
        cases.begin(alloc)?;
        return told.line(line.as_bytes());
    }
    cases.take(alloc, line, told)
}
