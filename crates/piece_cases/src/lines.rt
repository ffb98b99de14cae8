// Script lines, as they are read and written again; the laws of cm_script.
use case_lines::{Stop, bytes_of, named, word};
use cm_declared::World;
use cm_script::{lines_read_back, numbers_are_lines, read_line, read_own, write_line};
use cm_state::Event;
use std::alloc::Global;

// The answer to `read LINE` or `event LINE`.
pub(crate) fn line_answer(
    alloc: Global,
    asked: &str,
    text: &str,
    w: &World,
) -> Result<Vec<u8>, Stop> {
    let line = bytes_of(alloc, text)?;
    if line.len() >= 4_294_967_296 {
        return Err(Stop::Bad);
    }
    match read_line(alloc, &line, w) {
        Ok(Some(event)) if asked == "event" => named(alloc, &event),
        Ok(Some(event)) => written(alloc, &event, &line, w),
        Ok(None) => word(alloc, "no event"),
        Err(e) => named(alloc, &e),
    }
}

// What is written of the event; `same` where that is the line and `read_own` reads it too, which no contract says.
fn written(alloc: Global, event: &Event, line: &[u8], w: &World) -> Result<Vec<u8>, Stop> {
    let text = write_line(alloc, event, w)?;
    if text.as_slice() != line {
        return Ok(text);
    }
    match read_own(alloc, line, w) {
        Some(_) => word(alloc, "same"),
        None => word(alloc, "not read as its own"),
    }
}

// The laws are functions that do nothing.
pub(crate) fn laws_called(alloc: Global) -> Result<Vec<u8>, Stop> {
    numbers_are_lines();
    lines_read_back();
    word(alloc, "nothing")
}
