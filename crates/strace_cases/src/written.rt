// What the texts give that are written to a process's map files and setgroups file: what the calls of cm_strace_parts
// answer.
use case_lines::{Stop, bytes_of, word};
use cm_idmap::Extent;
use cm_strace_parts::{read_extents, read_written_word};
use std::alloc::Global;

// The answer to `written FILE TEXT`.
pub(crate) fn written_answer(alloc: Global, rest: &str) -> Result<Vec<u8>, Stop> {
    let (file, text) = rest.split_once(' ').unwrap_or((rest, ""));
    let text = bytes_of(alloc, text)?;
    match file {
        "map" => map_text(alloc, &text),
        "setgroups" => word(alloc, named_word(&text)),
        _ => Err(Stop::Bad),
    }
}

// The extents of a map file's text, after their number, each with `;` behind it.
fn map_text(alloc: Global, text: &[u8]) -> Result<Vec<u8>, Stop> {
    match read_extents(alloc, text)? {
        Some(extents) => extents_shown(alloc, extents.items()),
        None => word(alloc, "none"),
    }
}

fn extents_shown(alloc: Global, list: &[Extent]) -> Result<Vec<u8>, Stop> {
    let mut text = word(alloc, format!(in alloc; "{}:", list.len())?.as_str())?;
    for e in list {
        let (inside, outside, length) = (e.inside, e.outside, e.length);
        let shown = format!(in alloc; " {inside} {outside} {length};")?;
        text.extend_from_slice(shown.as_bytes())?;
    }
    Ok(text)
}

fn named_word(text: &[u8]) -> &'static str {
    match read_written_word(text) {
        Some(true) => "deny",
        Some(false) => "allow",
        None => "none",
    }
}
