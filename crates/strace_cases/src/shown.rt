// Texts and answers of two words, as answers show them.
use case_lines::{Stop, word};
use std::alloc::Global;

// A text, with a quote at each end.
pub(crate) fn quoted(alloc: Global, text: &[u8]) -> Result<Vec<u8>, Stop> {
    let mut shown = Vec::new(alloc);
    put_quoted(&mut shown, text)?;
    Ok(shown)
}

// Puts a text at the end of an answer, with a quote at each end, and a blank before it where something stands.
pub(crate) fn put_quoted(shown: &mut Vec<u8>, text: &[u8]) -> Result<(), Stop> {
    if !shown.is_empty() {
        shown.push(b' ')?;
    }
    shown.push(b'"')?;
    shown.extend_from_slice(text)?;
    shown.push(b'"')?;
    Ok(())
}

// A text, or `none`.
pub(crate) fn optional(alloc: Global, text: Option<&[u8]>) -> Result<Vec<u8>, Stop> {
    match text {
        Some(text) => quoted(alloc, text),
        None => word(alloc, "none"),
    }
}

pub(crate) fn yes_or_no(alloc: Global, yes: bool) -> Result<Vec<u8>, Stop> {
    word(alloc, if yes { "yes" } else { "no" })
}
