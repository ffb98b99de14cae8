// Pieces of lines of strace(1): what the calls of cm_strace_text make of texts.
use crate::shown::{optional, put_quoted, quoted, yes_or_no};
use case_lines::{Stop, bytes_of, word};
use cm_base::Pid;
use cm_strace_text::{
    Body, PidLine, Quote, after_mark, before_mark, bracketed, bracketed_whole, call_name, cut_at,
    cut_name, ends_name, next_argument, read_arguments, read_body, read_quote, read_row,
    read_written, trimmed, value_of, without_32, without_front,
};
use std::alloc::Global;

// The answer to a question about a text.
pub(crate) fn text_answer(alloc: Global, line: &str) -> Result<Vec<u8>, Stop> {
    let (asked, rest) = line.split_once(' ').unwrap_or((line, ""));
    let text = bytes_of(alloc, rest)?;
    match asked {
        "row" | "body" | "arguments" | "read_quote" => whole_answer(alloc, asked, &text),
        _ => part_answer(alloc, asked, &text),
    }
}

// What a text is, or all that it has.
fn whole_answer(alloc: Global, asked: &str, text: &[u8]) -> Result<Vec<u8>, Stop> {
    match asked {
        "row" => row_shown(alloc, text),
        "body" => body_shown(alloc, text),
        "arguments" => arguments_shown(alloc, text),
        _ => quote_shown(alloc, text),
    }
}

// A part of a text.
fn part_answer(alloc: Global, asked: &str, text: &[u8]) -> Result<Vec<u8>, Stop> {
    match asked {
        "call_name" => quoted(alloc, call_name(text)),
        "ends_name" => yes_or_no(alloc, ends_name(text)),
        "result" => optional(alloc, read_written(text).map(|parts| parts.result)),
        "without_front" => quoted(alloc, without_front(text)),
        "without_32" => quoted(alloc, without_32(text)),
        "cut_name" => quoted(alloc, cut_name(text).0),
        _ => Err(Stop::Bad),
    }
}

// The answer to a question about a mark and a text.
pub(crate) fn marked_answer(alloc: Global, line: &str) -> Result<Vec<u8>, Stop> {
    let (asked, rest) = line.split_once(' ').ok_or(Stop::Bad)?;
    let (mark, text) = rest.split_once(' ').ok_or(Stop::Bad)?;
    let mark = bytes_of(alloc, mark)?;
    let text = bytes_of(alloc, text)?;
    match asked {
        "after_mark" => optional(alloc, after_mark(&mark, &text)),
        "before_mark" => optional(alloc, before_mark(&mark, &text)),
        "cut_at" => optional(alloc, cut_at(&mark, &text).map(|sides| trimmed(sides.0))),
        "bracketed" => optional(alloc, bracketed(&mark, &text)),
        "bracketed_whole" => optional(alloc, bracketed_whole(&mark, b"]", &text)),
        "value_of" => optional(alloc, value_of(&mark, &text)),
        _ => Err(Stop::Bad),
    }
}

fn row_shown(alloc: Global, line: &[u8]) -> Result<Vec<u8>, Stop> {
    match read_row(line) {
        PidLine::Blank => word(alloc, "Blank"),
        PidLine::NoPid => word(alloc, "NoPid"),
        PidLine::Of(pid, body) => of_pid(alloc, pid, body),
    }
}

fn of_pid(alloc: Global, pid: Pid, body: &[u8]) -> Result<Vec<u8>, Stop> {
    let pid = pid.number();
    let kind = format!(in alloc; "Of {pid}")?;
    kind_and_text(alloc, kind.as_str(), body)
}

fn body_shown(alloc: Global, body: &[u8]) -> Result<Vec<u8>, Stop> {
    match read_body(body) {
        Body::Silent => word(alloc, "Silent"),
        Body::Ends => word(alloc, "Ends"),
        Body::Superseded => word(alloc, "Superseded"),
        Body::Begun(text) => kind_and_text(alloc, "Begun", text),
        Body::Whole(text) => kind_and_text(alloc, "Whole", text),
        Body::Resumed(name, text) => resumed(alloc, name, text),
    }
}

fn kind_and_text(alloc: Global, kind: &str, text: &[u8]) -> Result<Vec<u8>, Stop> {
    let mut shown = word(alloc, kind)?;
    put_quoted(&mut shown, text)?;
    Ok(shown)
}

fn resumed(alloc: Global, name: &[u8], text: &[u8]) -> Result<Vec<u8>, Stop> {
    let mut shown = kind_and_text(alloc, "Resumed", name)?;
    put_quoted(&mut shown, text)?;
    Ok(shown)
}

// The arguments of a call, one after the other.
fn arguments_shown(alloc: Global, call: &[u8]) -> Result<Vec<u8>, Stop> {
    let parts = read_written(call).ok_or(Stop::Bad)?;
    let mut shown = Vec::new(alloc);
    let mut left = read_arguments(parts.inside);
    for _ in 0..call.len() {
        let Some((argument, rest)) = next_argument(left) else {
            break;
        };
        put_quoted(&mut shown, argument)?;
        left = rest;
    }
    Ok(shown)
}

fn quote_shown(alloc: Global, text: &[u8]) -> Result<Vec<u8>, Stop> {
    let quote = read_quote(alloc, text)?;
    if matches!(quote, Quote::Shortened) {
        return word(alloc, "Shortened");
    }
    match quote.whole() {
        Some(bytes) => quoted(alloc, &bytes),
        None => word(alloc, "none"),
    }
}
