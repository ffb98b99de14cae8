// What arguments and results stand for, as strace(1) writes them: what the calls of cm_strace_values make of texts.
use crate::shown::yes_or_no;
use case_lines::{Stop, bytes_of, named, pid};
use cm_strace_text::read_arguments;
use cm_strace_values::{
    birth_flags, file_at, has_flag, read_capability, read_header, read_id_list, read_outcome,
    read_securebits, read_sets, relative_file,
};
use std::alloc::Global;

// The answer to a question about a text.
pub(crate) fn value_answer(alloc: Global, line: &str) -> Result<Vec<u8>, Stop> {
    let (asked, rest) = line.split_once(' ').unwrap_or((line, ""));
    let text = bytes_of(alloc, rest)?;
    match asked {
        "outcome" => named(alloc, &read_outcome(&text)),
        "plain" => named(alloc, &read_outcome(&text).plain()),
        "old_id" => named(alloc, &read_outcome(&text).old_id()),
        "birth" => named(alloc, &read_outcome(&text).birth()),
        "success" => named(alloc, &read_outcome(&text).success()),
        "capability" => named(alloc, &read_capability(read_arguments(&text))),
        "securebits" => named(alloc, &read_securebits(&text)),
        "header" => named(alloc, &read_header(&text)),
        "sets" => named(alloc, &read_sets(&text)),
        "id_list" => named(alloc, &read_id_list(alloc, &text)?),
        "relative_file" => named(alloc, &relative_file(&text)),
        "is_space" => {
            let file = relative_file(&text).ok_or(Stop::Bad)?;
            yes_or_no(alloc, file.is_space())
        }
        _ => two_part_answer(alloc, asked, rest),
    }
}

// The same of a word, a blank and a text.
fn two_part_answer(alloc: Global, asked: &str, rest: &str) -> Result<Vec<u8>, Stop> {
    let (first, text) = rest.split_once(' ').ok_or(Stop::Bad)?;
    match asked {
        "birth_has" => {
            let flags = birth_flags(read_arguments(text.as_bytes()));
            yes_or_no(alloc, has_flag(first.as_bytes(), flags))
        }
        "file_at" => { named(alloc, &file_at(pid(first)?, text.as_bytes())) }
        "is_followed" => {
            let file = relative_file(text.as_bytes()).ok_or(Stop::Bad)?;
            yes_or_no(alloc, file.is_followed(first == "writing"))
        }
        _ => Err(Stop::Bad),
    }
}
