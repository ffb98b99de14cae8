// The lines that ask, and their answers.
use crate::asked::{first_open, lacking, met};
use crate::case::Case;
use case_lines::{Stop, pids, right};
use cm_box::Rule;
use std::alloc::{AllocError, Global};

// The answer to `closed`, `covers PIDS` or `meets RIGHT`.
pub(crate) fn answered(alloc: Global, case: &Case, words: &[&str]) -> Result<String, Stop> {
    match words {
        ["closed"] => {
            let open = first_open(case)?;
            Ok(closed_text(alloc, open)?)
        }
        ["covers", members @ ..] => {
            let members = pids(alloc, members)?;
            let row = lacking(case, &members)?;
            Ok(row_text(alloc, row, "yes", "no")?)
        }
        ["meets", words @ ..] => {
            let right = right(words)?;
            let row = met(case, &right)?;
            Ok(row_text(alloc, row, "no", "yes")?)
        }
        _ => Err(Stop::Bad),
    }
}

fn closed_text(alloc: Global, open: Option<(Rule, u32)>) -> Result<String, AllocError> {
    match open {
        None => String::from_str(alloc, "yes"),
        Some((x, y)) => {
            let name = x.name();
            format!(in alloc; "no, {name} {y}")
        }
    }
}

// One word where there is no such row, else the other one and the row.
fn row_text(alloc: Global, row: Option<u32>, none: &str, some: &str) -> Result<String, AllocError> {
    match row {
        None => String::from_str(alloc, none),
        Some(y) => format!(in alloc; "{some}, row {y}"),
    }
}
