// The lines that ask for a word or a value, and their answers.
use crate::attributes::attribute;
use crate::case::Case;
use crate::values::{pid, right};
use case_lines::Stop;
use std::alloc::Global;

// The answer to `may PID PATH`, `holds PID RIGHT` or `attribute DIGITS`.
pub(crate) fn answered(alloc: Global, case: &Case, words: &[&str]) -> Result<String, Stop> {
    match words {
        ["may", who, path] => {
            let may = case.may_run(pid(who)?, path)?;
            yes_or_no(alloc, may)
        }
        ["holds", who, what @ ..] => {
            let w = &case.world;
            let right = right(what, &w.names)?;
            yes_or_no(alloc, w.start.holds(pid(who)?, &right))
        }
        ["attribute"] => attribute(alloc, ""),
        ["attribute", digits] => attribute(alloc, digits),
        _ => Err(Stop::Bad),
    }
}

fn yes_or_no(alloc: Global, yes: bool) -> Result<String, Stop> {
    Ok(String::from_str(alloc, if yes { "yes" } else { "no" })?)
}
