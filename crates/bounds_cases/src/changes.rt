// The lines that change bounds.
use crate::asked::{applied, closed_least, started};
use crate::case::Case;
use crate::rules::rule_named;
use case_lines::{Stop, number, pids};
use std::alloc::Global;

// Changes the bounds by `start PIDS`, `rule NAME ROW` or `close`. A bad line leaves all as it was.
pub(crate) fn change(alloc: Global, case: &mut Case, words: &[&str]) -> Result<(), Stop> {
    match words {
        ["start", members @ ..] => {
            let members = pids(alloc, members)?;
            case.bounds = started(alloc, case, &members)?;
            case.members = members;
        }
        ["rule", name, y] => {
            let x = rule_named(name).ok_or(Stop::Bad)?;
            case.bounds = applied(alloc, case, x, number(y)?)?;
        }
        ["close"] => case.bounds = closed_least(alloc, case)?,
        _ => return Err(Stop::Bad),
    }
    Ok(())
}
