// What the lines of cases ask of bounds, and change in them.
use crate::calls::{excluding, permitting};
use crate::case::Case;
use crate::changes::change;
use crate::parts::put_row;
use crate::questions::answered;
use crate::shown::all_shown;
use case_lines::{Cases, Stop, Told, number};
use std::alloc::Global;

// The world before the first one that is written: the initial space alone.
const FIRST: &str = "log = \"script\"\n";

// The case that lines change and ask of.
#[derive(Drop)]
pub(crate) struct Session {
    case: Case,
}

impl Cases for Session {
    fn declare(&mut self, alloc: Global, world: &str) -> Result<(), Stop> {
        self.case = Case::of_text(alloc, world)?;
        Ok(())
    }

    fn begin(&mut self, alloc: Global) -> Result<(), Stop> {
        self.case.begin(alloc)
    }

    // A line, by its words, and parts of a row after the first `;`.
    fn take(&mut self, alloc: Global, line: &str, told: &mut Told) -> Result<(), Stop> {
        let (head, parts) = line.split_once(';').unwrap_or((line, ""));
        let words: Vec<&str> = head.split_whitespace().collect(alloc)?;
        match words.as_slice() {
            [] => Ok(()),
            ["row", y] => put_row(alloc, &mut self.case.bounds, number(y)?, parts),
            ["permit" | "exclude", ..] => self.set_filter(alloc, &words),
            ["start" | "rule" | "close", ..] => self.change(alloc, line, &words, told),
            _ => {
                let answer = answered(alloc, &self.case, &words)?;
                told.answer(line, answer.as_bytes())
            }
        }
    }
}

impl Session {
    // That before any line.
    pub(crate) fn first(alloc: Global) -> Result<Session, Stop> {
        Ok(Session {
            case: Case::of_text(alloc, FIRST)?,
        })
    }

    fn set_filter(&mut self, alloc: Global, words: &[&str]) -> Result<(), Stop> {
        self.case.filter = match words {
            ["permit", calls @ ..] => permitting(alloc, calls)?,
            ["exclude", calls @ ..] => excluding(alloc, calls)?,
            _ => return Err(Stop::Bad),
        };
        Ok(())
    }

    // Tells each row that the line changes, or that none is.
    fn change(
        &mut self,
        alloc: Global,
        line: &str,
        words: &[&str],
        told: &mut Told,
    ) -> Result<(), Stop> {
        let before = all_shown(alloc, &self.case.bounds)?;
        change(alloc, &mut self.case, words)?;
        let after = all_shown(alloc, &self.case.bounds)?;
        tell_changes(alloc, line, &before, &after, told)
    }
}

fn tell_changes(
    alloc: Global,
    line: &str,
    before: &[String],
    after: &[String],
    told: &mut Told,
) -> Result<(), Stop> {
    let mut none = true;
    for (y, (old, new)) in before.iter().zip(after).enumerate() {
        if old.as_str() != new.as_str() {
            let row = format!(in alloc; "row {y}{new}")?;
            told.answer(line, row.as_bytes())?;
            none = false;
        }
    }
    if none {
        told.answer(line, b"nothing")?;
    }
    Ok(())
}
