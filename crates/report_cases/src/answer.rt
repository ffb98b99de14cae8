// What a command answers and writes over four files in memory, `world`, `log`, `certificate` and `calls`.
ghost use Rattle.std.specs.Prelude.{[], Some, IfOk};
ghost use Rattle.cm_cli.specs.Answers.{AnswersReport};
ghost use Rattle.cm_cli.specs.Words.{command_in};

use case_lines::Stop;
use cm_cli::{Status, run};
use cm_io::{MemShelf, MemSink, Shelf, are_distinct};
use std::alloc::{AllocError, Global};

#[derive(Drop)]
pub(crate) struct Answer {
    pub(crate) status: Status,
    pub(crate) report: Vec<u8>,
}

/// The texts of the four files.
#[derive(Drop)]
pub(crate) struct Texts {
    pub(crate) world: Vec<u8>,
    pub(crate) log: Vec<u8>,
    pub(crate) certificate: Vec<u8>,
    pub(crate) calls: Vec<u8>,
}

/// What these words answer and write.
pub(crate) fn answered(alloc: Global, words: &[&str], texts: &Texts) -> Result<Answer, Stop> {
    let words = strings(alloc, words)?;
    let mut shelf = shelf(alloc, texts)?;
    over(alloc, &words, &mut shelf)
}

// The same, over a shelf: the answer is the report's status, and its text is written.
fn over(alloc: Global, words: &Vec<String>, shelf: &mut MemShelf) -> Result<Answer, Stop>
    ensures { IfOk result (λ a. AnswersReport (⟦<MemShelf as Shelf>⟧.held shelf.old) (command_in words.now.items)
        a.status (Some []) (Some a.report.items)) }
{
    let mut out = MemSink::new(alloc, Vec::new(alloc));
    let status = run(alloc, words, shelf, &mut out);
    let report = out.bytes().to_vec(alloc)?;
    Ok(Answer { status, report })
}

// Owned words.
fn strings(alloc: Global, words: &[&str]) -> Result<Vec<String>, AllocError> {
    let mut strings = Vec::new(alloc);
    for word in words {
        strings.push(String::from_str(alloc, word)?)?;
    }
    Ok(strings)
}

// A shelf that holds the files, of which no read fails.
fn shelf(alloc: Global, texts: &Texts) -> Result<MemShelf, Stop> {
    let names = strings(alloc, &["world", "log", "certificate", "calls"])?;
    let mut held = Vec::new(alloc);
    for text in [&texts.world, &texts.log, &texts.certificate, &texts.calls] {
        held.push(text.to_vec(alloc)?)?;
    }
    if !are_distinct(&names) || held.len() != names.len() {
        return Err(Stop::Bad);
    }
    Ok(MemShelf::new(alloc, names, held, Vec::new(alloc))?)
}
