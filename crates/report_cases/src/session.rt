// The lines of cases, one after the other, and what is told of them.
ghost use Rattle.std.specs.Prelude.{◌≡◌, ◌++◌, OnOk, [], ◌∷◌};

use crate::answer::{Texts, answered};
use case_lines::Stop;
use std::alloc::{AllocError, Global};

// One of the files.
#[derive(Clone, Copy)]
enum File {
    World,
    Log,
    Certificate,
    Calls,
}

// What is read so far: the texts of the files; the file whose lines come now, if any; what is told.
#[derive(Drop)]
struct Session {
    texts: Texts,
    open: Option<File>,
    told: Vec<u8>,
}

// What the lines of a text tell: each case's name, and each report with its status. It is bad where the text ends within
// that of a file.
pub(crate) fn told(alloc: Global, text: &str) -> Result<Vec<u8>, Stop> {
    let mut s = Session {
        texts: Texts {
            world: Vec::new(alloc),
            log: Vec::new(alloc),
            certificate: Vec::new(alloc),
            calls: Vec::new(alloc),
        },
        open: None,
        told: Vec::new(alloc),
    };
    for line in text.lines() {
        s.take(alloc, line)?;
    }
    match s.open {
        None => Ok(s.told),
        Some(_) => Err(Stop::Bad),
    }
}

impl Texts {
    fn of(&mut self, file: File) -> &mut Vec<u8> {
        match file {
            File::World => &mut self.world,
            File::Log => &mut self.log,
            File::Certificate => &mut self.certificate,
            File::Calls => &mut self.calls,
        }
    }
}

impl Session {
    fn take(&mut self, alloc: Global, line: &str) -> Result<(), Stop> {
        match self.open {
            Some(file) => self.text_line(file, line),
            None => self.case_line(alloc, line),
        }
    }

    // A line of a file's text, or one that ends it.
    fn text_line(&mut self, file: File, line: &str) -> Result<(), Stop> {
        let text = self.texts.of(file);
        match line {
            "end" => self.open = None,
            "end without LF" => {
                text.pop();
                self.open = None;
            }
            _ => put_line(text, line)?,
        }
        Ok(())
    }

    // Another line, by its words.
    fn case_line(&mut self, alloc: Global, line: &str) -> Result<(), Stop> {
        let words: Vec<&str> = line.split_whitespace().collect(alloc)?;
        match words.as_slice() {
            [] | ["#", ..] => {}
            ["world"] => self.begin(File::World),
            ["log"] => self.begin(File::Log),
            ["certificate"] => self.begin(File::Certificate),
            ["calls"] => self.begin(File::Calls),
            ["case", ..] => put_line(&mut self.told, line)?,
            ["run", words @ ..] => self.run(alloc, words)?,
            _ => self.refuse(line)?,
        }
        Ok(())
    }

    // The text of a file begins anew.
    fn begin(&mut self, file: File) {
        self.texts.of(file).clear();
        self.open = Some(file);
    }

    // Tells the report and the status of a command.
    fn run(&mut self, alloc: Global, words: &[&str]) -> Result<(), Stop> {
        let answer = answered(alloc, words, &self.texts)?;
        let status = format!(in alloc; "status {}", answer.status.number())?;
        self.told.extend_from_slice(&answer.report)?;
        put_line(&mut self.told, status.as_str())?;
        Ok(())
    }

    // A line that is none of the forms is told as bad.
    fn refuse(&mut self, line: &str) -> Result<(), Stop> {
        self.told.extend_from_slice(b"bad: ")?;
        put_line(&mut self.told, line)?;
        Ok(())
    }
}

// Puts a line to the end of a text.
fn put_line(text: &mut Vec<u8>, line: &str) -> Result<(), AllocError>
    ensures { OnOk result (text.new.items ≡ text.old.items ++ line.now ++ (10 ∷ [])) }
{
    text.extend_from_slice(line.as_bytes())?;
    text.push(b'\n')?;
    Ok(())
}
