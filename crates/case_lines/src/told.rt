// The answers to lines.
ghost use Rattle.std.specs.Prelude.{◌≡◌, ◌++◌, ◌∷◌, [], OnOk};

use crate::Stop;
use std::alloc::Global;

/// What is told: lines, each with the answer to it, and between the two a mark.
#[derive(Drop)]
pub struct Told {
    /// All that is told so far.
    pub text: Vec<u8>,
    mark: &'static str,
}

impl Told {
    /// Nothing is told yet.
    pub fn new(alloc: Global, mark: &'static str) -> Told
        ensures { result.text.items ≡ [] }
    {
        Told {
            text: Vec::new(alloc),
            mark,
        }
    }

    /// Tells a line, the mark and the answer, and ends them.
    pub fn answer(&mut self, line: &str, answer: &[u8]) -> Result<(), Stop> {
        let mark = self.mark;
        self.put(line.as_bytes())?;
        self.put(mark.as_bytes())?;
        self.line(answer)
    }

    /// Tells a text, and ends its line.
    pub fn line(&mut self, text: &[u8]) -> Result<(), Stop>
        ensures { OnOk result (self.new.text.items ≡ self.old.text.items ++ text.now ++ (10 ∷ [])) }
    {
        self.put(text)?;
        self.text.push(b'\n')?;
        Ok(())
    }

    /// Tells a text, whose line goes on.
    pub fn put(&mut self, text: &[u8]) -> Result<(), Stop>
        ensures { OnOk result (self.new.text.items ≡ self.old.text.items ++ text.now) }
    {
        self.text.extend_from_slice(text)?;
        Ok(())
    }
}
