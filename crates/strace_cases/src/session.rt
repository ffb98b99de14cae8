// What the lines of cases ask of lines of strace(1), and of what is known by them.
use crate::known::Known;
use crate::meanings::value_answer;
use crate::pieces::{marked_answer, text_answer};
use crate::written::written_answer;
use case_lines::{Cases, Stop, Told};
use cm_declared::World;
use cm_world::read_world;
use std::alloc::Global;

// The world before the first one that is written.
const FIRST: &str = "log = \"strace\"\n";

// What is read so far: the world; what is known.
#[derive(Drop)]
pub(crate) struct Session {
    world: World,
    known: Known,
}

impl Session {
    // That before any line.
    pub(crate) fn first(alloc: Global) -> Result<Session, Stop> {
        Ok(Session {
            world: read_world(alloc, FIRST.as_bytes())?,
            known: Known::none(),
        })
    }

    fn asked(&mut self, alloc: Global, word: &str, rest: &str) -> Result<Vec<u8>, Stop> {
        match word {
            "piece" => text_answer(alloc, rest),
            "marked" => marked_answer(alloc, rest),
            "value" => value_answer(alloc, rest),
            "known" => self.known.answer(alloc, rest, &self.world),
            "written" => written_answer(alloc, rest),
            _ => Err(Stop::Bad),
        }
    }
}

impl Cases for Session {
    fn declare(&mut self, alloc: Global, world: &str) -> Result<(), Stop> {
        self.world = read_world(alloc, world.as_bytes())?;
        Ok(())
    }

    // With nothing known.
    fn begin(&mut self, _alloc: Global) -> Result<(), Stop> {
        self.known = Known::none();
        Ok(())
    }

    // A line: its first word, and what stands after the blank that follows it.
    fn take(&mut self, alloc: Global, line: &str, told: &mut Told) -> Result<(), Stop> {
        let (word, rest) = line.split_once(' ').unwrap_or((line, ""));
        let answer = self.asked(alloc, word, rest)?;
        told.answer(line, &answer)
    }
}
