// What the lines of cases ask, of the world and of the map and the files of their case.
use crate::credential::credential_line;
use crate::declared::{declared_file, declared_mount};
use crate::files::Files;
use crate::lines::{laws_called, line_answer};
use crate::maps::map_answer;
use case_lines::{Cases, Stop, Told};
use cm_declared::World;
use cm_idmap::IdMap;
use cm_world::read_world;
use std::alloc::Global;

// The world before the first one that is written.
const FIRST: &str = "log = \"script\"\n";

// What is read so far: the world; the map and the files of the case.
#[derive(Drop)]
pub(crate) struct Session {
    world: World,
    map: Option<IdMap>,
    files: Files,
}

impl Session {
    // That before any line.
    pub(crate) fn first(alloc: Global) -> Result<Session, Stop> {
        Ok(Session {
            world: read_world(alloc, FIRST.as_bytes())?,
            map: None,
            files: Files::none(alloc),
        })
    }

    fn asked(&mut self, alloc: Global, word: &str, rest: &str) -> Result<Vec<u8>, Stop> {
        match word {
            "read" | "event" => line_answer(alloc, word, rest, &self.world),
            "laws" => laws_called(alloc),
            "credentials" => credential_line(alloc, rest, &self.world),
            "table" | "find" | "rows" | "mounts" | "program" | "view" | "bits" => {
                self.files.answer(alloc, word, rest)
            }
            _ => map_answer(alloc, &mut self.map, word, rest),
        }
    }
}

impl Cases for Session {
    fn declare(&mut self, alloc: Global, world: &str) -> Result<(), Stop> {
        self.world = read_world(alloc, world.as_bytes())?;
        Ok(())
    }

    // Without a map and without files.
    fn begin(&mut self, alloc: Global) -> Result<(), Stop> {
        self.map = None;
        self.files = Files::none(alloc);
        Ok(())
    }

    // A line: its first word, and what stands after the blank that follows it.
    fn take(&mut self, alloc: Global, line: &str, told: &mut Told) -> Result<(), Stop> {
        let (word, rest) = line.split_once(' ').unwrap_or((line, ""));
        match word {
            "mount" => self.files.add_mount(declared_mount(alloc, rest)?),
            "file" => self.files.add_row(declared_file(alloc, rest)?),
            _ => {
                let answer = self.asked(alloc, word, rest)?;
                told.answer(line, &answer)
            }
        }
    }
}
