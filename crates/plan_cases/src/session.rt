// What the lines of cases ask of plans and machines.
use crate::asked::{first, plan_list, run};
use crate::machine::machine_answer;
use case_lines::{Cases, Stop, Told, pids, right};
use cm_declared::World;
use cm_machine::Machine;
use cm_world::read_world;
use std::alloc::Global;

// The world before the first one that is written: the initial space alone.
const FIRST: &str = "log = \"script\"\n";

// What is read so far: the world; the machine, once there is one.
#[derive(Drop)]
pub(crate) struct Session {
    world: World,
    machine: Option<Machine>,
}

impl Session {
    // That before any line.
    pub(crate) fn first(alloc: Global) -> Result<Session, Stop> {
        Ok(Session {
            world: read_world(alloc, FIRST.as_bytes())?,
            machine: None,
        })
    }

    // A question: its word, the right and the members.
    fn asked(&self, alloc: Global, words: &[&str]) -> Result<String, Stop> {
        let [word, kind, what, members @ ..] = words else {
            return Err(Stop::Bad);
        };
        let right = right(&[*kind, *what])?;
        let members = pids(alloc, members)?;
        match *word {
            "plans" => plan_list(alloc, &self.world, &members, &right),
            "first" => first(alloc, &self.world, &members, &right),
            "run" => run(alloc, &self.world, &members, &right),
            _ => Err(Stop::Bad),
        }
    }

    // The machine is in the state that the world begins with.
    fn start(&mut self, alloc: Global) -> Result<(), Stop> {
        self.machine = Some(Machine::new(alloc, &self.world)?);
        Ok(())
    }

    fn asked_of_machine(&mut self, alloc: Global, line: &str) -> Result<String, Stop> {
        let Some(m) = &mut self.machine else {
            return Err(Stop::Bad);
        };
        machine_answer(alloc, &self.world, m, line)
    }
}

impl Cases for Session {
    fn declare(&mut self, alloc: Global, world: &str) -> Result<(), Stop> {
        self.world = read_world(alloc, world.as_bytes())?;
        Ok(())
    }

    // A line on the machine, or a question. The answer stands below the line, and ends its own last one.
    fn take(&mut self, alloc: Global, line: &str, told: &mut Told) -> Result<(), Stop> {
        let words: Vec<&str> = line.split_whitespace().collect(alloc)?;
        let answer = match words.as_slice() {
            ["machine"] => return self.start(alloc),
            ["step" | "answer" | "family" | "processes", ..] => self.asked_of_machine(alloc, line)?,
            _ => self.asked(alloc, &words)?,
        };
        told.line(line.as_bytes())?;
        told.put(answer.as_bytes())
    }
}
