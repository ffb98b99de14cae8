// What the lines of cases call and ask, and what is told of it.
use crate::case::Case;
use crate::groups::ids_down_from;
use crate::questions::answered;
use crate::strace::what_is_told;
use crate::values;
use case_lines::{Cases, Stop, Told};
use cm_base::Res;
use cm_declared::World;
use cm_script::{LineError, put_res, read_line};
use cm_state::Event;
use std::alloc::Global;

// The world before the first one that is written: the initial space alone.
const FIRST: &str = "log = \"script\"\n";

// The case whose calls are made.
#[derive(Drop)]
pub(crate) struct Session {
    case: Case,
}

impl Cases for Session {
    fn declare(&mut self, alloc: Global, world: &str) -> Result<(), Stop> {
        self.case = Case::of_text(alloc, world)?;
        Ok(())
    }

    fn begin(&mut self, alloc: Global) -> Result<(), Stop> {
        self.case.begin(alloc)
    }

    // A line, by its words.
    fn take(&mut self, alloc: Global, line: &str, told: &mut Told) -> Result<(), Stop> {
        let words: Vec<&str> = line.split_whitespace().collect(alloc)?;
        match words.as_slice() {
            [] => Ok(()),
            ["spaces"] => self.tell_spaces(alloc, &[], told),
            ["processes"] => self.tell_processes(alloc, told),
            ["exit", pid] => self.end(alloc, pid, told),
            ["groups", pid, count, more @ ..] => self.group(alloc, line, pid, count, more, told),
            ["may" | "holds" | "attribute", ..] => {
                let answer = answered(alloc, &self.case, &words)?;
                told.answer(line, answer.as_bytes())
            }
            ["strace", pid, ..] => self.read_strace(alloc, line, pid, told),
            _ => self.call(alloc, line, told),
        }
    }
}

impl Session {
    // That before any line.
    pub(crate) fn first(alloc: Global) -> Result<Session, Stop> {
        Ok(Session {
            case: Case::of_text(alloc, FIRST)?,
        })
    }

    // A call: its answer, the credential that it leaves, the spaces that it changes.
    fn call(&mut self, alloc: Global, line: &str, told: &mut Told) -> Result<(), Stop> {
        let Event { pid, call, .. } = event_of(alloc, line, &self.case.world)?;
        let before = self.case.shown(alloc)?;
        let res = self.case.make(alloc, pid, &call)?;
        tell_res(alloc, line, &res, told)?;
        let credential = self.case.credential(alloc, pid)?;
        told.line(&credential)?;
        self.tell_spaces(alloc, &before, told)
    }

    // setgroups with more ids than a script line may have: the answer, and the groups that the process then has.
    fn group(
        &mut self,
        alloc: Global,
        line: &str,
        pid: &str,
        count: &str,
        more: &[&str],
        told: &mut Told,
    ) -> Result<(), Stop> {
        let pid = values::pid(pid)?;
        let list = ids_down_from(alloc, count, more)?;
        let res = self.case.set_groups(alloc, pid, &list)?;
        tell_res(alloc, line, &res, told)?;
        let groups = self.case.groups(alloc, pid)?;
        told.line(&groups)
    }

    // What a line of strace(1) tells, which stands after the pid.
    fn read_strace(
        &self,
        alloc: Global,
        line: &str,
        pid: &str,
        told: &mut Told,
    ) -> Result<(), Stop> {
        let (_, rest) = line.split_once(' ').ok_or(Stop::Bad)?;
        let (_, call) = rest.split_once(' ').ok_or(Stop::Bad)?;
        let what = what_is_told(alloc, &self.case.world, values::pid(pid)?, call)?;
        told.line(line.as_bytes())?;
        told.put(b"tells ")?;
        told.line(what.as_bytes())
    }

    // Each space that isn't as it was before.
    fn tell_spaces(&self, alloc: Global, before: &[Vec<u8>], told: &mut Told) -> Result<(), Stop> {
        let after = self.case.shown(alloc)?;
        for (n, text) in after.iter().enumerate() {
            if before.get(n) != Some(text) {
                told.line(text)?;
            }
        }
        Ok(())
    }

    // A process ends: those that are left.
    fn end(&mut self, alloc: Global, pid: &str, told: &mut Told) -> Result<(), Stop> {
        self.case.end(values::pid(pid)?)?;
        self.tell_processes(alloc, told)
    }

    // The credential of each process.
    fn tell_processes(&self, alloc: Global, told: &mut Told) -> Result<(), Stop> {
        let lines = self.case.credentials(alloc)?;
        for line in &lines {
            told.line(line)?;
        }
        Ok(())
    }
}

fn tell_res(alloc: Global, line: &str, res: &Res, told: &mut Told) -> Result<(), Stop> {
    let mut answer = Vec::new(alloc);
    put_res(&mut answer, res)?;
    told.answer(line, &answer)
}

// The event of a script line without its result. Each call that is a case may answer 0.
fn event_of(alloc: Global, line: &str, w: &World) -> Result<Event, Stop> {
    let whole = format!(in alloc; "{line} = 0")?;
    if whole.len() > u32::MAX as usize {
        return Err(Stop::Bad);
    }
    match read_line(alloc, whole.as_bytes(), w) {
        Ok(event) => event.ok_or(Stop::Bad),
        Err(LineError::NoMemory) => Err(Stop::NoMemory),
        Err(_) => Err(Stop::Bad),
    }
}
