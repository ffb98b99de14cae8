// What a case is about: a world, and its processes and spaces as the calls of the case have left them.
ghost use Rattle.std.specs.Prelude.{◌<◌, length, IfOk};

use crate::groups::ranges;
use crate::made::made;
use crate::shown::all_shown;
use case_lines::Stop;
use cm_base::{Pid, Res};
use cm_credentials::credentials;
use cm_declared::World;
use cm_exec::may_exec;
use cm_setid::set_groups;
use cm_state::{Call, Procs, Spaces, State};
use cm_world::read_world;
use std::alloc::Global;

#[derive(Drop)]
pub(crate) struct Case {
    pub(crate) world: World,
    pub(crate) procs: Procs,
    pub(crate) spaces: Spaces,
}

impl Case {
    // That of the world of a text.
    pub(crate) fn of_text(alloc: Global, text: &str) -> Result<Case, Stop> {
        let world = read_world(alloc, text.as_bytes())?;
        let State { procs, spaces } = world.start.copy(alloc)?;
        Ok(Case {
            world,
            procs,
            spaces,
        })
    }

    // Begins anew, in the same world.
    pub(crate) fn begin(&mut self, alloc: Global) -> Result<(), Stop> {
        let State { procs, spaces } = self.world.start.copy(alloc)?;
        self.procs = procs;
        self.spaces = spaces;
        Ok(())
    }

    // The place of the process of that pid. Bad where there is none.
    pub(crate) fn place(&self, pid: Pid) -> Result<usize, Stop>
        ensures { IfOk result (λ at. at < length self.now.procs) }
    {
        let list = self.procs.items();
        list.iter().position(|p| p.pid == pid).ok_or(Stop::Bad)
    }

    // Makes a call of the process of that pid, and says what is answered.
    pub(crate) fn make(&mut self, alloc: Global, pid: Pid, call: &Call) -> Result<Res, Stop> {
        let at = self.place(pid)?;
        let p = &mut self.procs.list[at];
        made(alloc, &self.world.files, p, &mut self.spaces, call)
    }

    // Sets the groups of the process of that pid, and says what is answered.
    pub(crate) fn set_groups(&mut self, alloc: Global, pid: Pid, ids: &[u32]) -> Result<Res, Stop> {
        let at = self.place(pid)?;
        let p = &mut self.procs.list[at];
        let s = self.spaces.get(p.space).ok_or(Stop::Bad)?;
        Ok(set_groups(alloc, &mut *p.cred, s, ids)?)
    }

    // The groups of the process of that pid, as ranges.
    pub(crate) fn groups(&self, alloc: Global, pid: Pid) -> Result<Vec<u8>, Stop> {
        let at = self.place(pid)?;
        let p = &self.procs.list[at];
        Ok(ranges(alloc, p.cred.groups.items())?)
    }

    // Whether the process of that pid may run the file of that path.
    pub(crate) fn may_run(&self, pid: Pid, path: &str) -> Result<bool, Stop> {
        let at = self.place(pid)?;
        let p = &self.procs.list[at];
        if p.space.0 >= self.spaces.count() {
            return Err(Stop::Bad);
        }
        let files = &self.world.files;
        let file = files.find(path.as_bytes());
        Ok(may_exec(&p.cred, &self.spaces, p.space, files, file))
    }

    // The credential line of the process of that pid.
    pub(crate) fn credential(&self, alloc: Global, pid: Pid) -> Result<Vec<u8>, Stop> {
        let at = self.place(pid)?;
        let p = &self.procs.list[at];
        Ok(credentials(alloc, &p.cred, pid, p.space, &self.world)?)
    }

    // The credential line of each process.
    pub(crate) fn credentials(&self, alloc: Global) -> Result<Vec<Vec<u8>>, Stop> {
        let mut lines = Vec::new(alloc);
        for p in self.procs.items() {
            lines.push(credentials(alloc, &p.cred, p.pid, p.space, &self.world)?)?;
        }
        Ok(lines)
    }

    // Takes out the process of that pid.
    pub(crate) fn end(&mut self, pid: Pid) -> Result<(), Stop> {
        let at = self.place(pid)?;
        self.procs.remove(at);
        Ok(())
    }

    // Each space that stands, as text.
    pub(crate) fn shown(&self, alloc: Global) -> Result<Vec<Vec<u8>>, Stop> {
        Ok(all_shown(alloc, &self.spaces, &self.world.names)?)
    }
}
