// The state of the machine: the live processes by ascending pid, each in a space that stands, and the spaces.
ghost use Rattle.std.specs.Prelude.{◌≡◌};
ghost use Rattle.cm_state.specs.Right.{right_of};
ghost use Rattle.model_run.specs.Holds.{holds_right as model_holds_right, process_holds};
ghost use Rattle.model_run.specs.Own.{filter_of};
ghost use Rattle.model_run.specs.Within as within;

use crate::{Proc, Procs, Right, Spaces};
use cm_base::{Limited, NoMemory, Pid};
use cm_filter::Filter;
use std::alloc::Global;
use std::marker::Model;

/// The live processes, their pids ascending, each in a space that stands; and the spaces.
#[derive(Debug, Drop)]
pub struct State {
    pub procs: Procs,
    pub spaces: Spaces,
}

impl Model for State {
    ghost use Rattle.std.specs.Prelude.{◌<◌, length, All};
    ghost use Rattle.model_cred.specs.Process as model;

    ghost Value = { model.State };

    ghost view = { λ s. record { processes = s.procs; spaces = s.spaces } };

    ghost invariant = { λ s. model.Ascends s.procs × All (λ p. p.space < length s.spaces) s.procs };
}

impl State {
    ghost use Rattle.cm_base.specs.Outcome.{OrNoMemory};

    /// The same state. It fails only where memory runs out.
    pub fn copy(&self, alloc: Global) -> Result<State, NoMemory>
        ensures { OrNoMemory result (λ s. s ≡ self.now) }
    {
        let procs = self.procs.copy(alloc)?;
        let spaces = self.spaces.copy(alloc)?;
        Ok(State { procs, spaces })
    }

    /// The process of that pid is alive and holds the right. It takes no memory.
    pub fn holds(&self, pid: Pid, right: &Right) -> bool
        ensures { result ≡ process_holds self.now pid (right_of right.now) }
    {
        match self.procs.find(pid) {
            Some(at) => holds_right(&self.spaces, &self.procs.list[at], right),
            None => false,
        }
    }

    /// The own filter of the process of that pid: what the filters exclude that it has installed or inherited. It
    /// excludes every kind where no such process is alive, which makes no call. It takes no memory.
    pub fn filter_of(&self, pid: Pid) -> Filter
        ensures { result ≡ filter_of self.now pid }
    {
        match self.procs.find(pid) {
            Some(at) => own_filter(&self.procs.list[at]),
            None => Filter::every_kind(),
        }
    }

    /// The limit that the state exceeds: that of live processes, else that of user namespaces. None exactly where it
    /// exceeds neither. It takes no memory.
    pub fn exceeded(&self) -> Option<Limited>
        ensures { result ≡ within.exceeded self.now }
    {
        if self.procs.items().len() as u64 > Limited::Processes.number() {
            Some(Limited::Processes)
        } else if u64::from(self.spaces.count()) > Limited::Spaces.number() {
            Some(Limited::Spaces)
        } else {
            None
        }
    }
}

fn own_filter(p: &Proc) -> Filter
    ensures { result ≡ p.now.filter }
{
    p.filter
}

// The process holds the right: the capability over the space, the effective user id, or the group id as its effective or a
// supplementary one (user_namespaces(7), credentials(7)).
fn holds_right(spaces: &Spaces, p: &Proc, right: &Right) -> bool
    ensures { result ≡ model_holds_right spaces.now p.now.space p.now.cred (right_of right.now) }
{
    match right {
        Right::Cap(c, n) => {
            if n.0 < spaces.count() {
                spaces.over(p.space, p.cred.eff, p.cred.euid, *c, *n)
            } else {
                false
            }
        }
        Right::Uid(id) => p.cred.euid == *id,
        Right::Gid(id) => p.cred.egid == *id || p.cred.groups.has(*id),
    }
}
