// The members of a family while a run goes on: their pids, ascending, so that they are looked for by halves.
ghost use Rattle.std.specs.Prelude.{◌≡◌, ℕ, List, ◌∷◌, ◌==◌, not, filter, IfSome, IfNone};
ghost use Rattle.cm_base.specs.Outcome.{OrNoMemory};
ghost use Rattle.cm_confirm.specs.Members.{SameMembers};
ghost use Rattle.cm_state.specs.Right.{right_of};
ghost use Rattle.model_confirm.specs.Confirm.{least_holder};
ghost use Rattle.model_plans.specs.Firsts.{PidsAscend};
ghost use Rattle.model_run.specs.Later.{is_member, members_after};

use cm_base::{NoMemory, Pid, Res};
use cm_plans::first_holder;
use cm_state::{Call, Event, Right, State};
use std::marker::Model;

/// The pids of the members.
#[derive(Debug, Drop)]
pub(crate) struct Members {
    pids: Vec<Pid>,
}

impl Model for Members {
    ghost use Rattle.std.specs.Prelude.{ℕ, List};
    ghost use Rattle.model_plans.specs.Firsts.{PidsAscend};

    ghost Value = { List ℕ };

    ghost view = { λ members. members.pids.items };

    ghost invariant = { λ members. ∥ PidsAscend members.pids.items ∥₁ };
}

impl Members {
    /// The members of these pids.
    pub(crate) fn new(pids: Vec<Pid>) -> Members
        requires { PidsAscend pids.items }
        ensures { result ≡ pids.items }
    {
        Members { pids }
    }

    /// The pid is a member's.
    pub(crate) fn has(&self, pid: Pid) -> bool
        ensures { result ≡ is_member self.now pid }
    {
        self.pids.binary_search(&pid).is_ok()
    }

    /// The least member that holds the right in the state.
    pub(crate) fn holder(&self, state: &State, right: &Right) -> Option<Pid>
        ensures { result ≡ least_holder state.now self.now (right_of right.now) }
    {
        first_holder(state, &self.pids, right)
    }

    /// The members after an event: the child of a birth comes to them, and a process that exits goes. Its only error is out
    /// of memory.
    pub(crate) fn follow(&mut self, e: &Event) -> Result<(), NoMemory>
        ensures { OrNoMemory result (λ _. SameMembers self.new (members_after self.old e.now.pid e.now.call e.now.res)) }
    {
        match (&e.call, &e.res) {
            (Call::Exit, Res::Done) => {
                self.leave(e.pid);
                Ok(())
            }
            (Call::Exit, _) => Ok(()),
            (_, Res::Child(pid)) => self.join(*pid),
            _ => Ok(()),
        }
    }

    // One more comes to them. Its only error is out of memory.
    fn join(&mut self, pid: Pid) -> Result<(), NoMemory>
        ensures { OrNoMemory result (λ _. SameMembers self.new (pid ∷ self.old)) }
    {
        match self.pids.binary_search(&pid) {
            Ok(_) => Ok(()),
            Err(at) => {
                self.pids.insert(at, pid)?;
                Ok(())
            }
        }
    }

    // One goes, where it is one of them.
    fn leave(&mut self, pid: Pid)
        ensures { SameMembers self.new (filter (λ member. not (member == pid)) self.old) }
    {
        if let Ok(at) = self.pids.binary_search(&pid) {
            self.pids.remove(at);
        }
    }
}
