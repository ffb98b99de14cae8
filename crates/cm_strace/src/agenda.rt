// The pids whose held lines come next, the newest child first.
ghost use Rattle.std.specs.Prelude.{◌≡◌, [], ◌++◌, slice_get, drop};
ghost use Rattle.cm_base.specs.Outcome.{OrNoMemory, UnchangedOnErr};
ghost use Rattle.cm_strace.specs.Queues.{dues_of, gone_on};

use cm_base::{NoMemory, Pid};
use std::alloc::Global;
use std::marker::Model;

/// A pid whose held lines come, and the place before which none of those that are left stands.
#[derive(Clone, Copy, Debug)]
pub(crate) struct Due {
    pub(crate) pid: Pid,
    pub(crate) from: usize,
}

/// Pids with their places, of which the last one is the first to come.
#[derive(Debug, Drop)]
pub(crate) struct Agenda {
    dues: Vec<Due>,
}

impl Model for Agenda {
    ghost use Rattle.std.specs.Prelude.{List, reverse};
    ghost use Rattle.cm_strace.specs.declared.agenda.Due as declared;

    ghost Value = { List declared.Due };

    ghost view = { λ agenda. reverse agenda.dues.items };
}

impl Agenda {
    // No pid.
    pub(crate) fn new(alloc: Global) -> Agenda
        ensures { result ≡ [] }
    {
        Agenda {
            dues: Vec::new(alloc),
        }
    }

    // A child that was born comes before all others.
    pub(crate) fn put(&mut self, born: Option<Pid>) -> Result<(), NoMemory>
        ensures put { OrNoMemory result (λ _. self.new ≡ dues_of born ++ self.old) }
        ensures unchanged { UnchangedOnErr result self.new self.old }
    {
        if let Some(child) = born {
            let due = Due {
                pid: child,
                from: 0,
            };
            self.dues.push(due)?;
        }
        Ok(())
    }

    // The first pid, with its place.
    pub(crate) fn first(&self) -> Option<Due>
        ensures { result ≡ slice_get self.now 0 }
    {
        self.dues.last().copied()
    }

    // Of the first pid, none of the lines that are left stands before that place.
    #[tactic(auto, using(crate::proofs::Dues::last_changed))]
    pub(crate) fn go_on(&mut self, from: usize)
        ensures { self.new ≡ gone_on from self.old }
    {
        let count = self.dues.len();
        if count > 0 {
            self.dues[count - 1].from = from;
        }
    }

    // The first pid goes.
    pub(crate) fn drop_first(&mut self)
        ensures { self.new ≡ drop 1 self.old }
    {
        self.dues.pop();
    }
}
