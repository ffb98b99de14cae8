// Pids of which something is known without a search: that they are those of processes, or that none of their
// descriptors is followed. A slot for each remainder of pids holds the last one that was noted of those with that
// remainder: of a pid that isn't noted the same may be true.
ghost use Rattle.std.specs.Prelude.{◌≡◌, ◌≢◌, ℕ, true, false};
ghost use Rattle.cm_base.specs.Outcome.{OrNoMemory};
ghost use Rattle.cm_strace_parts.specs.Slots.{notes, slot_count, slot_of, mark_of, NotesKnown};

use crate::task::Task;
use cm_base::{NoMemory, Pid};
use std::alloc::Global;
use std::marker::Model;

// How many slots there are (choice).
const SLOTS: usize = 4096;

/// The slots: the one of a pid's remainder holds one more than its quotient, where the pid is noted. 0 notes none.
#[derive(Debug, Drop)]
pub struct Known {
    slots: Vec<u16>,
}

impl Model for Known {
    ghost use Rattle.std.specs.Prelude.{◌≡◌, ℕ, List, length};
    ghost use Rattle.cm_strace_parts.specs.Slots.{slot_count};

    ghost Value = { List ℕ };

    ghost view = { λ known. known.slots.items };

    ghost invariant = { λ known. length known.slots.items ≡ slot_count };
}

impl Known {
    // The pids of these processes are noted, as far as there are slots for them. It fails only where memory runs out.
    pub(crate) fn of(alloc: Global, tasks: &[Task]) -> Result<Known, NoMemory>
        ensures { OrNoMemory result (λ known. NotesKnown known tasks.now) }
    {
        let mut known = Known::empty(alloc, SLOTS)?;
        known.renew(tasks);
        Ok(known)
    }

    // So many slots. It fails only where memory runs out.
    fn empty(alloc: Global, slots: usize) -> Result<Known, NoMemory>
        requires { slots ≡ slot_count }
    {
        let slots = vec![in alloc; 0; slots]?;
        Ok(Known { slots })
    }

    // The same. It fails only where memory runs out.
    pub(crate) fn copy(&self, alloc: Global) -> Result<Known, NoMemory>
        ensures { OrNoMemory result (λ known. known ≡ self.now) }
    {
        let slots = Vec::from_slice(alloc, &self.slots)?;
        Ok(Known { slots })
    }

    // The pids of these processes are noted instead of all others, as far as there are slots for them.
    pub(crate) fn renew(&mut self, tasks: &[Task])
        ensures { NotesKnown self.new tasks.now }
    {
        self.clear();
        for task in tasks {
            self.note(task.pid);
        }
    }

    // No pid is noted.
    pub(crate) fn clear(&mut self)
        ensures { (pid : ℕ) → notes self.new pid ≡ false }
    {
        self.slots.fill(0);
    }

    // The pid is noted.
    pub(crate) fn has(&self, pid: Pid) -> bool
        ensures { result ≡ notes self.now pid }
    {
        self.slots[slot(pid)] == mark(pid)
    }

    // The pid is noted, instead of any of its slot.
    pub(crate) fn note(&mut self, pid: Pid)
        ensures noted { notes self.new pid ≡ true }
        ensures others { (other : ℕ) → other ≢ pid → notes self.new other ≡ true → notes self.old other ≡ true }
    {
        self.slots[slot(pid)] = mark(pid);
    }

    // The pid is noted if that is so, instead of any of its slot; else it isn't noted any more.
    pub(crate) fn note_if(&mut self, pid: Pid, is: bool)
        ensures own { notes self.new pid ≡ is }
        ensures others { (other : ℕ) → other ≢ pid → notes self.new other ≡ true → notes self.old other ≡ true }
    {
        if is {
            self.note(pid);
        } else {
            self.forget(pid);
        }
    }

    // The pid isn't noted any more.
    pub(crate) fn forget(&mut self, pid: Pid)
        ensures gone { notes self.new pid ≡ false }
        ensures others { (other : ℕ) → other ≢ pid → notes self.new other ≡ notes self.old other }
    {
        if self.has(pid) {
            self.slots[slot(pid)] = 0;
        }
    }
}

// The slot of a pid.
fn slot(pid: Pid) -> usize
    ensures { result ≡ slot_of pid }
{
    pid.number() as usize % SLOTS
}

// What its slot holds where it is noted.
fn mark(pid: Pid) -> u16
    ensures { result ≡ mark_of pid }
{
    (pid.number() as usize / SLOTS + 1) as u16
}
