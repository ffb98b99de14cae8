// The live processes of the machine, as a list of its own. Its calls that look for a pid, or put a process in its place,
// ask that the pids ascend; the state keeps that they do.
ghost use Rattle.std.specs.Prelude.{◌≡◌, ◌<◌, ◌==◌, not, filter, Some, None, length, slice_get, IfSome, IfNone, false};
ghost use Rattle.std.specs.List.{remove};
ghost use Rattle.cm_base.specs.Outcome.{OrNoMemory, UnchangedOnErr};
ghost use Rattle.model_cred.specs.Process.{Ascends, process_at, is_alive, insert_process};

use crate::Proc;
use cm_base::{NoMemory, Pid};
use std::alloc::Global;
use std::marker::Model;

/// A list of processes. The list itself is open: a process in it is changed in place, as `&mut procs.list[at].cred`.
#[derive(Debug, Drop)]
pub struct Procs {
    pub list: Vec<Proc>,
}

impl Model for Procs {
    ghost use Rattle.std.specs.Prelude.{List};
    ghost use Rattle.model_cred.specs.Process.{Process};

    ghost Value = { List Process };

    ghost view = { λ procs. procs.list.items };
}

impl Procs {
    /// These processes, as they stand in the list. It takes no memory.
    pub fn from_vec(list: Vec<Proc>) -> Procs
        ensures { result ≡ list.items }
    {
        Procs { list }
    }

    /// The processes, in their order. It takes no memory.
    pub fn items(&self) -> &[Proc]
        ensures { result.now ≡ self.now }
    {
        &self.list
    }

    /// The same processes. It fails only where memory runs out.
    pub fn copy(&self, alloc: Global) -> Result<Procs, NoMemory>
        ensures { OrNoMemory result (λ procs. procs ≡ self.now) }
    {
        let list = copy_list(alloc, &self.list)?;
        Ok(Procs { list })
    }

    /// The place of the process of that pid, from 0 on, where the pids ascend. None exactly where there is none. It
    /// takes no memory.
    pub fn find(&self, pid: Pid) -> Option<usize>
        requires { Ascends self.now }
        ensures found { IfSome result (λ at. (at < length self.now) × (slice_get self.now at ≡ process_at self.now pid)) }
        ensures none { IfNone result (process_at self.now pid ≡ None) }
    {
        cm_ordered::find(&self.list, pid)
    }

    /// Puts one more process in its place, where the pids ascend and none is its own. It fails only where memory runs
    /// out, and then leaves the processes as they were.
    pub fn insert(&mut self, p: Proc) -> Result<(), NoMemory>
        requires ascends { Ascends self.old }
        requires fresh { is_alive self.old p.pid ≡ false }
        ensures put { OrNoMemory result (λ _. self.new ≡ insert_process p self.old) }
        ensures unchanged { UnchangedOnErr result self.new self.old }
        ensures still { Ascends self.new }
    {
        cm_ordered::insert(&mut self.list, p)?;
        Ok(())
    }

    /// Takes the process at that place out of the list; the later ones move up. It takes no memory.
    pub fn remove(&mut self, at: usize) -> Proc
        requires { at < length self.old }
        ensures gone { slice_get self.old at ≡ Some result }
        ensures rest { self.new ≡ remove self.old at }
        ensures still { Ascends self.old → Ascends self.new }
        ensures others { Ascends self.old → self.new ≡ filter (λ p. not (p.pid == result.pid)) self.old }
    {
        self.list.remove(at)
    }
}

// The same processes, in their order.
fn copy_list(alloc: Global, list: &[Proc]) -> Result<Vec<Proc>, NoMemory>
    ensures { OrNoMemory result (λ made. made.items ≡ list.now) }
{
    let mut made = Vec::with_capacity(alloc, list.len())?;
    for p in list {
        let p = p.copy(alloc)?;
        made.push(p)?;
    }
    Ok(made)
}
