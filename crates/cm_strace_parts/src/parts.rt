// What is known while a log is read, and what was known at a savepoint, to which all can be rolled back.
ghost use Rattle.std.specs.Prelude.{◌≡◌, ◌<◌, None, Some, length, option_map, is_some, IsOk};
ghost use Rattle.cm_base.specs.Limits.{greatest_number};
ghost use Rattle.cm_base.specs.Outcome.{OrNoMemory};
ghost use Rattle.cm_declared.specs.World.{world_of};
ghost use Rattle.cm_strace_parts.specs.Savepoints.{LeftOnErr};
ghost use Rattle.model_strace.specs.Parts as model;
ghost use Rattle.model_strace.specs.Parts.{first_parts, task_of, is_known, space_of, shares_files, moved};
ghost use Rattle.model_strace.specs.Parts.{moved_to_new, kept_of, keeping, without_kept, without_any_kept};
ghost use Rattle.model_strace.specs.Parts.{descriptor_of, has_descriptor, without_descriptor, with_descriptor};
ghost use Rattle.model_strace.specs.Parts.{after_exec, after_birth, after_user_birth, after_end};

use crate::descriptor::Descriptor;
use crate::files::FdList;
use crate::kept::Kept;
use crate::known::Known;
use crate::task::Task;
use crate::{file_changes, files, task};
use cm_base::{NoMemory, Pid, SpaceId};
use cm_declared::World;
use cm_ordered::Tracked;
use std::alloc::Global;
use std::marker::Model;

/// The processes, the calls that aren't finished, the descriptors that are followed, and how many user namespaces
/// there are. Where a savepoint is set, all can be rolled back to it, which takes no memory.
#[derive(Debug, Drop)]
pub struct Parts {
    tasks: Tracked<Task>,
    kept: Tracked<Kept>,
    files: Tracked<FdList>,
    // How many descriptors there are in the lists, and how many user namespaces.
    followed: u128,
    spaces: u32,
    // The same at the savepoint, where one is set.
    saved_followed: u128,
    saved_spaces: u32,
    // Pids that are known to be those of processes, and pids of which no descriptor is known to be followed.
    known: Known,
    bare: Known,
}

impl Model for Parts {
    ghost use Rattle.cm_strace_parts.specs.InOrder.{InOrder, saved_parts};
    ghost use Rattle.cm_strace_parts.specs.Lists.{descriptors_in};
    ghost use Rattle.cm_strace_parts.specs.Savepoints as savepoints;

    ghost Value = { savepoints.Saved };

    ghost view = { λ p. record {
      known = record {
        tasks = p.tasks.items;
        kept = p.kept.items;
        descriptors = descriptors_in p.files.items;
        spaces = p.spaces;
      };
      saved = saved_parts p.tasks.saved p.kept.saved p.files.saved p.saved_spaces;
    } };

    ghost invariant = { λ p. InOrder p.tasks p.kept p.files p.followed p.saved_followed p.known p.bare };
}

// ---- what is known

impl Parts {
    /// What is known at the beginning of a world's log, without a savepoint. It fails only where memory runs out.
    pub fn first(alloc: Global, w: &World) -> Result<Parts, NoMemory>
        ensures { OrNoMemory result (λ p. p ≡ record { known = first_parts (world_of w.now); saved = None }) }
    {
        let start = &w.start;
        let tasks = task::first_tasks(alloc, start.procs.items())?;
        let known = Known::of(alloc, &tasks)?;
        let bare = known.copy(alloc)?;
        Ok(Parts {
            tasks: Tracked::of(alloc, tasks),
            kept: Tracked::of(alloc, Vec::new(alloc)),
            files: Tracked::of(alloc, Vec::new(alloc)),
            followed: 0,
            saved_followed: 0,
            spaces: start.spaces.count(),
            saved_spaces: 0,
            known,
            bare,
        })
    }

    /// The same, without a savepoint. It fails only where memory runs out.
    pub fn copy(&self, alloc: Global) -> Result<Parts, NoMemory>
        ensures { OrNoMemory result (λ p. p ≡ record { known = self.now.known; saved = None }) }
    {
        let tasks = self.tasks.copy(alloc)?;
        let kept = self.kept.copy(alloc)?;
        let files = self.files.copy(alloc)?;
        let known = self.known.copy(alloc)?;
        let bare = self.bare.copy(alloc)?;
        Ok(Parts {
            tasks,
            kept,
            files,
            followed: self.followed,
            saved_followed: 0,
            spaces: self.spaces,
            saved_spaces: 0,
            known,
            bare,
        })
    }

    /// How many user namespaces there are.
    pub fn spaces(&self) -> u32
        ensures { result ≡ self.now.known.spaces }
    {
        self.spaces
    }

    /// The process of that pid.
    pub fn task_of(&self, pid: Pid) -> Option<&Task>
        ensures { option_map (λ task. task.now) result ≡ task_of pid self.now.known }
    {
        self.tasks.get(pid)
    }

    /// The pid is known.
    pub fn is_known(&self, pid: Pid) -> bool
        ensures { result ≡ is_known pid self.now.known }
    {
        self.known.has(pid) || self.task_of(pid).is_some()
    }

    /// The user namespace of a process, the initial one where the pid isn't known.
    pub fn space_of(&self, pid: Pid) -> SpaceId
        ensures { result.0 ≡ space_of pid self.now.known }
    {
        match self.task_of(pid) {
            Some(task) => task.space,
            None => SpaceId(0),
        }
    }

    /// The process shares its descriptors.
    pub fn shares_files(&self, pid: Pid) -> bool
        ensures { result ≡ shares_files pid self.now.known }
    {
        match self.task_of(pid) {
            Some(task) => task.shares,
            None => false,
        }
    }

    /// The text that is kept of a process.
    pub fn kept_of(&self, pid: Pid) -> Option<&[u8]>
        ensures { option_map (λ text. text.now) result ≡ kept_of pid self.now.known }
    {
        match self.kept.get(pid) {
            Some(kept) => Some(kept.text()),
            None => None,
        }
    }

    /// The descriptor of that number of a process, where it is followed.
    pub fn descriptor_of(&self, pid: Pid, number: u64) -> Option<Descriptor>
        ensures { result ≡ descriptor_of pid number self.now.known }
    {
        files::descriptor_of(self.files.items(), pid, number)
    }

    /// A descriptor of the process is followed.
    pub fn has_descriptor(&self, pid: Pid) -> bool
        ensures { result ≡ has_descriptor pid self.now.known }
    {
        !self.bare.has(pid) && files::has_any(self.files.items(), pid)
    }

    /// How many descriptors are followed.
    pub fn descriptor_count(&self) -> u128
        ensures { result ≡ length self.now.known.descriptors }
    {
        self.followed
    }
}

// ---- the savepoint

impl Parts {
    /// A savepoint is set.
    pub fn has_savepoint(&self) -> bool
        ensures { result ≡ is_some self.now.saved }
    {
        self.tasks.has_savepoint()
    }

    /// From here on a savepoint is set: all can be rolled back to what is known now.
    pub fn set_savepoint(&mut self)
        requires { self.old.saved ≡ None }
        ensures { self.new ≡ record { known = self.old.known; saved = Some self.old.known } }
    {
        self.tasks.set_savepoint();
        self.kept.set_savepoint();
        self.files.set_savepoint();
        self.saved_followed = self.followed;
        self.saved_spaces = self.spaces;
    }

    /// All is as it was at the savepoint, which isn't set any more. Where none is set all stays as it is. It takes no
    /// memory.
    pub fn roll_back(&mut self)
        ensures back { (p : model.Parts) → self.old.saved ≡ Some p → self.new ≡ record { known = p; saved = None } }
        ensures unset { self.old.saved ≡ None → self.new ≡ self.old }
    {
        if !self.has_savepoint() {
            return;
        }
        self.tasks.roll_back();
        self.kept.roll_back();
        self.files.roll_back();
        self.followed = self.saved_followed;
        self.spaces = self.saved_spaces;
        self.known.renew(self.tasks.items());
        self.bare.clear();
    }

    /// The savepoint isn't set any more, and all is as it is now.
    pub fn release(&mut self)
        ensures { self.new ≡ record { known = self.old.known; saved = None } }
    {
        self.tasks.release();
        self.kept.release();
        self.files.release();
    }
}

// ---- changes of processes and of calls that aren't finished

impl Parts {
    /// The process of that pid is in another user namespace. It fails only where memory runs out, and never where no
    /// savepoint is set.
    pub fn move_to(&mut self, pid: Pid, space: SpaceId) -> Result<(), NoMemory>
        ensures changed { OrNoMemory result (λ _. self.new.known ≡ moved pid space.0 self.old.known) }
        ensures saved { self.new.saved ≡ self.old.saved }
        ensures unchanged { LeftOnErr result self.new self.old }
        ensures never { self.old.saved ≡ None → IsOk result }
    {
        task::move_to(&mut self.tasks, pid, space)?;
        Ok(())
    }

    /// The process of that pid is in a new user namespace, whose number there must be. It fails only where memory runs
    /// out, and never where no savepoint is set.
    pub fn move_to_new(&mut self, pid: Pid) -> Result<(), NoMemory>
        requires { self.old.known.spaces < greatest_number }
        ensures changed { OrNoMemory result (λ _. self.new.known ≡ moved_to_new pid self.old.known) }
        ensures saved { self.new.saved ≡ self.old.saved }
        ensures unchanged { LeftOnErr result self.new self.old }
        ensures never { self.old.saved ≡ None → IsOk result }
    {
        self.move_to(pid, SpaceId(self.spaces))?;
        self.spaces += 1;
        Ok(())
    }

    /// That text of the process is kept too. It fails only where memory runs out, and then leaves all as it was, unless
    /// a savepoint is set.
    #[tactic(auto, using(crate::proofs::Among::put_same))]
    pub fn keep(&mut self, alloc: Global, pid: Pid, text: &[u8]) -> Result<(), NoMemory>
        ensures changed { OrNoMemory result (λ _. self.new.known ≡ keeping pid text.now self.old.known) }
        ensures saved { self.new.saved ≡ self.old.saved }
        ensures unchanged { LeftOnErr result self.new self.old }
    {
        let new = Kept::new(alloc, pid, text)?;
        self.kept.put(new)?;
        Ok(())
    }

    /// No text of the process is kept. It fails only where memory runs out, and never where no savepoint is set.
    pub fn forget_kept(&mut self, pid: Pid) -> Result<(), NoMemory>
        ensures changed { OrNoMemory result (λ _. self.new.known ≡ without_kept pid self.old.known) }
        ensures saved { self.new.saved ≡ self.old.saved }
        ensures unchanged { LeftOnErr result self.new self.old }
        ensures never { self.old.saved ≡ None → IsOk result }
    {
        self.kept.remove(pid)?;
        Ok(())
    }

    /// No text is kept. No savepoint is set.
    pub fn forget_all_kept(&mut self)
        requires { self.old.saved ≡ None }
        ensures { self.new ≡ record { known = without_any_kept self.old.known; saved = None } }
    {
        self.kept.clear();
    }
}

// ---- changes of descriptors

impl Parts {
    /// The descriptor is followed, in the place of any of its number. It fails only where memory runs out, and then
    /// leaves all as it was, unless a savepoint is set.
    pub fn follow(&mut self, alloc: Global, new: Descriptor) -> Result<(), NoMemory>
        ensures changed { OrNoMemory result (λ _. self.new.known ≡ with_descriptor new self.old.known) }
        ensures saved { self.new.saved ≡ self.old.saved }
        ensures unchanged { LeftOnErr result self.new self.old }
    {
        let own = files::count_of(self.files.items(), new.pid);
        file_changes::follow(&mut self.files, alloc, &new)?;
        self.followed = files::count_after(self.files.items(), new.pid, self.followed, own);
        self.bare.forget(new.pid);
        Ok(())
    }

    /// The descriptor isn't followed any more. It fails only where memory runs out, and then leaves all as it was,
    /// unless a savepoint is set.
    pub fn forget_descriptor(
        &mut self,
        alloc: Global,
        pid: Pid,
        number: u64,
    ) -> Result<(), NoMemory>
        ensures changed { OrNoMemory result (λ _. self.new.known ≡ without_descriptor pid number self.old.known) }
        ensures saved { self.new.saved ≡ self.old.saved }
        ensures unchanged { LeftOnErr result self.new self.old }
    {
        if self.bare.has(pid) {
            return Ok(());
        }
        let own = files::count_of(self.files.items(), pid);
        file_changes::forget(&mut self.files, alloc, pid, number)?;
        self.followed = files::count_after(self.files.items(), pid, self.followed, own);
        let any = files::has_any(self.files.items(), pid);
        self.bare.note_if(pid, !any);
        Ok(())
    }

    /// What an execve of the process leaves (execve(2), "Effect on process attributes"). It fails only where memory
    /// runs out, and then leaves all as it was, unless a savepoint is set.
    pub fn execute(&mut self, alloc: Global, pid: Pid) -> Result<(), NoMemory>
        ensures changed { OrNoMemory result (λ _. self.new.known ≡ after_exec pid self.old.known) }
        ensures saved { self.new.saved ≡ self.old.saved }
        ensures unchanged { LeftOnErr result self.new self.old }
    {
        if self.bare.has(pid) {
            return Ok(());
        }
        let own = files::count_of(self.files.items(), pid);
        file_changes::execute(&mut self.files, alloc, pid)?;
        self.followed = files::count_after(self.files.items(), pid, self.followed, own);
        let any = files::has_any(self.files.items(), pid);
        self.bare.note_if(pid, !any);
        Ok(())
    }
}

// ---- births and ends

impl Parts {
    /// What a birth leaves: the child in that user namespace, with the parent's descriptors or with copies of them.
    /// It fails only where memory runs out, and then leaves all as it was, unless a savepoint is set.
    #[tactic(auto, using(crate::proofs::Among::put_same))]
    pub fn bear(
        &mut self,
        alloc: Global,
        parent: Pid,
        child: Pid,
        space: SpaceId,
        shares: bool,
    ) -> Result<(), NoMemory>
        ensures changed { OrNoMemory result (λ _. self.new.known ≡ after_birth parent child space.0 shares self.old.known) }
        ensures saved { self.new.saved ≡ self.old.saved }
        ensures unchanged { LeftOnErr result self.new self.old }
    {
        self.tasks.reserve_one()?;
        let own = files::count_of(self.files.items(), child);
        file_changes::bear_unless(&mut self.files, alloc, parent, child, shares)?;
        self.followed = files::count_after(self.files.items(), child, self.followed, own);
        let any = files::has_any(self.files.items(), child);
        self.bare.note_if(child, !any);
        let born = Task {
            pid: child,
            space,
            shares,
        };
        task::share(&mut self.tasks, parent, shares)?;
        self.tasks.put(born)?;
        self.known.note(child);
        Ok(())
    }

    /// The same of a birth in a new user namespace, whose number there must be. It fails only where memory runs out,
    /// and then leaves all as it was, unless a savepoint is set.
    pub fn bear_in_new(
        &mut self,
        alloc: Global,
        parent: Pid,
        child: Pid,
        shares: bool,
    ) -> Result<(), NoMemory>
        requires { self.old.known.spaces < greatest_number }
        ensures changed { OrNoMemory result (λ _. self.new.known ≡ after_user_birth parent child shares self.old.known) }
        ensures saved { self.new.saved ≡ self.old.saved }
        ensures unchanged { LeftOnErr result self.new self.old }
    {
        self.bear(alloc, parent, child, SpaceId(self.spaces), shares)?;
        self.spaces += 1;
        Ok(())
    }

    /// What the end of a process leaves. It fails only where memory runs out, and never where no savepoint is set.
    pub fn end(&mut self, pid: Pid) -> Result<(), NoMemory>
        ensures changed { OrNoMemory result (λ _. self.new.known ≡ after_end pid self.old.known) }
        ensures saved { self.new.saved ≡ self.old.saved }
        ensures unchanged { LeftOnErr result self.new self.old }
        ensures never { self.old.saved ≡ None → IsOk result }
    {
        self.tasks.remove(pid)?;
        self.known.forget(pid);
        self.kept.remove(pid)?;
        let own = files::count_of(self.files.items(), pid);
        file_changes::remove(&mut self.files, pid)?;
        self.followed = files::count_after(self.files.items(), pid, self.followed, own);
        Ok(())
    }
}
