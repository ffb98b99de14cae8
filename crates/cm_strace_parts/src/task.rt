// The processes that are known, by ascending pids.
ghost use Rattle.std.specs.Prelude.{◌≡◌, ◌≤◌, None, map, vec_capacity, IsOk};
ghost use Rattle.cm_base.specs.Outcome.{OrNoMemory, UnchangedOnErr};
ghost use Rattle.cm_ordered.specs.Order.{Ascends};
ghost use Rattle.model_strace.specs.Parts.{first_task, task_before, moved_task, sharing_task};

use cm_base::{NoMemory, Pid, SpaceId};
use cm_ordered::{Copied, Numbered, Tracked};
use cm_state::Proc;
use std::alloc::Global;
use std::marker::Model;

/// A process: its pid, the number of its user namespace, and whether it shares its descriptors, since it was born so
/// or has given such a birth (clone(2), CLONE_FILES).
#[derive(Clone, Copy, Debug)]
pub struct Task {
    pub pid: Pid,
    pub space: SpaceId,
    pub shares: bool,
}

impl Model for Task {
    ghost use Rattle.model_strace.specs.Parts as model;

    ghost Value = { model.Task };

    ghost view = { λ task. record { pid = task.pid; space = task.space.0; shares = task.shares } };

    ghost inverse = { λ task. record { pid = task.pid; space = record { 0 = task.space }; shares = task.shares } };
}

impl Numbered for Task {
    ghost number = { λ task. task.pid };

    fn number(&self) -> u64 {
        u64::from(self.pid.number())
    }
}

impl Copied for Task {
    fn copy(&self) -> Result<Task, NoMemory> {
        Ok(*self)
    }
}

// The processes of a world's start. It fails only where memory runs out.
pub(crate) fn first_tasks(alloc: Global, list: &[Proc]) -> Result<Vec<Task>, NoMemory>
    ensures { OrNoMemory result (λ made. made.items ≡ map first_task list.now) }
{
    let mut made = Vec::with_capacity(alloc, list.len())?;
    for p in list {
        let task = Task {
            pid: p.pid,
            space: p.space,
            shares: false,
        };
        made.push(task)?;
    }
    Ok(made)
}

// The process of that pid in another user namespace. It fails only where memory runs out, and then leaves all as it
// was; never where no savepoint is set.
pub(crate) fn move_to(tasks: &mut Tracked<Task>, pid: Pid, space: SpaceId) -> Result<(), NoMemory>
    ensures items { OrNoMemory result (λ _. tasks.new.items ≡ map (moved_task pid space.0) tasks.old.items) }
    ensures saved { tasks.new.saved ≡ tasks.old.saved }
    ensures unchanged { UnchangedOnErr result tasks.new.items tasks.old.items }
    ensures never { tasks.old.saved ≡ None → IsOk result }
{
    tasks.undo.save(&tasks.list, pid)?;
    move_in(&mut tasks.list, pid, space);
    Ok(())
}

// The same in the list.
fn move_in(list: &mut Vec<Task>, pid: Pid, space: SpaceId)
    requires { Ascends task_before list.old.items }
    ensures items { list.new.items ≡ map (moved_task pid space.0) list.old.items }
    ensures ascends { Ascends task_before list.new.items }
    ensures capacity { vec_capacity list.old ≤ vec_capacity list.new }
{
    match cm_ordered::find(list, pid) {
        Some(at) => {
            let task = &mut list[at];
            task.space = space;
        }
        None => {}
    }
}

// The process of that pid shares its descriptors, if it gives such a birth. It fails only where memory runs out, and
// then leaves all as it was; never where no savepoint is set.
pub(crate) fn share(tasks: &mut Tracked<Task>, pid: Pid, shares: bool) -> Result<(), NoMemory>
    ensures items { OrNoMemory result (λ _. tasks.new.items ≡ map (sharing_task pid shares) tasks.old.items) }
    ensures saved { tasks.new.saved ≡ tasks.old.saved }
    ensures unchanged { UnchangedOnErr result tasks.new.items tasks.old.items }
    ensures never { tasks.old.saved ≡ None → IsOk result }
    ensures room { tasks.old.room ≤ tasks.new.room }
{
    tasks.undo.save(&tasks.list, pid)?;
    share_in(&mut tasks.list, pid, shares);
    Ok(())
}

// The same in the list.
fn share_in(list: &mut Vec<Task>, pid: Pid, shares: bool)
    requires { Ascends task_before list.old.items }
    ensures items { list.new.items ≡ map (sharing_task pid shares) list.old.items }
    ensures ascends { Ascends task_before list.new.items }
    ensures capacity { vec_capacity list.old ≤ vec_capacity list.new }
{
    match cm_ordered::find(list, pid) {
        Some(at) => {
            let task = &mut list[at];
            task.shares |= shares;
        }
        None => {}
    }
}
