// The changes of the descriptors that are followed. Each saves first the list of the process whose descriptors change,
// where a savepoint is set, and leaves those of the other processes as they are.
ghost use Rattle.std.specs.Prelude.{◌≡◌, ℕ, ◌==◌, ◌≤◌, filter, map, not, length, None, if◌then◌else◌, vec_capacity};
ghost use Rattle.std.specs.Prelude.{IsOk};
ghost use Rattle.cm_base.specs.Outcome.{OrNoMemory, UnchangedOnErr};
ghost use Rattle.cm_strace_parts.specs.Lists.{fd_before, fd_number, files_pid, is_files, of_process, fds_of};
ghost use Rattle.cm_strace_parts.specs.Lists.{descriptors_in, ListsInOrder};
ghost use Rattle.cm_ordered.specs.Order.{Ascends, StandsAt, is_at, others_by, put_by};
ghost use Rattle.model_strace.specs.Parts.{is_descriptor, is_of, is_closed_at_exec, copied_to, descriptor_before};
ghost use Rattle.model_strace.specs.Parts.{put, put_all};

use crate::descriptor::Descriptor;
use crate::fd::Fd;
use crate::files;
use crate::files::FdList;
use cm_base::{NoMemory, Pid};
use cm_ordered::Tracked;
use std::alloc::Global;
use std::rc::Rc;

// The descriptor is followed, in the place of any of its number. It fails only where memory runs out, and then leaves
// all as it was.
pub(crate) fn follow(
    files: &mut Tracked<FdList>,
    alloc: Global,
    new: &Descriptor,
) -> Result<(), NoMemory>
    requires { ListsInOrder files.old.items }
    ensures items { OrNoMemory result (λ _. descriptors_in files.new.items
        ≡ put descriptor_before new.now (descriptors_in files.old.items)) }
    ensures saved { files.new.saved ≡ files.old.saved }
    ensures unchanged { UnchangedOnErr result files.new.items files.old.items }
    ensures ordered { ListsInOrder files.new.items }
{
    files.undo.save(&files.list, new.pid)?;
    put_fd(&mut files.list, alloc, new.pid, Fd::of(new))
}

// The descriptor in its place among those of the process. It fails only where memory runs out, and then leaves all as
// it was.
fn put_fd(list: &mut Vec<FdList>, alloc: Global, pid: Pid, new: Fd) -> Result<(), NoMemory>
    requires { ListsInOrder list.old.items }
    ensures items { OrNoMemory result (λ _. list.new.items ≡ put_by files_pid
        (record { pid = pid; fds = put_by fd_number new (fds_of pid list.old.items) }) list.old.items) }
    ensures unchanged { UnchangedOnErr result list.new.items list.old.items }
    ensures capacity { vec_capacity list.old ≤ vec_capacity list.new }
{
    let at = cm_ordered::place(list, pid);
    if cm_ordered::is_at(list, at, pid) {
        list[at].put(alloc, new)?;
    } else {
        let files = FdList::one(alloc, pid, new)?;
        list.insert(at, files)?;
    }
    Ok(())
}

// A child has copies of its parent's descriptors. It fails only where memory runs out, and then leaves all as it was.
fn bear(files: &mut Tracked<FdList>, alloc: Global, parent: Pid, child: Pid) -> Result<(), NoMemory>
    requires { ListsInOrder files.old.items }
    ensures items { OrNoMemory result (λ _. descriptors_in files.new.items ≡ put_all descriptor_before
        (map (copied_to child) (filter (is_of parent) (descriptors_in files.old.items)))
        (descriptors_in files.old.items)) }
    ensures saved { files.new.saved ≡ files.old.saved }
    ensures unchanged { UnchangedOnErr result files.new.items files.old.items }
    ensures ordered { ListsInOrder files.new.items }
{
    match files::of_process(files.items(), parent) {
        Some(own) => {
            let news = own.share()?;
            put_copies(files, alloc, child, news)
        }
        None => Ok(()),
    }
}

// The same, unless the child shares them.
pub(crate) fn bear_unless(
    files: &mut Tracked<FdList>,
    alloc: Global,
    parent: Pid,
    child: Pid,
    shares: bool,
) -> Result<(), NoMemory>
    requires { ListsInOrder files.old.items }
    ensures items { OrNoMemory result (λ _. descriptors_in files.new.items
        ≡ (if shares then descriptors_in files.old.items else put_all descriptor_before
        (map (copied_to child) (filter (is_of parent) (descriptors_in files.old.items)))
        (descriptors_in files.old.items))) }
    ensures saved { files.new.saved ≡ files.old.saved }
    ensures unchanged { UnchangedOnErr result files.new.items files.old.items }
    ensures ordered { ListsInOrder files.new.items }
{
    if shares {
        return Ok(());
    }
    bear(files, alloc, parent, child)
}

// Copies of descriptors in their places among those of the process. It fails only where memory runs out, and then
// leaves all as it was.
fn put_copies(
    files: &mut Tracked<FdList>,
    alloc: Global,
    pid: Pid,
    news: Rc<Vec<Fd>>,
) -> Result<(), NoMemory>
    requires ordered { ListsInOrder files.old.items }
    requires up { Ascends fd_before news.value.items }
    ensures items { OrNoMemory result (λ _. descriptors_in files.new.items
        ≡ put_all descriptor_before (map (of_process pid) news.value.items) (descriptors_in files.old.items)) }
    ensures saved { files.new.saved ≡ files.old.saved }
    ensures unchanged { UnchangedOnErr result files.new.items files.old.items }
    ensures ordered { ListsInOrder files.new.items }
{
    files.undo.save(&files.list, pid)?;
    put_fds(&mut files.list, alloc, pid, news)
}

// The same in the lists.
fn put_fds(
    list: &mut Vec<FdList>,
    alloc: Global,
    pid: Pid,
    news: Rc<Vec<Fd>>,
) -> Result<(), NoMemory>
    requires ordered { ListsInOrder list.old.items }
    requires up { Ascends fd_before news.value.items }
    ensures items { OrNoMemory result (λ _. list.new.items ≡ put_by files_pid
        (record { pid = pid; fds = put_all fd_before news.value.items (fds_of pid list.old.items) }) list.old.items) }
    ensures unchanged { UnchangedOnErr result list.new.items list.old.items }
    ensures capacity { vec_capacity list.old ≤ vec_capacity list.new }
{
    let at = cm_ordered::place(list, pid);
    if cm_ordered::is_at(list, at, pid) {
        list[at].put_all(alloc, news)?;
    } else {
        list.insert(at, FdList::of(pid, news))?;
    }
    Ok(())
}

// That descriptor isn't followed any more. It fails only where memory runs out, and then leaves all as it was.
pub(crate) fn forget(
    files: &mut Tracked<FdList>,
    alloc: Global,
    pid: Pid,
    number: u64,
) -> Result<(), NoMemory>
    requires { ListsInOrder files.old.items }
    ensures items { OrNoMemory result (λ _. descriptors_in files.new.items
        ≡ filter (λ d. not (is_descriptor pid number d)) (descriptors_in files.old.items)) }
    ensures saved { files.new.saved ≡ files.old.saved }
    ensures unchanged { UnchangedOnErr result files.new.items files.old.items }
    ensures ordered { ListsInOrder files.new.items }
{
    files.undo.save(&files.list, pid)?;
    forget_in(&mut files.list, alloc, pid, number)
}

// The same in the lists.
fn forget_in(list: &mut Vec<FdList>, alloc: Global, pid: Pid, number: u64) -> Result<(), NoMemory>
    requires { ListsInOrder list.old.items }
    ensures items { OrNoMemory result (λ _. descriptors_in list.new.items
        ≡ filter (λ d. not (is_descriptor pid number d)) (descriptors_in list.old.items)) }
    ensures unchanged { UnchangedOnErr result list.new.items list.old.items }
    ensures ordered { ListsInOrder list.new.items }
    ensures others { others_by files_pid pid list.new.items ≡ others_by files_pid pid list.old.items }
    ensures capacity { vec_capacity list.old ≤ vec_capacity list.new }
{
    let at = cm_ordered::place(list, pid);
    if cm_ordered::is_at(list, at, pid) {
        list[at].forget(alloc, number)?;
        drop_empty(list, at);
    }
    Ok(())
}

// What an execve of the process leaves. It fails only where memory runs out, and then leaves all as it was.
pub(crate) fn execute(files: &mut Tracked<FdList>, alloc: Global, pid: Pid) -> Result<(), NoMemory>
    requires { ListsInOrder files.old.items }
    ensures items { OrNoMemory result (λ _. descriptors_in files.new.items
        ≡ filter (λ d. not (is_closed_at_exec pid d)) (descriptors_in files.old.items)) }
    ensures saved { files.new.saved ≡ files.old.saved }
    ensures unchanged { UnchangedOnErr result files.new.items files.old.items }
    ensures ordered { ListsInOrder files.new.items }
{
    files.undo.save(&files.list, pid)?;
    execute_in(&mut files.list, alloc, pid)
}

// The same in the lists.
fn execute_in(list: &mut Vec<FdList>, alloc: Global, pid: Pid) -> Result<(), NoMemory>
    requires { ListsInOrder list.old.items }
    ensures items { OrNoMemory result (λ _. descriptors_in list.new.items
        ≡ filter (λ d. not (is_closed_at_exec pid d)) (descriptors_in list.old.items)) }
    ensures unchanged { UnchangedOnErr result list.new.items list.old.items }
    ensures ordered { ListsInOrder list.new.items }
    ensures others { others_by files_pid pid list.new.items ≡ others_by files_pid pid list.old.items }
    ensures capacity { vec_capacity list.old ≤ vec_capacity list.new }
{
    let at = cm_ordered::place(list, pid);
    if cm_ordered::is_at(list, at, pid) {
        list[at].execute(alloc)?;
        drop_empty(list, at);
    }
    Ok(())
}

// There are no descriptors in the list at the place.
fn is_empty_at(list: &[FdList], at: usize) -> bool
    ensures { result ≡ is_at (λ f. length f.fds == 0) list.now at }
{
    match list.get(at) {
        Some(files) => files.list().is_empty(),
        None => false,
    }
}

// The list at the place goes if it has no descriptors.
fn drop_empty(list: &mut Vec<FdList>, at: usize)
    requires { ListsInOrder list.old.items }
    ensures items { descriptors_in list.new.items ≡ descriptors_in list.old.items }
    ensures ordered { ListsInOrder list.new.items }
    ensures others { (pid : ℕ) → StandsAt (is_files pid) list.old.items at
        → others_by files_pid pid list.new.items ≡ others_by files_pid pid list.old.items }
    ensures capacity { vec_capacity list.old ≤ vec_capacity list.new }
{
    if is_empty_at(list, at) {
        list.remove(at);
    }
}

// None of the process is followed any more. It fails only where memory runs out, and then leaves all as it was; never
// where no savepoint is set.
pub(crate) fn remove(files: &mut Tracked<FdList>, pid: Pid) -> Result<(), NoMemory>
    requires { ListsInOrder files.old.items }
    ensures items { OrNoMemory result (λ _. descriptors_in files.new.items
        ≡ filter (λ d. not (is_of pid d)) (descriptors_in files.old.items)) }
    ensures saved { files.new.saved ≡ files.old.saved }
    ensures unchanged { UnchangedOnErr result files.new.items files.old.items }
    ensures ordered { ListsInOrder files.new.items }
    ensures never { files.old.saved ≡ None → IsOk result }
{
    files.remove(pid)?;
    Ok(())
}
