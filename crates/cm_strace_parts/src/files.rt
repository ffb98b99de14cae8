// The descriptors that are followed, in a list for each process that has some, by ascending pids, and what is asked of
// them. A copy shares the lists, as what is saved does, and so does a child that has copies of its parent's: each is
// copied once it is changed.
ghost use Rattle.std.specs.Prelude.{◌≡◌, ◌+◌, ◌∷◌, [], find, filter, not, length, IfSome, IfNone, option_map};
ghost use Rattle.std.specs.List.{list_any};
ghost use Rattle.cm_base.specs.Outcome.{OrNoMemory, UnchangedOnErr};
ghost use Rattle.cm_ordered.specs.Order.{Ascends, put_by};
ghost use Rattle.cm_strace_parts.specs.Lists.{is_fd, fd_before, fd_number, files_before, fds_of, descriptors_in};
ghost use Rattle.cm_strace_parts.specs.Lists.{ListsInOrder};
ghost use Rattle.model_strace.specs.Parts.{is_descriptor, is_of, put_all};

use crate::descriptor::Descriptor;
use crate::fd;
use crate::fd::Fd;
use cm_base::{NoMemory, Pid};
use cm_ordered::{Copied, Numbered};
use std::alloc::Global;
use std::marker::Model;
use std::rc::Rc;

/// The descriptors of a process, and how many there are.
#[derive(Debug, Drop)]
pub struct FdList {
    pid: Pid,
    len: usize,
    fds: Rc<Vec<Fd>>,
}

impl Model for FdList {
    ghost use Rattle.std.specs.Prelude.{◌≡◌, length};
    ghost use Rattle.cm_strace_parts.specs.Lists as lists;

    ghost Value = { lists.FdList };

    ghost view = { λ f. record { pid = f.pid; fds = f.fds.value.items } };

    ghost invariant = { λ f. f.len ≡ length f.fds.value.items };
}

// ---- those of a process

impl FdList {
    // One descriptor of a process. It fails only where memory runs out.
    pub(crate) fn one(alloc: Global, pid: Pid, new: Fd) -> Result<FdList, NoMemory>
        ensures { OrNoMemory result (λ f. f ≡ record { pid = pid; fds = new ∷ [] }) }
    {
        let mut list = Vec::new(alloc);
        list.push(new)?;
        let fds = Rc::new(alloc, list)?;
        Ok(FdList::of(pid, fds))
    }

    // That list of a process.
    pub(crate) fn of(pid: Pid, fds: Rc<Vec<Fd>>) -> FdList
        ensures { result ≡ record { pid = pid; fds = fds.value.items } }
    {
        let len = fd::count(&fds);
        FdList { pid, len, fds }
    }

    // The list, shared. It fails only where memory runs out.
    pub(crate) fn share(&self) -> Result<Rc<Vec<Fd>>, NoMemory>
        ensures { OrNoMemory result (λ fds. fds.value.items ≡ self.now.fds) }
    {
        Ok(self.fds.clone()?)
    }

    // How many there are.
    fn len(&self) -> usize
        ensures { result ≡ length self.now.fds }
    {
        self.len
    }

    // The list.
    pub(crate) fn list(&self) -> &[Fd]
        ensures { result.now ≡ self.now.fds }
    {
        &self.fds
    }

    // The descriptor in its place, instead of that of its number. It fails only where memory runs out, and then leaves
    // all as it was.
    pub(crate) fn put(&mut self, alloc: Global, new: Fd) -> Result<(), NoMemory>
        requires { Ascends fd_before self.old.fds }
        ensures items { OrNoMemory result (λ _. self.new ≡ record self.old { fds = put_by fd_number new self.old.fds }) }
        ensures unchanged { UnchangedOnErr result self.new self.old }
    {
        match Rc::get_mut(&mut self.fds) {
            Some(list) => cm_ordered::put(list, new)?,
            None => {
                let mut list = fd::copy_list(alloc, &self.fds)?;
                cm_ordered::put(&mut list, new)?;
                self.fds = Rc::new(alloc, list)?;
            }
        }
        self.len = fd::count(&self.fds);
        Ok(())
    }

    // Copies of descriptors, each in its place: their list where there are no other ones. It fails only where memory
    // runs out, and then leaves all as it was.
    pub(crate) fn put_all(&mut self, alloc: Global, news: Rc<Vec<Fd>>) -> Result<(), NoMemory>
        requires ascends { Ascends fd_before self.old.fds }
        requires up { Ascends fd_before news.value.items }
        ensures items { OrNoMemory result (λ _. self.new
            ≡ record self.old { fds = put_all fd_before news.value.items self.old.fds }) }
        ensures unchanged { UnchangedOnErr result self.new self.old }
    {
        if self.list().is_empty() {
            self.len = fd::count(&news);
            self.fds = news;
            return Ok(());
        }
        let mut list = fd::copy_list(alloc, &self.fds)?;
        fd::put_all(&mut list, &news)?;
        let len = fd::count(&list);
        self.fds = Rc::new(alloc, list)?;
        self.len = len;
        Ok(())
    }

    // That descriptor isn't followed any more. It fails only where memory runs out, and then leaves all as it was.
    pub(crate) fn forget(&mut self, alloc: Global, number: u64) -> Result<(), NoMemory>
        requires { Ascends fd_before self.old.fds }
        ensures items { OrNoMemory result (λ _. self.new
            ≡ record self.old { fds = filter (λ fd. not (is_fd number fd)) self.old.fds }) }
        ensures unchanged { UnchangedOnErr result self.new self.old }
    {
        if cm_ordered::get(&self.fds, number).is_none() {
            return Ok(());
        }
        match Rc::get_mut(&mut self.fds) {
            Some(list) => cm_ordered::remove(list, number),
            None => {
                let mut list = fd::copy_list(alloc, &self.fds)?;
                cm_ordered::remove(&mut list, number);
                self.fds = Rc::new(alloc, list)?;
            }
        }
        self.len = fd::count(&self.fds);
        Ok(())
    }

    // What an execve leaves. It fails only where memory runs out, and then leaves all as it was.
    pub(crate) fn execute(&mut self, alloc: Global) -> Result<(), NoMemory>
        ensures items { OrNoMemory result (λ _. self.new
            ≡ record self.old { fds = filter (λ fd. not fd.until_exec) self.old.fds }) }
        ensures unchanged { UnchangedOnErr result self.new self.old }
    {
        if !fd::any_until_exec(&self.fds) {
            return Ok(());
        }
        match Rc::get_mut(&mut self.fds) {
            Some(list) => fd::close_at_exec(list),
            None => {
                let mut list = fd::copy_list(alloc, &self.fds)?;
                fd::close_at_exec(&mut list);
                self.fds = Rc::new(alloc, list)?;
            }
        }
        self.len = fd::count(&self.fds);
        Ok(())
    }
}

impl Numbered for FdList {
    ghost number = { λ files. files.pid };

    fn number(&self) -> u64 {
        u64::from(self.pid.number())
    }
}

// A copy has the same list.
impl Copied for FdList {
    fn copy(&self) -> Result<FdList, NoMemory> {
        let fds = self.fds.clone()?;
        Ok(FdList {
            pid: self.pid,
            len: self.len,
            fds,
        })
    }
}

// ---- those of all processes

// The descriptors of a process, where it has a list.
pub(crate) fn of_process(list: &[FdList], pid: Pid) -> Option<&FdList>
    requires { Ascends files_before list.now }
    ensures some { IfSome result (λ f. f.now.fds ≡ fds_of pid list.now) }
    ensures none { IfNone result (fds_of pid list.now ≡ []) }
{
    match cm_ordered::find(list, pid) {
        Some(at) => Some(&list[at]),
        None => None,
    }
}

// The descriptor of that number of a process, where it is followed, without the process.
fn fd_of(list: &[FdList], pid: Pid, number: u64) -> Option<&Fd>
    requires { ListsInOrder list.now }
    ensures { option_map (λ fd. fd.now) result ≡ find (is_fd number) (fds_of pid list.now) }
{
    match of_process(list, pid) {
        Some(files) => cm_ordered::get(files.list(), number),
        None => None,
    }
}

// The descriptor of that number of a process, where it is followed.
pub(crate) fn descriptor_of(list: &[FdList], pid: Pid, number: u64) -> Option<Descriptor>
    requires { ListsInOrder list.now }
    ensures { result ≡ find (is_descriptor pid number) (descriptors_in list.now) }
{
    match fd_of(list, pid, number) {
        Some(fd) => Some(fd.descriptor(pid)),
        None => None,
    }
}

// A descriptor of the process is followed.
pub(crate) fn has_any(list: &[FdList], pid: Pid) -> bool
    requires { ListsInOrder list.now }
    ensures { result ≡ list_any (is_of pid) (descriptors_in list.now) }
{
    match of_process(list, pid) {
        Some(files) => !files.list().is_empty(),
        None => false,
    }
}

// How many descriptors are followed, summed up.
fn count(list: &[FdList]) -> u128
    ensures { result ≡ length (descriptors_in list.now) }
{
    let mut sum = 0;
    for files in list {
        sum += files.len() as u128;
    }
    sum
}

// How many descriptors of the process are followed.
pub(crate) fn count_of(list: &[FdList], pid: Pid) -> u128
    requires { ListsInOrder list.now }
    ensures { result ≡ length (filter (is_of pid) (descriptors_in list.now)) }
{
    match of_process(list, pid) {
        Some(files) => files.len() as u128,
        None => 0,
    }
}

// How many descriptors are followed, where those of one process alone have changed, of so many in all and of its own
// before. A sum that passes its type's end is made anew.
pub(crate) fn count_after(list: &[FdList], pid: Pid, all: u128, own: u128) -> u128
    requires ordered { ListsInOrder list.now }
    requires changed { length (descriptors_in list.now) + own ≡ all + length (filter (is_of pid) (descriptors_in list.now)) }
    ensures { result ≡ length (descriptors_in list.now) }
{
    match all.checked_add(count_of(list, pid)) {
        Some(sum) => sum - own,
        None => count(list),
    }
}
