// The descriptors of one process that are followed, by ascending numbers.
ghost use Rattle.std.specs.Prelude.{◌≡◌, filter, not, length};
ghost use Rattle.std.specs.List.{list_any};
ghost use Rattle.cm_base.specs.Outcome.{OrNoMemory};
ghost use Rattle.cm_strace_parts.specs.Lists.{of_process, fd_of, fd_before};
ghost use Rattle.cm_ordered.specs.Order.{Ascends};
ghost use Rattle.model_strace.specs.Parts.{put_all};

use crate::descriptor::Descriptor;
use cm_base::{NoMemory, Pid, SpaceId};
use cm_ordered::Numbered;
use cm_strace_values::Followed;
use std::alloc::Global;
use std::marker::Model;

/// A descriptor of a process: its number, the file that it is for, the user namespace of that file's process at the
/// open, and whether an execve closes it.
#[derive(Debug, Drop)]
pub struct Fd {
    number: u64,
    file: Followed,
    space: SpaceId,
    until_exec: bool,
}

impl Model for Fd {
    ghost use Rattle.cm_strace_values.specs.Paths.{followed_is};
    ghost use Rattle.cm_strace_parts.specs.Lists as lists;

    ghost Value = { lists.Fd };

    ghost view = { λ fd. record {
      number = fd.number;
      file = followed_is fd.file;
      space = fd.space.0;
      until_exec = fd.until_exec;
    } };
}

impl Fd {
    // The descriptor without its process.
    pub(crate) fn of(d: &Descriptor) -> Fd
        ensures { result ≡ fd_of d.now }
    {
        Fd {
            number: d.number,
            file: d.file,
            space: d.space,
            until_exec: d.until_exec,
        }
    }

    // The descriptor as that of a process.
    pub(crate) fn descriptor(&self, pid: Pid) -> Descriptor
        ensures { result ≡ of_process pid self.now }
    {
        Descriptor {
            pid,
            number: self.number,
            file: self.file,
            space: self.space,
            until_exec: self.until_exec,
        }
    }

    // The same descriptor.
    fn copy(&self) -> Fd
        ensures { result ≡ self.now }
    {
        Fd {
            number: self.number,
            file: self.file,
            space: self.space,
            until_exec: self.until_exec,
        }
    }
}

impl Numbered for Fd {
    ghost number = { λ fd. fd.number };

    fn number(&self) -> u64 {
        self.number
    }
}

// The same descriptors. It fails only where memory runs out.
pub(crate) fn copy_list(alloc: Global, list: &[Fd]) -> Result<Vec<Fd>, NoMemory>
    ensures { OrNoMemory result (λ made. made.items ≡ list.now) }
{
    let mut made = Vec::with_capacity(alloc, list.len())?;
    for fd in list {
        made.push(fd.copy())?;
    }
    Ok(made)
}

// How many descriptors there are.
pub(crate) fn count(list: &[Fd]) -> usize
    ensures { result ≡ length list.now }
{
    list.len()
}

// An execve closes one of the descriptors.
pub(crate) fn any_until_exec(list: &[Fd]) -> bool
    ensures { result ≡ list_any (λ fd. fd.until_exec) list.now }
{
    list.iter().any(|fd| fd.until_exec)
}

// Copies of descriptors, each in its place. It fails only where memory runs out.
pub(crate) fn put_all(list: &mut Vec<Fd>, news: &[Fd]) -> Result<(), NoMemory>
    requires { Ascends fd_before list.old.items }
    ensures items { OrNoMemory result (λ _. list.new.items ≡ put_all fd_before news.now list.old.items) }
{
    for fd in news {
        cm_ordered::put(list, fd.copy())?;
    }
    Ok(())
}

// What an execve leaves.
pub(crate) fn close_at_exec(list: &mut Vec<Fd>)
    ensures { list.new.items ≡ filter (λ fd. not fd.until_exec) list.old.items }
{
    list.retain(|fd| !fd.until_exec);
}
