// What a line of a call tells.
ghost use Rattle.std.specs.Prelude.{◌≡◌};
ghost use Rattle.cm_strace_calls.specs.Told.{opening_is};

use cm_base::{Limited, LineFault, Res};
use cm_state::Call;
use cm_strace_values::{Outcome, has_flag};

/// The open of a file: its path as it stands in quotes, and its flags.
#[derive(Clone, Copy, Debug)]
pub struct Opening<'a> {
    pub path: &'a [u8],
    pub flags: &'a [u8],
}

impl<'a> Opening<'a> {
    /// The file is opened for writing (open(2), "DESCRIPTION").
    pub fn writes(self) -> bool
        ensures { result ≡ (opening_is self.entry).writes }
    {
        has_flag(b"O_WRONLY", self.flags) || has_flag(b"O_RDWR", self.flags)
    }

    /// An execve closes it (open(2), O_CLOEXEC).
    pub fn until_exec(self) -> bool
        ensures { result ≡ (opening_is self.entry).until_exec }
    {
        has_flag(b"O_CLOEXEC", self.flags)
    }
}

/// What a line tells.
#[derive(Debug, Drop)]
pub enum Told<'a> {
    /// Nothing.
    Nothing,
    /// The line has that fault.
    Faulty(LineFault),
    /// It exceeds that limit.
    Exceeds(Limited),
    /// A call with its result.
    Does(Call, Res),
    /// A birth: whether in a new user namespace, and whether with the parent's descriptors shared (clone(2),
    /// CLONE_NEWUSER, CLONE_FILES).
    Bears(bool, bool, Res),
    /// A setns on a descriptor, whose number may be one that can't be read, with these flags.
    Joins(Option<u32>, &'a [u8], Outcome),
    /// A file was opened as that descriptor.
    Opens(Opening<'a>, u64),
    /// That descriptor was closed.
    Closes(u32),
    /// That descriptor was copied.
    Copies(u32),
    /// One was copied to that descriptor.
    CopiesTo(Option<u32>, u64),
    /// That descriptor was written to: the arguments after its number.
    Writes(u32, Option<&'a [u8]>, Outcome),
}
