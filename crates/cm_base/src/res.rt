// What a call answers, and what an execve names.
use crate::{Errno, Pid};

/// What a call answers.
#[derive(Clone, Copy, Debug, PartialEq, Eq)]
pub enum Res {
    /// It is done, and answers nothing else.
    Done,
    /// The id that stood before (setfsuid(2), setfsgid(2)).
    Id(u32),
    /// The pid of the child that it made (fork(2), clone(2)).
    Child(Pid),
    /// It is refused.
    Err(Errno),
}

/// What an execve names (execve(2)).
#[derive(Clone, Copy, Debug, PartialEq, Eq)]
pub enum FileRef {
    /// The row of that number in the table of files.
    Row(u32),
    /// A file that the table doesn't have: without set-user-ID, set-group-ID or capabilities.
    Plain,
}
