// A descriptor that is followed.
use cm_base::{Pid, SpaceId};
use cm_strace_values::Followed;
use std::marker::Model;

/// A descriptor that is followed: whose it is, its number, the file that it is for, the user namespace of that file's
/// process at the open, and whether an execve closes it.
#[derive(Debug, Drop)]
pub struct Descriptor {
    pub pid: Pid,
    pub number: u64,
    pub file: Followed,
    pub space: SpaceId,
    pub until_exec: bool,
}

impl Model for Descriptor {
    ghost use Rattle.cm_strace_values.specs.Paths.{followed_is};
    ghost use Rattle.model_strace.specs.Parts as model;

    ghost Value = { model.Descriptor };

    ghost view = { λ d. record {
      pid = d.pid;
      number = d.number;
      file = followed_is d.file;
      space = d.space.0;
      until_exec = d.until_exec;
    } };
}
