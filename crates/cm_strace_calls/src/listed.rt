// The calls that are read.
ghost use Rattle.std.specs.Prelude.{IsTrue};
ghost use Rattle.cm_strace_calls.specs.Made.{is_fit};

use cm_filter::CallKind;

/// What the lines of a call are read for: those of the calls that set ids each for its own kind.
#[derive(Clone, Copy, Debug)]
pub enum ReadFor {
    SetsIds(CallKind),
    SetsGroups,
    SetsCaps,
    Prctl,
    Birth,
    Unshare,
    SetNs,
    Execve,
    ExecveAt,
    OpenFile,
    OpenAt,
    Creat,
    Close,
    Dup,
    DupTo,
    Fcntl,
    Write,
}

/// A call that is read. The arguments of one that sets ids are one, two or three ids.
#[derive(Clone, Copy, Debug)]
pub struct Listed {
    pub read_for: ReadFor,
    ghost fit: { IsTrue (is_fit read_for) },
}
