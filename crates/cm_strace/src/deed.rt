// What a line does, as far as it is done later: what gives an event is done once the event has a place and all memory
// for it is there.
ghost use Rattle.std.specs.Prelude.{◌≡◌};
ghost use Rattle.cm_strace.specs.Deeds.{child_of};

use cm_base::{Limited, LineFault, Pid, Res};
use cm_state::Call;

/// A birth: in a new user namespace or not, with the parent's descriptors shared or not (clone(2), CLONE_NEWUSER,
/// CLONE_FILES).
#[derive(Clone, Copy, Debug)]
pub(crate) struct Birth {
    pub(crate) user: bool,
    pub(crate) shares: bool,
    pub(crate) child: Pid,
}

/// What a line does: nothing more than it has done to the parts; it is refused; it exceeds a limit; or what gives an
/// event: a call with its result, a birth, the end of the process.
#[derive(Debug, Drop)]
pub(crate) enum Deed {
    Quiet,
    Refused(LineFault),
    Exceeds(Limited),
    Does(Call, Res),
    Bears(Birth),
    Ends,
}

impl Deed {
    /// The child of a birth.
    pub(crate) fn child(&self) -> Option<Pid>
        ensures { result ≡ child_of self.now }
    {
        match self {
            Deed::Bears(birth) => Some(birth.child),
            _ => None,
        }
    }
}

/// Whose a line is: its number in the log, the process that it tells of, and whether it is the rest of a call whose
/// beginning is kept: then that text isn't kept any more once the deed is done.
#[derive(Clone, Copy, Debug)]
pub(crate) struct Origin {
    pub(crate) line: u64,
    pub(crate) pid: Pid,
    pub(crate) resumed: bool,
}
