// Why a line is read as no event.
ghost use Rattle.std.specs.Prelude.{◌≡◌};
ghost use Rattle.cm_script.specs.declared.error.LineError.TheVariants.{Bad, NoMemory};

use cm_base::{Limited, LineFault, NoMemory};
use std::alloc::AllocFailed;

/// Why a line isn't read.
#[derive(Clone, Copy, Debug, PartialEq, Eq)]
pub enum LineError {
    /// The line has this fault.
    Bad(LineFault),
    /// The line has no fault, and exceeds this limit.
    Limit(Limited),
    /// There was no memory to read it, which says nothing of the line.
    NoMemory,
}

impl From<NoMemory> for LineError {
    ghost from_gives = { λ _ e. e ≡ NoMemory };

    fn from(_: NoMemory) -> LineError {
        LineError::NoMemory
    }
}

impl From<LineFault> for LineError {
    ghost from_gives = { λ why e. e ≡ Bad why };

    fn from(why: LineFault) -> LineError {
        LineError::Bad(why)
    }
}

impl<T: Drop> From<AllocFailed<T>> for LineError {
    ghost from_gives = { λ _ e. e ≡ NoMemory };

    fn from(_: AllocFailed<T>) -> LineError {
        LineError::NoMemory
    }
}
