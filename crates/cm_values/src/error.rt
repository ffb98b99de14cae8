// Why a row is refused, and out of memory as one of these reasons.
ghost use Rattle.std.specs.Prelude.{◌≡◌};
ghost use Rattle.cm_values.specs.declared.error.RowError.TheVariants.{NoMemory};

use cm_base::{Limited, NoMemory, WorldFault};
use std::alloc::{AllocError, AllocFailed};

/// Why a row is refused.
#[derive(Clone, Copy, Debug, PartialEq, Eq)]
pub enum RowError {
    /// It has the fault.
    Fault(WorldFault),
    /// A list of it is past the limit.
    Limit(Limited),
    /// There was no memory to read it, which says nothing of the row.
    NoMemory,
}

impl From<AllocError> for RowError {
    ghost from_gives = { λ _ e. e ≡ NoMemory };

    fn from(_: AllocError) -> RowError {
        RowError::NoMemory
    }
}

impl<T: Drop> From<AllocFailed<T>> for RowError {
    ghost from_gives = { λ _ e. e ≡ NoMemory };

    fn from(_: AllocFailed<T>) -> RowError {
        RowError::NoMemory
    }
}

impl From<NoMemory> for RowError {
    ghost from_gives = { λ _ e. e ≡ NoMemory };

    fn from(_: NoMemory) -> RowError {
        RowError::NoMemory
    }
}
