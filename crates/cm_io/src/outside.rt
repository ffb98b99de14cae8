// How the outside fails: a device gives up, or there is no memory for what is asked.
ghost use Rattle.std.specs.Prelude.{◌≡◌};
ghost use Rattle.cm_io.specs.declared.outside.Outside.TheVariants.{NoMemory as OutOfMemory};

use std::alloc::{AllocError, AllocFailed};

/// There is no memory for what was asked.
#[derive(Clone, Copy, Debug, PartialEq, Eq)]
pub struct NoMemory;

impl From<AllocError> for NoMemory {
    fn from(_: AllocError) -> NoMemory {
        NoMemory
    }
}

impl<T: Drop> From<AllocFailed<T>> for NoMemory {
    fn from(_: AllocFailed<T>) -> NoMemory {
        NoMemory
    }
}

/// Why a call of a shelf or a sink gave nothing.
#[derive(Clone, Copy, Debug, PartialEq, Eq)]
pub enum Outside {
    /// The device failed, and a count of faults rose.
    Failed,
    /// The object itself ran out of memory. No count of faults rose.
    NoMemory,
}

impl From<NoMemory> for Outside {
    ghost from_gives = { λ _ e. e ≡ OutOfMemory };

    fn from(_: NoMemory) -> Outside {
        Outside::NoMemory
    }
}

impl From<AllocError> for Outside {
    ghost from_gives = { λ _ e. e ≡ OutOfMemory };

    fn from(_: AllocError) -> Outside {
        Outside::NoMemory
    }
}

impl<T: Drop> From<AllocFailed<T>> for Outside {
    ghost from_gives = { λ _ e. e ≡ OutOfMemory };

    fn from(_: AllocFailed<T>) -> Outside {
        Outside::NoMemory
    }
}
