// Why a line is not done.
use cm_base::NoMemory;
use cm_idmap::BadMap;
use cm_io::{NoMemory as OutOfMemory, Outside};
use cm_world::WorldError;
use std::alloc::{AllocError, AllocFailed};
use std::io;

/// What stops a program of cases, or one line of it.
#[derive(Debug, Drop)]
pub enum Stop {
    /// The text is none of the forms, or names what isn't there.
    Bad,
    NoMemory,
    /// A read or a write failed.
    Outside,
}

impl From<NoMemory> for Stop {
    fn from(_: NoMemory) -> Stop {
        Stop::NoMemory
    }
}

impl From<OutOfMemory> for Stop {
    fn from(_: OutOfMemory) -> Stop {
        Stop::NoMemory
    }
}

impl From<AllocError> for Stop {
    fn from(_: AllocError) -> Stop {
        Stop::NoMemory
    }
}

impl<T: Drop> From<AllocFailed<T>> for Stop {
    fn from(_: AllocFailed<T>) -> Stop {
        Stop::NoMemory
    }
}

impl From<WorldError> for Stop {
    fn from(e: WorldError) -> Stop {
        match e {
            WorldError::NoMemory => Stop::NoMemory,
            _ => Stop::Bad,
        }
    }
}

impl From<BadMap> for Stop {
    fn from(e: BadMap) -> Stop {
        match e {
            BadMap::NoMemory => Stop::NoMemory,
            _ => Stop::Bad,
        }
    }
}

impl From<Outside> for Stop {
    fn from(_: Outside) -> Stop {
        Stop::Outside
    }
}

impl From<io::Error> for Stop {
    fn from(_: io::Error) -> Stop {
        Stop::Outside
    }
}
