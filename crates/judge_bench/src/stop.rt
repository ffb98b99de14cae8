// Why the program stops before its end.
use cm_base::NoMemory;
use cm_world::WorldError;
use std::alloc::AllocError;
use std::io;

#[derive(Debug, Drop)]
pub(crate) enum Stop {
    /// The text declares no world, or one with more spaces than there may be.
    BadWorld,
    NoMemory,
    /// A read or a write failed.
    Outside,
}

impl From<NoMemory> for Stop {
    fn from(_: NoMemory) -> Stop {
        Stop::NoMemory
    }
}

impl From<AllocError> for Stop {
    fn from(_: AllocError) -> Stop {
        Stop::NoMemory
    }
}

impl From<WorldError> for Stop {
    fn from(_: WorldError) -> Stop {
        Stop::BadWorld
    }
}

impl From<io::Error> for Stop {
    fn from(_: io::Error) -> Stop {
        Stop::Outside
    }
}
