// Why a report of a log isn't told to its end.
use cm_base::{NoMemory, Status};
use cm_io::{NoMemory as OutOfMemory, Outside};

/// A read failed, of the log or of the file of a claim, or a write did, or there was no memory.
#[derive(Clone, Copy, Debug, PartialEq, Eq)]
pub enum Untold {
    ReadFault,
    WriteFault,
    NoMemory,
}

impl From<NoMemory> for Untold {
    ghost use Rattle.std.specs.Prelude.{◌≡◌};
    ghost use Rattle.cm_replay.specs.declared.untold.Untold.{Untold};

    ghost from_gives = { λ _ e. e ≡ Untold.NoMemory };

    fn from(_: NoMemory) -> Untold {
        Untold::NoMemory
    }
}

impl From<OutOfMemory> for Untold {
    ghost use Rattle.std.specs.Prelude.{◌≡◌};
    ghost use Rattle.cm_replay.specs.declared.untold.Untold.{Untold};

    ghost from_gives = { λ _ e. e ≡ Untold.NoMemory };

    fn from(_: OutOfMemory) -> Untold {
        Untold::NoMemory
    }
}

impl From<Outside> for Untold {
    ghost use Rattle.std.specs.Prelude.{◌≡◌};
    ghost use Rattle.cm_replay.specs.Untold.{untold_by};

    ghost from_gives = { λ why e. e ≡ untold_by why };

    fn from(why: Outside) -> Untold {
        match why {
            Outside::Failed => Untold::WriteFault,
            Outside::NoMemory => Untold::NoMemory,
        }
    }
}

impl Untold {
    ghost use Rattle.std.specs.Prelude.{◌≡◌};
    ghost use Rattle.cm_replay.specs.Untold.{status_by};

    /// The answer then.
    pub fn status(self) -> Status
        ensures { result ≡ status_by self }
    {
        match self {
            Untold::ReadFault => Status::ReadFault,
            Untold::WriteFault => Status::WriteFault,
            Untold::NoMemory => Status::NoMemory,
        }
    }
}
