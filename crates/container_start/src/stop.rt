// Why the program stops before its end.
use cm_audit::AuditRefusal;
use cm_base::NoMemory;
use cm_cert::BadCert;
use cm_files::BadFiles;
use cm_idmap::BadMap;
use cm_machine::StepError;
use std::io;

#[derive(Debug, Drop)]
pub(crate) enum Stop {
    /// A call of the crates refuses what it is given. With what this program gives none does.
    Refused,
    NoMemory,
    /// A write failed.
    Outside,
}

impl From<NoMemory> for Stop {
    fn from(_: NoMemory) -> Stop {
        Stop::NoMemory
    }
}

impl From<BadMap> for Stop {
    fn from(_: BadMap) -> Stop {
        Stop::Refused
    }
}

impl From<BadFiles> for Stop {
    fn from(_: BadFiles) -> Stop {
        Stop::Refused
    }
}

impl From<StepError> for Stop {
    fn from(_: StepError) -> Stop {
        Stop::Refused
    }
}

impl From<AuditRefusal> for Stop {
    fn from(_: AuditRefusal) -> Stop {
        Stop::Refused
    }
}

impl From<BadCert> for Stop {
    fn from(_: BadCert) -> Stop {
        Stop::Refused
    }
}

impl From<io::Error> for Stop {
    fn from(_: io::Error) -> Stop {
        Stop::Outside
    }
}
