// Why an event is no step, or a call isn't answered.
use cm_base::{NoMemory, Res};

/// Why the machine makes no step. It is unchanged then.
#[derive(Clone, Copy, Debug, PartialEq, Eq)]
pub enum StepError {
    /// No process of that pid is alive.
    NoProcess,
    /// The call names a user namespace that doesn't stand.
    NoSpace,
    /// The pid of the child that is told is alive already.
    PidInUse,
    /// The rules give another result than the one that is told: the process's own answer (choice).
    Wrong { rules_give: Res },
    /// There was no memory for the step.
    NoMemory,
}

impl From<NoMemory> for StepError {
    ghost use Rattle.std.specs.Prelude.{◌≡◌};
    ghost use Rattle.cm_machine.specs.declared.error.StepError.{StepError};

    ghost from_gives = { λ _ e. e ≡ StepError.NoMemory };

    fn from(_: NoMemory) -> Self {
        StepError::NoMemory
    }
}
