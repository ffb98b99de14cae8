// The laws of a process's own step, and of the pid that a birth gives.
ghost use Rattle.model_laws.specs.Owns.{OwnIsStep, WrongHasOwnAnswer, LeastFreePid, AgainForWantOfPids};

/// The own answer to a call is a step.
#[tactic(auto, using(crate::proofs::Owning::own_is_step))]
pub fn own_is_step()
    ensures { OwnIsStep }
{}

/// An event that is no step for its result has the own answer to its call as the reason.
#[tactic(auto, using(crate::proofs::Owning::wrong_has_own_answer))]
pub fn wrong_has_own_answer()
    ensures { WrongHasOwnAnswer }
{}

/// The pid that a birth gives is the least one that isn't alive.
#[tactic(auto, using(crate::proofs::Pids::least_free_pid))]
pub fn least_free_pid()
    ensures { LeastFreePid }
{}

/// The rules answer EAGAIN to a birth alone, and only where all pids are alive.
#[tactic(auto, using(crate::proofs::Owning::again_for_want_of_pids))]
pub fn again_for_want_of_pids()
    ensures { AgainForWantOfPids }
{}
