// What every step and every run keeps.
ghost use Rattle.model_laws.specs.Runs.{StepKeeps, RunKeeps, LaterKeeps, WorldRunKeeps};

/// Each step keeps what a state keeps: credentials, the order of pids, the tree of spaces.
#[tactic(auto, using(crate::proofs::Keeping::step_keeps))]
pub fn step_keeps()
    ensures { StepKeeps }
{}

/// So does each run.
#[tactic(auto, using(crate::proofs::Keeping::run_keeps))]
pub fn run_keeps()
    ensures { RunKeeps }
{}

/// So does each later run.
#[tactic(auto, using(crate::proofs::Keeping::later_keeps))]
pub fn later_keeps()
    ensures { LaterKeeps }
{}

/// So does each run from the beginning of a world.
#[tactic(auto, using(crate::proofs::Keeping::world_run_keeps))]
pub fn world_run_keeps()
    ensures { WorldRunKeeps }
{}
