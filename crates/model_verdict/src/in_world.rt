// What a verdict says in a world.
ghost use Rattle.model_verdict.specs.InWorld.{NoIsFirstRun, BlameIsBelow};

/// No: it is the run of the first plan that ends with a holder, a later run, and the least holder.
#[tactic(auto, using(crate::proofs::InWorlds::no_is_first_run))]
pub fn no_is_the_first_run()
    ensures { NoIsFirstRun }
{}

/// What is blamed brings the right into the bounds before it, which are within all closed covering bounds.
#[tactic(auto, using(crate::proofs::InWorlds::blame_is_below))]
pub fn blame_brings_the_right()
    ensures { BlameIsBelow }
{}
