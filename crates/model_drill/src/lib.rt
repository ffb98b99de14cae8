//! Definitions: the drill, which makes events from a number. No code but functions that do nothing and carry a law each.
#![tactic(auto)]

ghost use Rattle.model_drill.specs.Laws.{DrillCounts, DrillIsRun, DrillReadsBack, DrillStateKeeps, DrillWorldReads};

/// A text declares the drill's world.
#[tactic(auto, using(crate::proofs::Cases::drill_world_reads))]
pub fn drill_world_reads()
    ensures { DrillWorldReads }
{}

/// The drill of n has n events.
#[tactic(auto, using(crate::proofs::Counts::drill_counts))]
pub fn drill_counts()
    ensures { DrillCounts }
{}

/// They are a run from the beginning of the drill's world.
#[tactic(auto, using(crate::proofs::Turns::drill_is_run))]
pub fn drill_is_run()
    ensures { DrillIsRun }
{}

/// Each state of the drill is within the limits, and some process lives in it.
#[tactic(auto, using(crate::proofs::Ends::drill_state_keeps))]
pub fn drill_state_keeps()
    ensures { DrillStateKeeps }
{}

/// The drill's text is read again as its events.
#[tactic(auto, using(crate::proofs::ReadsBack::drill_reads_back))]
pub fn drill_reads_back()
    ensures { DrillReadsBack }
{}
