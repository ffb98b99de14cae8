// The sweep of the rules over the rows.
ghost use Rattle.model_verdict.specs.Sweep.{TurnsGoByRounds, SweepGrows, SweepStaysWithin, SweepComesToLeast};
ghost use Rattle.model_verdict.specs.Sweep.{IdleRoundsBeginClosed, ClosedTurnsAreLeast};

/// In a round each rule of the order has its turn at each row.
#[tactic(auto, using(crate::proofs::Sweeps::turns_go_by_rounds))]
pub fn turns_go_by_rounds()
    ensures { TurnsGoByRounds }
{}

/// More turns give larger bounds.
#[tactic(auto, using(crate::proofs::Sweeps::sweep_grows))]
pub fn sweep_grows()
    ensures { SweepGrows }
{}

/// The sweep stays within all bounds that are closed and cover the members.
#[tactic(auto, using(crate::proofs::Sweeps::sweep_stays_within))]
pub fn sweep_stays_within_closed_covering_bounds()
    ensures { SweepStaysWithin }
{}

/// A round that adds nothing begins with closed bounds.
#[tactic(auto, using(crate::proofs::Rounds::idle_rounds_begin_closed))]
pub fn idle_rounds_begin_closed()
    ensures { IdleRoundsBeginClosed }
{}

/// A test that says what the sweep gives after some number of turns, and is closed, is the least.
#[tactic(auto, using(crate::proofs::Rounds::closed_turns_are_least))]
pub fn closed_turns_are_least()
    ensures { ClosedTurnsAreLeast }
{}

/// The least bounds hold what the sweep ever gives, and nothing else.
#[tactic(auto, using(crate::proofs::Exists::sweep_comes_to_least))]
pub fn sweep_comes_to_the_least_bounds()
    ensures { SweepComesToLeast }
{}
