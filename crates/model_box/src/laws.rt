// The laws of bounds. Each function does nothing: its contract is the law, which the check proves, and which proofs above
// cite by its lemmas in proofs/. A contract ranges over bounds that tests give; the lemmas range over any.
ghost use Rattle.model_box.specs.Laws.{Soundness, Exclusion, CoversAtStart, Monotone, MeetsMore, PermitsMore};
ghost use Rattle.model_box.specs.Laws.{ClosedForFewer, ClosedInCommon, StandingApart, ExcludedRulesAddNothing};
ghost use Rattle.model_box.specs.Laws.{KeptStatesFit, KeptFilesFit, FilesOfWorldsFit, RowsByNumber, RulesByNumber};
ghost use Rattle.model_box.specs.Reads.{RulesReadTheseAlone, ReadRowsAreAbove};
ghost use Rattle.model_box.specs.Example.{PlainStaysPlain};

/// Bounds that cover the members at the query, and are closed, cover them after every later run.
#[tactic(auto, using(crate::proofs::Stated::soundness))]
pub fn closed_covering_bounds_stay_covering()
    ensures { Soundness }
{}

/// Where such bounds don't meet a right, no member holds it after any later run, the present moment included.
#[tactic(auto, using(crate::proofs::Stated::exclusion))]
pub fn rights_that_are_not_met_are_never_held()
    ensures { Exclusion }
{}

/// Bounds cover the members at the query exactly where they hold the start bounds.
#[tactic(auto, using(crate::proofs::Stated::covers_at_start))]
pub fn start_bounds_are_the_least_that_cover()
    ensures { CoversAtStart }
{}

/// To larger bounds each rule adds at least as much.
#[tactic(auto, using(crate::proofs::Stated::monotone))]
pub fn rules_are_monotone()
    ensures { Monotone }
{}

/// Larger bounds meet at least as much.
#[tactic(auto, using(crate::proofs::Stated::meets_more))]
pub fn larger_bounds_meet_more()
    ensures { MeetsMore }
{}

/// Where more calls are permitted each rule adds at least as much.
#[tactic(auto, using(crate::proofs::Stated::permits_more))]
pub fn rules_add_more_where_more_is_permitted()
    ensures { PermitsMore }
{}

/// Bounds that are closed under a filter are closed under each that excludes more.
#[tactic(auto, using(crate::proofs::Stated::closed_for_fewer))]
pub fn closed_bounds_stay_closed_under_stricter_filters()
    ensures { ClosedForFewer }
{}

/// What two closed bounds have in common is closed.
#[tactic(auto, using(crate::proofs::Stated::closed_in_common))]
pub fn closed_bounds_have_closed_in_common()
    ensures { ClosedInCommon }
{}

/// What is added to a standing row is read from standing rows alone.
#[tactic(auto, using(crate::proofs::Stated::standing_apart))]
pub fn nothing_flows_from_fresh_to_standing_rows()
    ensures { StandingApart }
{}

/// A rule adds no more where the rows that it reads hold no more: it reads no other rows.
#[tactic(auto, using(crate::proofs::Readers::rules_read_these_alone))]
pub fn rules_read_few_rows()
    ensures { RulesReadTheseAlone }
{}

/// The rows that a rule reads are the row to which it adds, and standing rows of its space and of those above it.
#[tactic(auto, using(crate::proofs::Readers::read_rows_are_above))]
pub fn rules_read_from_above()
    ensures { ReadRowsAreAbove }
{}

/// Where the filter excludes all calls that a rule rests on, it adds nothing.
#[tactic(auto, using(crate::proofs::Stated::excluded_rules_add_nothing))]
pub fn rules_rest_on_their_calls()
    ensures { ExcludedRulesAddNothing }
{}

/// What the laws ask of a state holds of each that keeps what every state keeps.
#[tactic(auto, using(crate::proofs::Stated::kept_states_fit))]
pub fn kept_states_fit()
    ensures { KeptStatesFit }
{}

/// What the laws ask of declared files holds beside all spaces among which those of the mounts stand.
#[tactic(auto, using(crate::proofs::Stated::kept_files_fit))]
pub fn kept_files_fit()
    ensures { KeptFilesFit }
{}

/// What the laws ask of declared files holds of each world, at the log's beginning and after each run.
#[tactic(auto, using(crate::proofs::Stated::files_of_worlds_fit))]
pub fn files_of_worlds_fit()
    ensures { FilesOfWorldsFit }
{}

/// Rows and their numbers go one to one.
#[tactic(auto, using(crate::proofs::Stated::rows_by_number))]
pub fn rows_go_by_number()
    ensures { RowsByNumber }
{}

/// The number of a rule is its place among the rules.
#[tactic(auto, using(crate::proofs::Stated::rules_by_number))]
pub fn rules_go_by_number()
    ensures { RulesByNumber }
{}

/// A worked case: a process without capabilities, alone in the initial space under no_new_privs, stays so, whatever spaces
/// it makes.
#[tactic(auto, using(crate::proofs::Worked::plain_stays_plain))]
pub fn a_plain_process_stays_plain()
    ensures { PlainStaysPlain }
{}
