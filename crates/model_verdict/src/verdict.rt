// The verdict, and what each kind says.
ghost use Rattle.model_verdict.specs.Verdict.{VerdictIsThere, OneVerdict, NoIsShown, YesIsKept, YesExactly};
ghost use Rattle.model_verdict.specs.Verdict.{UndecidedExactly, UndecidedIsUnsettled};

/// There is a verdict on each right, in each state.
#[tactic(auto, using(crate::proofs::Verdicts::verdict_is_there))]
pub fn verdict_is_there()
    ensures { VerdictIsThere }
{}

/// And there is one alone.
#[tactic(auto, using(crate::proofs::Verdicts::one_verdict))]
pub fn verdict_is_one()
    ensures { OneVerdict }
{}

/// No: there is a later run, after which a member holds the right.
#[tactic(auto, using(crate::proofs::Verdicts::no_is_shown))]
pub fn no_is_shown_by_a_run()
    ensures { NoIsShown }
{}

/// Yes: after no later run does a member hold the right.
#[tactic(auto, using(crate::proofs::Verdicts::yes_is_kept))]
pub fn yes_is_kept_by_all_runs()
    ensures { YesIsKept }
{}

/// It is yes exactly where some closed covering bounds don't meet the right.
#[tactic(auto, using(crate::proofs::Verdicts::yes_exactly))]
pub fn yes_comes_exactly_where_bounds_exclude()
    ensures { YesExactly }
{}

/// Undecided: the family isn't settled.
#[tactic(auto, using(crate::proofs::Verdicts::undecided_is_unsettled))]
pub fn undecided_families_are_unsettled()
    ensures { UndecidedIsUnsettled }
{}

/// It is undecided exactly where all closed covering bounds meet the right, and no plan ends holding it.
#[tactic(auto, using(crate::proofs::Verdicts::undecided_exactly))]
pub fn undecided_comes_exactly_where_it_is_open()
    ensures { UndecidedExactly }
{}
