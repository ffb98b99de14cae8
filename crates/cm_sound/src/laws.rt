// Laws of judged certificates. Each function does nothing: its contract is the law.
ghost use Rattle.cm_sound.specs.Laws.{StayCovering, FitAfterLog, MountsStandAfterLog, FewAtStart, NeverHeldAfterLog};

/// Rows that cover the members now and are closed, whoever made them, cover the members after each later run.
#[tactic(auto, using(crate::proofs::Never::stay_covering))]
pub fn enclosing_rows_stay_covering()
    ensures { StayCovering }
{}

/// Later runs can start from each state that a log leads to, in each world that a text declares.
#[tactic(auto, using(crate::proofs::AfterLogs::fit_after_log))]
pub fn logs_lead_to_fitting_states()
    ensures { FitAfterLog }
{}

/// The space of each mount stands there, as `check` asks.
#[tactic(auto, using(crate::proofs::AfterLogs::mounts_stand_after_log))]
pub fn mounts_stand_after_logs()
    ensures { MountsStandAfterLog }
{}

/// Few enough spaces stand at the beginning of each log. (A replay goes no further than the limit of spaces.)
#[tactic(auto, using(crate::proofs::AfterLogs::few_at_start))]
pub fn read_worlds_have_few_spaces()
    ensures { FewAtStart }
{}

/// So a right that rows exclude after a log is never held later, with no further premise.
#[tactic(auto, using(crate::proofs::AfterLogs::never_held_after_log))]
pub fn excluded_after_logs()
    ensures { NeverHeldAfterLog }
{}
