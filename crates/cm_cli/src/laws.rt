// Laws of the report that the top call writes.
ghost use Rattle.model_report_laws.specs.Answers.{ConfirmedIsRun, NoIsRun, PrintedCertificateHolds};
ghost use Rattle.model_report_laws.specs.Answers.{PrintedRunIsConfirmed, RefusedIsNoRun, RunReadsBack};
ghost use Rattle.model_report_laws.specs.Answers.{UndecidedIsOpen, YesIsNever, YesPrintsLeast};
ghost use Rattle.model_report_laws.specs.Laws.{JudgedIsGiven, ReportIsOne, EachByItsCause, AcceptedIsRun};
ghost use Rattle.model_report_laws.specs.Laws.{ImpossibleIsNoStep};
ghost use Rattle.model_report_laws.specs.Laws.{EventsReadBack, ReportTellsOfLog, EndCountsEvents, ImpossibleIsNumbered};
ghost use Rattle.model_report_laws.specs.Laws.{AcceptedIsWithin, BadLogIsNumbered, LimitIsLast, LogLimitsAreExceeded};
ghost use Rattle.model_report_laws.specs.Laws.{SameReadingSameReport, SameLogsSameReport, ToldEventsReadBack};

/// There is something judged that the words and the files give, whatever they are: a verdict, and what rows are found
/// to be.
#[tactic(auto, using(model_report_laws::proofs::Given::judged_is_given))]
pub fn judged_is_given()
    ensures { JudgedIsGiven }
{}

/// And with each that they give the report is one.
#[tactic(auto, using(model_report_laws::proofs::Given::report_is_one))]
pub fn report_is_one()
    ensures { ReportIsOne }
{}

/// A status comes exactly by its cause, whatever the words and the files.
#[tactic(auto, using(model_report_laws::proofs::Statuses::each_by_its_cause))]
pub fn each_by_its_cause()
    ensures { EachByItsCause }
{}

/// Where the status is accepted, and no drill is asked for, the events of the log are a run from the world's state, and
/// the last credential line of each process that lives in the state reached is its credential there, where the replay
/// is shown.
#[tactic(auto, using(model_report_laws::proofs::Endings::accepted_is_run))]
pub fn accepted_is_run()
    ensures { AcceptedIsRun }
{}

/// Where it is impossible, the events before that line are a run, and no state follows by its event.
#[tactic(auto, using(model_report_laws::proofs::Endings::impossible_is_no_step))]
pub fn impossible_is_no_step()
    ensures { ImpossibleIsNoStep }
{}

/// Where the status of an audit, or of the check of a certificate, is 0, after no later list of calls, of any length,
/// does a member of the family hold the right.
#[tactic(auto, using(model_report_laws::proofs::Audits::yes_is_never))]
pub fn yes_is_never()
    ensures { YesIsNever }
{}

/// Where an audit's status is 0, its last lines are `yes` and the certificate of the least closed covering bounds.
#[tactic(auto, using(model_report_laws::proofs::Audits::yes_prints_least))]
pub fn yes_prints_least()
    ensures { YesPrintsLeast }
{}

/// Where it is 1, the last lines of the report show the first plan's run after which a member does, and its least
/// holder.
#[tactic(auto, using(model_report_laws::proofs::Audits::no_is_run))]
pub fn no_is_run()
    ensures { NoIsRun }
{}

/// Where it is 2, all closed covering bounds meet the right, no plan ends with a holder, and the family isn't settled;
/// the last lines tell what is blamed, and the certificate of the bounds just before.
#[tactic(auto, using(model_report_laws::proofs::Audits::undecided_is_open))]
pub fn undecided_is_open()
    ensures { UndecidedIsOpen }
{}

/// Where the status of a confirmation is 0, the run is a later run within the limits, after which the printed process
/// is the least member that holds the right; where it is refused, it is none.
#[tactic(auto, using(model_report_laws::proofs::Audits::confirmed_is_run, model_report_laws::proofs::Audits::refused_is_no_run))]
pub fn confirmed_is_run()
    ensures confirmed { ConfirmedIsRun }
    ensures refused { RefusedIsNoRun }
{}

/// What an audit prints is accepted, over the same world, log, pid and right: its certificate holds, and its run is
/// confirmed with the holder that it prints, each as a file within its limit.
#[tactic(auto, using(model_report_laws::proofs::Printed::printed_certificate_holds, model_report_laws::proofs::Printed::printed_run_is_confirmed))]
pub fn printed_is_accepted()
    ensures certificate { PrintedCertificateHolds }
    ensures run { PrintedRunIsConfirmed }
{}

/// The report of a log tells the first of its events, in their order and none left out, each with the number of its
/// line; read from the top, each told event is a step, and each credential line shows the process of its pid as it is
/// after the events before it.
#[tactic(auto, using(model_report_laws::proofs::Endings::report_tells_of_log))]
pub fn report_tells_of_log()
    ensures { ReportTellsOfLog }
{}

/// N of `end N` is the number of the log's events.
#[tactic(auto, using(model_report_laws::proofs::Endings::end_counts_events))]
pub fn end_counts_events()
    ensures { EndCountsEvents }
{}

/// K of `impossible line K` is the number of the line whose event is no step, and the reason is what becomes of it.
#[tactic(auto, using(model_report_laws::proofs::Endings::impossible_is_numbered))]
pub fn impossible_is_numbered()
    ensures { ImpossibleIsNumbered }
{}

/// K of `bad log line K` is the number of a line with that fault.
#[tactic(auto, using(model_report_laws::proofs::Endings::bad_log_is_numbered))]
pub fn bad_log_is_numbered()
    ensures { BadLogIsNumbered }
{}

/// Where the reading of a log stops at a limit, the line that tells it is the last, after the events before it where the
/// replay is shown.
#[tactic(auto, using(model_report_laws::proofs::Endings::limit_is_last))]
pub fn limit_is_last()
    ensures { LimitIsLast }
{}

/// The limit of a log's bytes, or of a line's, stops a reading only where it is exceeded; and an accepted log is within
/// both.
#[tactic(auto, using(model_report_laws::proofs::LogLimits::log_limits_are_exceeded, model_report_laws::proofs::LogLimits::accepted_is_within))]
pub fn log_limits()
    ensures exceeded { LogLimitsAreExceeded }
    ensures within { AcceptedIsWithin }
{}

/// Logs that read as the same events in the same places, and whose readings end alike, have the same report, whatever
/// form they have.
#[tactic(auto, using(model_report_laws::proofs::SameLogs::same_reading_same_report))]
pub fn same_reading_same_report()
    ensures { SameReadingSameReport }
{}

/// Over the texts of two worlds that differ in the form of log alone, two logs that read as the same events in the same
/// places, and end alike, have the same report, byte for byte, where the same is asked. One world's text for both is
/// such a case.
#[tactic(auto, using(model_report_laws::proofs::SameLogs::same_logs_same_report))]
pub fn same_logs_same_report()
    ensures { SameLogsSameReport }
{}

/// What is written of an event that a report tells, after the number of its line, is read as a line of a script that tells
/// the event, whatever form the log has and however many lines.
#[tactic(auto, using(model_report_laws::proofs::ToldEvents::told_events_read_back))]
pub fn told_events_read_back()
    ensures { ToldEventsReadBack }
{}

/// So it is with each event of a log that has fewer than 2^31 lines, told or not. And the lines of the run after which a
/// member holds the right, read as a script log, are that run: its events, in their order, and nothing else.
#[tactic(auto, using(model_report_laws::proofs::LogEvents::events_read_back, model_report_laws::proofs::RunEvents::run_reads_back))]
pub fn reports_read_back()
    ensures events { EventsReadBack }
    ensures run { RunReadsBack }
{}
