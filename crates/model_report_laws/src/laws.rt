// The laws of reports. Each function does nothing: its contract is the law, which the check proves.
ghost use Rattle.model_report_laws.specs.Answers.{ConfirmedIsRun, NoIsRun, PrintedCertificateHolds, PrintedRunIsConfirmed, RefusedIsNoRun, RunReadsBack};
ghost use Rattle.model_report_laws.specs.Answers.{SettledIsDecided, UndecidedIsOpen, YesIsNever, YesPrintsLeast};
ghost use Rattle.model_report_laws.specs.Laws.{AcceptedIsRun, AcceptedIsWithin, BadLogIsNumbered, EachByItsCause, EndCountsEvents};
ghost use Rattle.model_report_laws.specs.Laws.{EventsReadBack, ImpossibleIsNoStep, ImpossibleIsNumbered, JudgedIsGiven, LimitIsLast};
ghost use Rattle.model_report_laws.specs.Laws.{LogLimitsAreExceeded, ReportIsOne, ReportTellsOfLog, SameLogsSameReport};
ghost use Rattle.model_report_laws.specs.Laws.{SameReadingSameReport, ToldEventsReadBack, ValidIsAnswered};

/// There is something judged that the words and the files give, whatever they are: a verdict with its bounds as rows, and
/// what the rows of a certificate are found to be.
#[tactic(auto, using(crate::proofs::Given::judged_is_given))]
pub fn judged_is_given()
    ensures { JudgedIsGiven }
{}

/// And with each that they give the report is one.
#[tactic(auto, using(crate::proofs::Given::report_is_one))]
pub fn report_is_one()
    ensures { ReportIsOne }
{}

/// A status comes exactly by its cause, whatever the words and the files.
#[tactic(auto, using(crate::proofs::Statuses::each_by_its_cause))]
pub fn each_by_its_cause()
    ensures { EachByItsCause }
{}

/// Valid input is answered as asked: a replay and a drill are accepted, an audit is yes, no or undecided, a certificate holds
/// or is refused, and a run is confirmed or refused.
#[tactic(auto, using(crate::proofs::Complete::valid_is_answered))]
pub fn valid_input_is_answered_as_asked()
    ensures { ValidIsAnswered }
{}

/// Where the status is accepted and no drill is asked for, the events of the log are a run from the world's state; and the
/// last credential line, where the replay is shown, of each process that lives in the state reached is its credential there.
#[tactic(auto, using(crate::proofs::Endings::accepted_is_run))]
pub fn accepted_is_run()
    ensures { AcceptedIsRun }
{}

/// Where it is impossible, the events before that line are a run, and no state follows by its event.
#[tactic(auto, using(crate::proofs::Endings::impossible_is_no_step))]
pub fn impossible_is_no_step()
    ensures { ImpossibleIsNoStep }
{}

/// The report of a log tells the first of its events, in their order and none left out, each with the number of its line;
/// read from the top, each told event is a step, and each credential line shows the process of its pid as it is after the
/// events before it. A report that doesn't show the replay tells none.
#[tactic(auto, using(crate::proofs::Endings::report_tells_of_log))]
pub fn report_tells_of_log()
    ensures { ReportTellsOfLog }
{}

/// N of `end N` is the number of the log's events.
#[tactic(auto, using(crate::proofs::Endings::end_counts_events))]
pub fn end_counts_events()
    ensures { EndCountsEvents }
{}

/// K of `impossible line K` is the number of the line that tells the event.
#[tactic(auto, using(crate::proofs::Endings::impossible_is_numbered))]
pub fn impossible_is_numbered()
    ensures { ImpossibleIsNumbered }
{}

/// K of `bad log line K` is the number of a line with that fault.
#[tactic(auto, using(crate::proofs::Endings::bad_log_is_numbered))]
pub fn bad_log_is_numbered()
    ensures { BadLogIsNumbered }
{}

/// Where the reading stops at a limit, the line that tells it is the last, after the events before it where they are shown.
#[tactic(auto, using(crate::proofs::Endings::limit_is_last))]
pub fn limit_is_last()
    ensures { LimitIsLast }
{}

/// The limit of a log's bytes, or of a line's, stops a reading only where it is exceeded.
#[tactic(auto, using(crate::proofs::LogLimits::log_limits_are_exceeded))]
pub fn log_limits_are_exceeded()
    ensures { LogLimitsAreExceeded }
{}

/// An accepted log is within both.
#[tactic(auto, using(crate::proofs::LogLimits::accepted_is_within))]
pub fn accepted_is_within()
    ensures { AcceptedIsWithin }
{}

/// Readings that are the same have one report, whatever form of log the worlds declare.
#[tactic(auto, using(crate::proofs::SameLogs::same_reading_same_report))]
pub fn same_reading_same_report()
    ensures { SameReadingSameReport }
{}

/// So have logs that read alike, where the same is asked, of the same certificate or run.
#[tactic(auto, using(crate::proofs::SameLogs::same_logs_same_report))]
pub fn same_logs_same_report()
    ensures { SameLogsSameReport }
{}

/// What is written of the events of a log, which has fewer than 2^31 lines, is read again as they are.
#[tactic(auto, using(crate::proofs::LogEvents::events_read_back))]
pub fn events_read_back()
    ensures { EventsReadBack }
{}

/// So are the events that a report tells, however many lines the log has.
#[tactic(auto, using(crate::proofs::ToldEvents::told_events_read_back))]
pub fn told_events_read_back()
    ensures { ToldEventsReadBack }
{}

/// So is the run of an audit's no.
#[tactic(auto, using(crate::proofs::RunEvents::run_reads_back))]
pub fn run_reads_back()
    ensures { RunReadsBack }
{}

/// Where the status of an audit, or of the check of a certificate, is 0, after no later list of calls, of any length, does a
/// member of the family hold the right.
#[tactic(auto, using(crate::proofs::Audits::yes_is_never))]
pub fn yes_is_never()
    ensures { YesIsNever }
{}

/// Where an audit's status is 0, its last line is the certificate of the least bounds.
#[tactic(auto, using(crate::proofs::Audits::yes_prints_least))]
pub fn yes_prints_the_least_bounds()
    ensures { YesPrintsLeast }
{}

/// Where it is 1, the last lines of the report show the first plan's run after which a member does, and its least holder.
#[tactic(auto, using(crate::proofs::Audits::no_is_run))]
pub fn no_is_run()
    ensures { NoIsRun }
{}

/// Where it is 2, all closed covering bounds meet the right, no plan ends with a holder, and the family isn't settled; the
/// last lines tell what is blamed, and the bounds just before.
#[tactic(auto, using(crate::proofs::Audits::undecided_is_open))]
pub fn undecided_is_open()
    ensures { UndecidedIsOpen }
{}

/// What is asked of a settled family is never undecided.
#[tactic(auto, using(crate::proofs::Audits::settled_is_decided))]
pub fn settled_is_decided()
    ensures { SettledIsDecided }
{}

/// Where the status of a confirmation is 0, the run is a later run, and the pid that is printed the least holder at its end.
#[tactic(auto, using(crate::proofs::Audits::confirmed_is_run))]
pub fn confirmed_is_run()
    ensures { ConfirmedIsRun }
{}

/// Where it is refused, it is no such run.
#[tactic(auto, using(crate::proofs::Audits::refused_is_no_run))]
pub fn refused_is_no_run()
    ensures { RefusedIsNoRun }
{}

/// The certificate that an audit prints holds, over the same world, log, pid and right, with the LF that ends its line or
/// without.
#[tactic(auto, using(crate::proofs::Printed::printed_certificate_holds))]
pub fn printed_certificate_holds()
    ensures { PrintedCertificateHolds }
{}

/// The run that an audit prints is confirmed, with the holder that it prints.
#[tactic(auto, using(crate::proofs::Printed::printed_run_is_confirmed))]
pub fn printed_run_is_confirmed()
    ensures { PrintedRunIsConfirmed }
{}
