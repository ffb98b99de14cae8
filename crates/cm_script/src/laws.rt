// What holds of script lines by their definitions, as contracts.
ghost use Rattle.model_text.specs.Fronts.{CutsAreFronts, ShortLogsAreCut};
ghost use Rattle.model_text.specs.Numbers.{NumbersAreLines};
ghost use Rattle.model_text.specs.Written.{LinesReadBack, LogsReadBack, ToldAreWritable, ToldReadBack};

/// What comes of a log reads as the events of its lines, each with the number of its line and none left out, as far as the
/// first line that has a fault, whose number and fault are told, or exceeds a limit, which is told.
#[tactic(auto, using(model_text::proofs::Numbers::numbers_are_lines))]
pub fn numbers_are_lines()
    ensures { NumbersAreLines }
{}

/// The lines that come of a text are its first ones, and all of them unless one is past a limit: that of lines, where it has
/// more bytes, or that of the text, where the text has. Of a log within its limit comes what comes where lines alone have one.
#[tactic(auto, using(model_text::proofs::Fronts::cuts_are_fronts, model_text::proofs::Fronts::short_logs_are_cut))]
pub fn first_lines_come()
    ensures front { CutsAreFronts }
    ensures within { ShortLogsAreCut }
{}

/// What was written of an event over a world that a text declares is read again as the same event: one whose parts are in
/// their ranges.
#[tactic(auto, using(model_text::proofs::ReadBack::lines_read_back))]
pub fn lines_read_back()
    ensures { LinesReadBack }
{}

/// Each event that a script line tells over a world that a text declares is writable over it: its parts are in their
/// ranges. So what was read, written, and read again is the same event.
#[tactic(auto, using(model_text::proofs::ToldEvents::told_are_writable, model_text::proofs::ToldEvents::told_read_back))]
pub fn told_read_back()
    ensures writable { ToldAreWritable }
    ensures back { ToldReadBack }
{}

/// What was written of several such events, a line for each, is read again as a script log that tells these events, in
/// their order, and nothing else, where no line exceeds the limit of lines.
#[tactic(auto, using(model_text::proofs::WrittenLogs::logs_read_back))]
pub fn logs_read_back()
    ensures { LogsReadBack }
{}
