// What holds of logs of strace(1) by their definitions, as contracts.
ghost use Rattle.model_strace.specs.LineNumbers.{NumbersAreLines};
ghost use Rattle.model_strace.specs.ReadBack.{ToldAreWritable, ToldReadBack};
ghost use Rattle.model_strace.specs.Rest.{BeginsWithReading, LinesGoOn, EndsForGood};
ghost use Rattle.model_strace.specs.Counts.{EventsWithinLines, EventsOfLine, EventsOfEnd, HeldIsLimited, SpacesByEvents};
ghost use Rattle.model_strace.specs.Counts.{LinesAreCounted, EndsAreNotCounted};
ghost use Rattle.model_strace.specs.Stops.{StopsAsCut, EndsAsCut};

/// Each event that a log tells has the number of its line, and where the reading stops at a fault, the line of that number
/// has it.
#[tactic(auto, using(crate::proofs::LineNumbers::numbers_are_lines))]
pub fn strace_numbers_are_lines()
    ensures { NumbersAreLines }
{}

/// Each event that a log of fewer than 2^31 lines tells over a world that a text declares is writable over it, and what is
/// written of it is read as a script line that tells it.
#[tactic(auto, using(crate::proofs::ReadBack::told_are_writable, crate::proofs::ReadBack::told_read_back))]
pub fn strace_told_read_back()
    ensures writable { ToldAreWritable }
    ensures back { ToldReadBack }
{}

/// A session that is fed line by line gives the reading, whatever comes of the log and however it ends.
#[tactic(auto, using(crate::proofs::RestLaws::begins_with_reading, crate::proofs::RestLaws::lines_go_on, crate::proofs::RestLaws::ends_for_good))]
pub fn sessions_give_the_reading()
    ensures begin { BeginsWithReading }
    ensures lines { LinesGoOn }
    ensures end { EndsForGood }
{}

/// A session tells no more events than it holds lines and others come: so it is with all that comes, with one line, which
/// leaves the others that it holds, and with the log's end.
#[tactic(auto, using(crate::proofs::Counts::events_within_lines, crate::proofs::Counts::events_of_line, crate::proofs::Counts::events_of_end))]
pub fn events_are_few()
    ensures all { EventsWithinLines }
    ensures line { EventsOfLine }
    ensures end { EventsOfEnd }
{}

/// The lines that a session holds stay within their limit, each line that comes is counted at most once, and the log's end is
/// no line.
#[tactic(auto, using(crate::proofs::Counts::held_is_limited, crate::proofs::Counts::lines_are_counted, crate::proofs::Counts::ends_are_not_counted))]
pub fn lines_are_counted()
    ensures held { HeldIsLimited }
    ensures lines { LinesAreCounted }
    ensures end { EndsAreNotCounted }
{}

/// A session learns of no more user namespaces in a line than the events that the line tells make.
#[tactic(auto, using(crate::proofs::KnownSpaces::spaces_by_events))]
pub fn spaces_by_events()
    ensures { SpacesByEvents }
{}

/// A reading, of either form, stops at the limit of a log's bytes, or of a line's, only where the line after those that come
/// is past it; and it comes to the log's end only where all lines come.
#[tactic(auto, using(crate::proofs::Stops::stops_as_cut, crate::proofs::Stops::ends_as_cut))]
pub fn readings_end_as_cut()
    ensures stop { StopsAsCut }
    ensures end { EndsAsCut }
{}
