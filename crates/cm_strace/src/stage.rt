// Whether a session, or the reading of a log, goes on, and what stops it.
ghost use Rattle.std.specs.Prelude.{◌≡◌};
ghost use Rattle.cm_strace.specs.Answers.{stop_past};

use cm_base::{Limited, LineFault};
use cm_lines::Past;

/// What stops a reading before the log's end: the fault of the line of that number, or a limit that is exceeded.
#[derive(Clone, Copy, Debug)]
pub enum Stop {
    Fault(u64, LineFault),
    Limit(Limited),
}

impl Stop {
    /// The stop at a line that is past that limit.
    pub fn of_past(past: Past) -> Stop
        ensures { result ≡ stop_past past }
    {
        match past {
            Past::Line => Stop::Limit(Limited::Line),
            Past::Whole => Stop::Limit(Limited::Log),
        }
    }
}

/// It goes on; it was stopped; the log has ended.
#[derive(Clone, Copy, Debug)]
pub enum Stage {
    Going,
    Stopped(Stop),
    Finished,
}
