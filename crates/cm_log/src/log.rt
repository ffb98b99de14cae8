// A log that is read a line at a time, whatever its form.
ghost use Rattle.std.specs.Prelude.{◌≡◌, ◌≢◌, ◌∷◌, [], ◌<◌, ◌^◌, length, IfNone, IfSome};
ghost use Rattle.cm_base.specs.Limits.{greatest_number};
ghost use Rattle.cm_base.specs.Outcome.{OrNoMemory};
ghost use Rattle.cm_declared.specs.World.{world_of};
ghost use Rattle.cm_lines.specs.Cut.{Cut, before, ends_by};
ghost use Rattle.cm_log.specs.Counts.{Counts, IsFresh, spaces_in, lines_read};
ghost use Rattle.cm_log.specs.Left.{left, told_of, told_then, EndsAgain, IsScript};
ghost use Rattle.model_cred.specs.World as model;
ghost use Rattle.model_run.specs.Within.{IsWithin};
ghost use Rattle.model_strace.specs.Logs.{form_of_cut};
ghost use Rattle.model_text.specs.Print.{event_text};
ghost use Rattle.model_text.specs.Reading.{reads_on, script_of_cut};

use crate::script::ScriptLog;
use crate::strace::StraceLog;
use cm_base::NoMemory;
use cm_declared::{LogForm, Placed, World};
use cm_lines::Past;
use cm_strace::Stage;
use std::alloc::Global;

/// A log in the form that its world declares. It is read to its lines as they come, and keeps what the last of them
/// told; none of its text is kept but the lines that strace's reading holds.
#[derive(Debug, Drop)]
pub enum Log {
    Script(ScriptLog),
    Strace(StraceLog),
}

impl Log {
    /// A script before its first line, which is read as a script whatever form a world declares.
    pub fn of_script(alloc: Global) -> Log
        ensures reading { (w : model.World) (cut : Cut) → left w result cut ≡ script_of_cut w cut }
        ensures script { IsScript result }
        ensures fresh { IsFresh 0 result }
    {
        Log::Script(ScriptLog::new(alloc))
    }

    /// A world's log before its first line. The world's start is within the limits of live processes and of user
    /// namespaces. It fails only where memory runs out.
    pub fn new(alloc: Global, w: &World) -> Result<Log, NoMemory>
        requires { IsWithin w.now.start }
        ensures reading { OrNoMemory result (λ log. (cut : Cut) → left (world_of w.now) log cut
            ≡ form_of_cut (world_of w.now).form (world_of w.now) cut) }
        ensures fresh { OrNoMemory result (λ log. IsFresh (length w.now.start.spaces) log) }
    {
        match w.form {
            LogForm::Script => Ok(Log::of_script(alloc)),
            LogForm::Strace => {
                let log = StraceLog::new(alloc, w)?;
                Ok(Log::Strace(log))
            }
        }
    }

    /// A line comes, without its LF: what the reading is at then. What the line tells are the events of the log from
    /// then on. After an end it gives that end again, whatever comes. It fails only where memory runs out, after which
    /// what is left of the log isn't known.
    #[inline]
    pub fn read_line(&mut self, alloc: Global, w: &World, line: &[u8]) -> Result<Stage, NoMemory>
        requires line { length line.now < 2 ^ 32 }
        requires lines { lines_read self.old < 2 ^ 63 }
        requires spaces { spaces_in self.old < greatest_number }
        ensures told { OrNoMemory result (λ stage. (cut : Cut) → left (world_of w.now) self.old (before line.now cut)
            ≡ told_then (told_of self.new) stage (left (world_of w.now) self.new cut)) }
        ensures again { OrNoMemory result (λ stage. (cut : Cut)
            → EndsAgain stage (left (world_of w.now) self.new cut)) }
        ensures counts { OrNoMemory result (λ _. Counts 1 (told_of self.new) self.old self.new) }
        ensures form { OrNoMemory result (λ _. IsScript self.old → IsScript self.new) }
    {
        match self {
            Log::Script(log) => log.read_line(alloc, w, line),
            Log::Strace(log) => log.tracer.feed_line(alloc, w, line, &mut log.events),
        }
    }

    /// A line of a script comes, without its LF, that stands as events are written: its event, where the script is
    /// still read. None says nothing of the line, which hasn't come then: `read_line` reads it.
    #[inline]
    pub fn read_own(&mut self, alloc: Global, w: &World, line: &[u8]) -> Option<Placed>
        requires line { length line.now < 2 ^ 32 }
        requires lines { lines_read self.old < 2 ^ 63 }
        ensures next { IfSome result (λ event. (cut : Cut) →
            left (world_of w.now) self.old (before line.now cut) ≡ reads_on event (left (world_of w.now) self.new cut)) }
        ensures own { IfSome result (λ event. event_text (world_of w.now) event.event ≡ line.now) }
        ensures counts { IfSome result (λ event. Counts 1 (event ∷ []) self.old self.new) }
        ensures form { IsScript self.old → IsScript self.new }
        ensures same { IfNone result (self.new ≡ self.old) }
    {
        match self {
            Log::Script(log) => log.read_own(alloc, w, line),
            Log::Strace(_) => None,
        }
    }

    /// The events that the last line told which `read_line` read, or that the end told.
    #[inline]
    pub fn events(&self) -> &[Placed]
        ensures { result.now ≡ told_of self.now }
    {
        match self {
            Log::Script(log) => log.events.as_slice(),
            Log::Strace(log) => log.events.as_slice(),
        }
    }

    /// No line comes any more: the log ends, or the line that comes is past a limit. How the reading ends; what the end
    /// tells are the events of the log from then on. It fails only where memory runs out, after which what is left of
    /// the log isn't known.
    pub fn end(&mut self, alloc: Global, w: &World, past: Option<Past>) -> Result<Stage, NoMemory>
        ensures told { OrNoMemory result (λ stage. (cut : Cut) → left (world_of w.now) self.old (ends_by past)
            ≡ told_then (told_of self.new) stage (left (world_of w.now) self.new cut)) }
        ensures again { OrNoMemory result (λ stage. (cut : Cut)
            → EndsAgain stage (left (world_of w.now) self.new cut)) }
        ensures over { OrNoMemory result (λ stage. stage ≢ Stage.Going) }
        ensures counts { OrNoMemory result (λ _. Counts 0 (told_of self.new) self.old self.new) }
        ensures form { OrNoMemory result (λ _. IsScript self.old → IsScript self.new) }
    {
        match self {
            Log::Script(log) => Ok(log.end(past)),
            Log::Strace(log) => log.end(alloc, w, past),
        }
    }
}
