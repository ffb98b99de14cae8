// The reading of a script log, line by line: the event of each with the number of its line, and how the reading ends.
ghost use Rattle.std.specs.Prelude.{◌≡◌, ◌≢◌, [], ◌<◌, ◌≤◌, ◌+◌, ◌^◌, length, IfNone, IfSome};
ghost use Rattle.cm_base.specs.Outcome.{OrNoMemory};
ghost use Rattle.cm_declared.specs.World.{world_of};
ghost use Rattle.cm_lines.specs.Cut.{Cut, before, ends_by};
ghost use Rattle.cm_log.specs.Left.{script_left, stage_past, told_then, EndsAgain};
ghost use Rattle.model_cred.specs.World as model;
ghost use Rattle.model_text.specs.Print.{event_text};
ghost use Rattle.model_text.specs.Reading.{reads_on, script_of_cut};

use cm_base::NoMemory;
use cm_declared::{Placed, World};
use cm_lines::Past;
use cm_script::{LineError, read_line, read_own};
use cm_strace::{Stage, Stop};
use std::alloc::Global;

/// How many lines of a script came, whether it is still read, and the event of the last line, where it told one.
#[derive(Debug, Drop)]
pub struct ScriptLog {
    lines: u64,
    stage: Stage,
    pub(crate) events: Vec<Placed>,
}

impl ScriptLog {
    /// Before the first line.
    pub(crate) fn new(alloc: Global) -> ScriptLog
        ensures reading { (w : model.World) (cut : Cut) → script_left w result cut ≡ script_of_cut w cut }
        ensures lines { result.lines ≡ 0 }
    {
        ScriptLog {
            lines: 0,
            stage: Stage::Going,
            events: Vec::new(alloc),
        }
    }

    /// A line comes. It fails only where memory runs out.
    #[inline]
    pub(crate) fn read_line(
        &mut self,
        alloc: Global,
        w: &World,
        line: &[u8],
    ) -> Result<Stage, NoMemory>
        requires line { length line.now < 2 ^ 32 }
        requires lines { self.old.lines < 2 ^ 63 }
        ensures told { OrNoMemory result (λ stage. (cut : Cut)
            → script_left (world_of w.now) self.old (before line.now cut)
            ≡ told_then self.new.events.items stage (script_left (world_of w.now) self.new cut)) }
        ensures again { OrNoMemory result (λ stage. (cut : Cut)
            → EndsAgain stage (script_left (world_of w.now) self.new cut)) }
        ensures lines { OrNoMemory result (λ _. self.new.lines ≤ self.old.lines + 1) }
        ensures few { OrNoMemory result (λ _. length self.new.events.items ≤ 1) }
    {
        self.events.clear();
        match self.stage {
            Stage::Going => self.read_on(alloc, w, line),
            Stage::Stopped(stop) => Ok(Stage::Stopped(stop)),
            Stage::Finished => Ok(Stage::Finished),
        }
    }

    /// A line comes: its event, where the script is still read and the line stands as events are written. None says
    /// nothing of the line, which hasn't come then.
    #[inline]
    pub(crate) fn read_own(&mut self, alloc: Global, w: &World, line: &[u8]) -> Option<Placed>
        requires line { length line.now < 2 ^ 32 }
        requires lines { self.old.lines < 2 ^ 63 }
        ensures next { IfSome result (λ event. (cut : Cut) →
            script_left (world_of w.now) self.old (before line.now cut) ≡ reads_on event (script_left (world_of w.now) self.new cut)) }
        ensures own { IfSome result (λ event. event_text (world_of w.now) event.event ≡ line.now) }
        ensures lines { IfSome result (λ _. self.new.lines ≡ self.old.lines + 1) }
        ensures same { IfNone result (self.new ≡ self.old) }
    {
        if !matches!(self.stage, Stage::Going) {
            return None;
        }
        let event = read_own(alloc, line, w)?;
        self.lines += 1;
        Some(Placed {
            line: self.lines,
            event,
        })
    }

    // A line comes while the script is still read.
    fn read_on(&mut self, alloc: Global, w: &World, line: &[u8]) -> Result<Stage, NoMemory>
        requires reads { self.old.stage ≡ Stage.Going }
        requires none { self.old.events.items ≡ [] }
        requires line { length line.now < 2 ^ 32 }
        requires lines { self.old.lines < 2 ^ 63 }
        ensures told { OrNoMemory result (λ stage. (cut : Cut)
            → script_left (world_of w.now) self.old (before line.now cut)
            ≡ told_then self.new.events.items stage (script_left (world_of w.now) self.new cut)) }
        ensures again { OrNoMemory result (λ stage. (cut : Cut)
            → EndsAgain stage (script_left (world_of w.now) self.new cut)) }
        ensures lines { OrNoMemory result (λ _. self.new.lines ≤ self.old.lines + 1) }
        ensures few { OrNoMemory result (λ _. length self.new.events.items ≤ 1) }
    {
        let number = self.lines + 1;
        match read_line(alloc, line, w) {
            Ok(None) => {
                self.lines = number;
                Ok(Stage::Going)
            }
            Ok(Some(event)) => {
                self.lines = number;
                self.events.push(Placed {
                    line: number,
                    event,
                })?;
                Ok(Stage::Going)
            }
            Err(LineError::Bad(why)) => Ok(self.stop(Stop::Fault(number, why))),
            Err(LineError::Limit(limit)) => Ok(self.stop(Stop::Limit(limit))),
            Err(LineError::NoMemory) => Err(NoMemory),
        }
    }

    // The reading stops so.
    fn stop(&mut self, stop: Stop) -> Stage
        ensures ends { result ≡ Stage.Stopped stop }
        ensures lines { self.new.lines ≡ self.old.lines }
        ensures stage { self.new.stage ≡ Stage.Stopped stop }
        ensures events { self.new.events ≡ self.old.events }
    {
        self.stage = Stage::Stopped(stop);
        self.stage
    }

    /// No line comes any more: how the reading ends.
    pub(crate) fn end(&mut self, past: Option<Past>) -> Stage
        ensures told { (w : model.World) (cut : Cut) → script_left w self.old (ends_by past)
            ≡ told_then self.new.events.items result (script_left w self.new cut) }
        ensures again { (w : model.World) (cut : Cut) → EndsAgain result (script_left w self.new cut) }
        ensures over { result ≢ Stage.Going }
        ensures none { self.new.events.items ≡ [] }
        ensures lines { self.new.lines ≡ self.old.lines }
    {
        self.events.clear();
        if let Stage::Going = self.stage {
            self.stage = stage_after_last(past);
        }
        self.stage
    }
}

// The stage after the last line: the script ends, or the line that comes is past a limit.
fn stage_after_last(past: Option<Past>) -> Stage
    ensures { result ≡ stage_past past }
{
    match past {
        None => Stage::Finished,
        Some(past) => Stage::Stopped(Stop::of_past(past)),
    }
}
