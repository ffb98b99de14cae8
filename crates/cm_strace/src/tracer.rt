// A session of a reader of strace(1).
ghost use Rattle.std.specs.Prelude.{◌≡◌, ◌≢◌, ◌+◌, ◌<◌, ◌≤◌, ◌^◌, None, Some};
ghost use Rattle.cm_base.specs.Limits.{greatest_number};
ghost use Rattle.cm_base.specs.Outcome.{OrNoMemory, UnchangedOnErr};
ghost use Rattle.cm_strace.specs.Answers.{reading_is};
ghost use Rattle.cm_lines.specs.Cut.{Cut, before, ends_by};
ghost use Rattle.cm_strace.specs.Stages.{cut_off, IsAt};
ghost use Rattle.cm_declared.specs.World.{world_of};
ghost use Rattle.model_cred.specs.World as model;
ghost use Rattle.model_run.specs.Within.{IsWithin};
ghost use Rattle.model_strace.specs.Counts.{spaces_counted};
ghost use Rattle.model_strace.specs.Lines.{strace_of_cut};
ghost use Rattle.model_strace.specs.Rest.{first_session, lines_fed, rest, line_answer, after_line};
ghost use Rattle.model_strace.specs.Rest.{after_finish, answered_then};

use crate::ending::read_end;
use crate::stage::{Stage, Stop};
use crate::work::Work;
use cm_base::NoMemory;
use cm_declared::{Placed, World};
use cm_lines::Past;
use std::alloc::Global;
use std::marker::Model;

/// A session: it is fed a log line by line, and keeps what is known and the lines that wait for their process to be
/// born. Once stopped it answers that stop, and once the log has ended nothing more.
#[derive(Debug, Drop)]
pub struct Tracer {
    work: Work,
    stage: Stage,
}

impl Model for Tracer {
    ghost use Rattle.cm_strace.specs.Stages.{session_is, IsRoomy};
    ghost use Rattle.model_strace.specs.Rest as model;

    ghost Value = { model.Session };

    ghost view = { λ t. session_is t.stage t.work };

    ghost invariant = { λ t. IsRoomy t.stage t.work };
}

impl Tracer {
    /// The session of a world before any line, whose start is within the limits of live processes and of user
    /// namespaces. It fails only where memory runs out.
    pub fn new(alloc: Global, w: &World) -> Result<Tracer, NoMemory>
        requires { IsWithin w.now.start }
        ensures first { OrNoMemory result (λ t. t ≡ first_session (world_of w.now)) }
        ensures reading { OrNoMemory result (λ t. (cut : Cut) → rest (world_of w.now) t cut
            ≡ strace_of_cut (world_of w.now) cut) }
    {
        let work = Work::first(alloc, w)?;
        Ok(Tracer {
            work,
            stage: Stage::Going,
        })
    }

    /// How many lines the session was fed.
    pub fn lines(&self) -> u64
        ensures { result ≡ lines_fed self.now }
    {
        self.work.count()
    }

    /// How many user namespaces the session counts while it goes on: those that there are by the lines that were read,
    /// and one for each line that is held, which may make one. It counts none once it has stopped or the log has ended.
    pub fn spaces(&self) -> u32
        ensures { result ≡ spaces_counted self.now }
    {
        match self.stage {
            Stage::Going => self.work.uses(),
            Stage::Stopped(_) | Stage::Finished => 0,
        }
    }

    /// A line comes, without its LF: its events, those of the held lines that come after a birth, and what the session
    /// is at then. The events are all that the caller's list holds then. It fails only where memory runs out, and then
    /// leaves the session as it was.
    ///
    /// Fewer than 4294967295 user namespaces are counted when it comes: the line may make one, their numbers have 32
    /// bits, and no limit is asked here. Whether a state is within the limits is seen where its event is done, which
    /// a session isn't told.
    pub fn feed_line(
        &mut self,
        alloc: Global,
        w: &World,
        line: &[u8],
        events: &mut Vec<Placed>,
    ) -> Result<Stage, NoMemory>
        requires lines { lines_fed self.old < 2 ^ 63 }
        requires spaces { spaces_counted self.old < greatest_number }
        ensures given { OrNoMemory result (λ stage. reading_is events.new.items stage
            ≡ line_answer (world_of w.now) self.old line.now) }
        ensures after { OrNoMemory result (λ _. self.new ≡ after_line (world_of w.now) self.old line.now) }
        ensures told { OrNoMemory result (λ stage. (cut : Cut) →
            rest (world_of w.now) self.old (before line.now cut) ≡ answered_then (reading_is events.new.items stage)
            (rest (world_of w.now) self.new cut)) }
        ensures at { OrNoMemory result (λ stage. IsAt stage self.new) }
        ensures spaces { OrNoMemory result (λ _. spaces_counted self.new ≤ spaces_counted self.old + 1) }
        ensures unchanged { UnchangedOnErr result self.new self.old }
    {
        events.clear();
        match self.stage {
            Stage::Going => {
                let stage = self.work.feed(alloc, w, line, events)?;
                self.stage = stage;
                Ok(stage)
            }
            Stage::Stopped(stop) => Ok(Stage::Stopped(stop)),
            Stage::Finished => Ok(Stage::Finished),
        }
    }

    /// The line that comes is past a limit: that limit stops a session that goes on, and the held lines tell nothing
    /// more. A session that was stopped, or whose log has ended, stays as it was. What it is at then.
    pub fn break_off(&mut self, past: Past) -> Stage
        ensures after { self.new ≡ cut_off past self.old }
        ensures told { (w : model.World) (cut : Cut) → rest w self.new cut ≡ rest w self.old (ends_by (Some past)) }
        ensures at { IsAt result self.new }
        ensures over { result ≢ Stage.Going }
    {
        match self.stage {
            Stage::Going => {
                let stop = Stop::of_past(past);
                self.stage = Stage::Stopped(stop);
                Stage::Stopped(stop)
            }
            Stage::Stopped(stop) => Stage::Stopped(stop),
            Stage::Finished => Stage::Finished,
        }
    }

    /// The log ends: what the held lines still give, and what the session is at then. The events are all that the
    /// caller's list holds then. It fails only where memory runs out, and then leaves the session as it was.
    pub fn finish(
        &mut self,
        alloc: Global,
        w: &World,
        events: &mut Vec<Placed>,
    ) -> Result<Stage, NoMemory>
        ensures told { OrNoMemory result (λ stage. reading_is events.new.items stage
            ≡ rest (world_of w.now) self.old (ends_by None)) }
        ensures after { OrNoMemory result (λ _. self.new ≡ after_finish (world_of w.now) self.old) }
        ensures at { OrNoMemory result (λ stage. IsAt stage self.new) }
        ensures over { OrNoMemory result (λ stage. stage ≢ Stage.Going) }
        ensures unchanged { UnchangedOnErr result self.new self.old }
    {
        events.clear();
        match self.stage {
            Stage::Going => {
                let stage = read_end(alloc, w, &self.work, events)?;
                self.stage = stage;
                Ok(stage)
            }
            Stage::Stopped(stop) => Ok(Stage::Stopped(stop)),
            Stage::Finished => Ok(Stage::Finished),
        }
    }
}
