// A log of strace(1) by its session, which reads it line by line: how it begins, and how it ends.
ghost use Rattle.std.specs.Prelude.{◌≡◌, ◌≢◌};
ghost use Rattle.cm_base.specs.Outcome.{OrNoMemory};
ghost use Rattle.cm_declared.specs.World.{world_of};
ghost use Rattle.cm_lines.specs.Cut.{Cut, ends_by};
ghost use Rattle.cm_log.specs.Counts.{Counts};
ghost use Rattle.cm_log.specs.Left.{told_then, EndsAgain};
ghost use Rattle.cm_log.specs.declared.log.Log.TheVariants.{Strace};
ghost use Rattle.model_run.specs.Within.{IsWithin};
ghost use Rattle.model_strace.specs.Lines.{strace_of_cut};
ghost use Rattle.model_strace.specs.Rest.{first_session, rest};

use cm_base::NoMemory;
use cm_declared::{Placed, World};
use cm_lines::Past;
use cm_strace::{Stage, Tracer};
use std::alloc::Global;

/// The session of a log of strace, and the events that the last line told, or the end.
#[derive(Debug, Drop)]
pub struct StraceLog {
    pub(crate) tracer: Tracer,
    pub(crate) events: Vec<Placed>,
}

impl StraceLog {
    /// Before the first line. It fails only where memory runs out.
    pub(crate) fn new(alloc: Global, w: &World) -> Result<StraceLog, NoMemory>
        requires { IsWithin w.now.start }
        ensures reading { OrNoMemory result (λ log. (cut : Cut)
            → rest (world_of w.now) log.tracer cut ≡ strace_of_cut (world_of w.now) cut) }
        ensures session { OrNoMemory result (λ log. log.tracer ≡ first_session (world_of w.now)) }
    {
        let tracer = Tracer::new(alloc, w)?;
        Ok(StraceLog {
            tracer,
            events: Vec::new(alloc),
        })
    }

    /// No line comes any more. It fails only where memory runs out.
    pub(crate) fn end(
        &mut self,
        alloc: Global,
        w: &World,
        past: Option<Past>,
    ) -> Result<Stage, NoMemory>
        ensures told { OrNoMemory result (λ stage. (cut : Cut) → rest (world_of w.now) self.old.tracer (ends_by past)
            ≡ told_then self.new.events.items stage (rest (world_of w.now) self.new.tracer cut)) }
        ensures again { OrNoMemory result (λ stage. (cut : Cut)
            → EndsAgain stage (rest (world_of w.now) self.new.tracer cut)) }
        ensures over { OrNoMemory result (λ stage. stage ≢ Stage.Going) }
        ensures counts { OrNoMemory result (λ _. Counts 0 self.new.events.items (Strace self.old) (Strace self.new)) }
    {
        match past {
            Some(past) => {
                self.events.clear();
                Ok(self.tracer.break_off(past))
            }
            None => self.tracer.finish(alloc, w, &mut self.events),
        }
    }
}
