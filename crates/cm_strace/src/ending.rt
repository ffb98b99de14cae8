// The log's end: the held lines are read in their order, as far as the first that tells anything.
ghost use Rattle.std.specs.Prelude.{◌≡◌, ◌≢◌, [], ◌+◌, ◌≤◌, length};
ghost use Rattle.cm_base.specs.Limits.{greatest_number};
ghost use Rattle.cm_base.specs.Outcome.{OrNoMemory};
ghost use Rattle.cm_declared.specs.World.{world_of};
ghost use Rattle.cm_strace.specs.Answers.{reading_is};
ghost use Rattle.model_strace.specs.Lines.{at_end};
ghost use Rattle.model_strace.specs.Rest.{work_end};

use crate::line::Line;
use crate::stage::Stage;
use crate::work::Work;
use cm_base::NoMemory;
use cm_declared::{Placed, World};
use cm_strace_parts::Parts;
use std::alloc::Global;

/// What the log's end gives, and how the reading ends. It fails only where memory runs out.
pub(crate) fn read_end(
    alloc: Global,
    w: &World,
    t: &Work,
    events: &mut Vec<Placed>,
) -> Result<Stage, NoMemory>
    requires room { t.now.parts.spaces + length t.now.held ≤ greatest_number }
    requires fresh { events.old.items ≡ [] }
    ensures read { OrNoMemory result (λ stage. reading_is events.new.items stage ≡ work_end (world_of w.now) t.now) }
    ensures over { OrNoMemory result (λ stage. stage ≢ Stage.Going) }
{
    if t.held.is_empty() {
        return Ok(Stage::Finished);
    }
    let mut parts = t.parts.copy(alloc)?;
    parts.forget_all_kept();
    read_held(alloc, w, &mut parts, &t.held, events)
}

// What the held lines give at the log's end, where this is known.
fn read_held(
    alloc: Global,
    w: &World,
    parts: &mut Parts,
    held: &[Line],
    events: &mut Vec<Placed>,
) -> Result<Stage, NoMemory>
    requires room { parts.old.known.spaces + length held.now ≤ greatest_number }
    requires fresh { events.old.items ≡ [] }
    ensures read { OrNoMemory result (λ stage. reading_is events.new.items stage
        ≡ at_end (world_of w.now) held.now parts.old.known) }
    ensures over { OrNoMemory result (λ stage. stage ≢ Stage.Going) }
{
    for l in held {
        let (stage, _) = l.read(alloc, w, parts, events)?;
        if let Stage::Going = stage {
            if !events.is_empty() {
                return Ok(Stage::Finished);
            }
        } else {
            return Ok(stage);
        }
    }
    Ok(Stage::Finished)
}
