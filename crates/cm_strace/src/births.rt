// A birth whose child has held lines, and after it these lines and those of the children of those. Where memory runs
// out, what is known is left to be rolled back, and the held lines stand where they are held.
ghost use Rattle.std.specs.Prelude.{◌≡◌, ℕ, [], ◌<◌, ◌≤◌, ◌+◌, length};
ghost use Rattle.cm_base.specs.Limits.{greatest_number};
ghost use Rattle.cm_base.specs.Outcome.{OrNoMemory};
ghost use Rattle.cm_strace.specs.Births.{work_of};
ghost use Rattle.cm_strace.specs.Given.{Gave};
ghost use Rattle.cm_strace.specs.Works.{concluded, uses};
ghost use Rattle.cm_declared.specs.World.{world_of};
ghost use Rattle.model_strace.specs.After.{preceded};
ghost use Rattle.model_strace.specs.Rest.{released};

use crate::acts::conclude;
use crate::deed::{Deed, Origin};
use crate::stage::Stage;
use crate::waiting::Waiting;
use cm_base::NoMemory;
use cm_declared::{Placed, World};
use cm_strace_parts::Parts;
use std::alloc::Global;

/// The deed of a line is done, and after it the held lines of a child are read. It fails only where memory runs out.
pub(crate) fn read_on(
    alloc: Global,
    w: &World,
    parts: &mut Parts,
    waiting: &mut Waiting<'_>,
    origin: Origin,
    deed: Deed,
    events: &mut Vec<Placed>,
) -> Result<Stage, NoMemory>
    requires fresh { waiting.old.pids ≡ [] }
    requires room { uses (work_of origin.line waiting.old parts.old) < greatest_number }
    ensures done { OrNoMemory result (λ stage. Gave stage events.new.items
        (work_of origin.line waiting.new parts.new) (preceded events.old.items
        (concluded (world_of w.now) origin deed (work_of origin.line waiting.old parts.old)))) }
    ensures saved { parts.new.saved ≡ parts.old.saved }
    ensures all { OrNoMemory result (λ _. waiting.new.all ≡ waiting.old.all) }
    ensures uses { OrNoMemory result (λ _. uses (work_of origin.line waiting.new parts.new)
        ≤ uses (work_of origin.line waiting.old parts.old) + 1) }
{
    let born = deed.child();
    let stage = conclude(alloc, parts, origin, deed, events)?;
    if let Stage::Going = stage {
        waiting.put(born)?;
        read_waiting(alloc, w, parts, waiting, events)
    } else {
        Ok(stage)
    }
}

// The held lines of the pids that wait are read, those of their children before all others.
fn read_waiting(
    alloc: Global,
    w: &World,
    parts: &mut Parts,
    waiting: &mut Waiting<'_>,
    events: &mut Vec<Placed>,
) -> Result<Stage, NoMemory>
    requires { parts.old.known.spaces + length waiting.old.left ≤ greatest_number }
    ensures released { OrNoMemory result (λ stage. (count : ℕ) → Gave stage events.new.items
        (work_of count waiting.new parts.new) (preceded events.old.items
        (released (world_of w.now) (length waiting.old.left) waiting.old.pids (work_of count waiting.old parts.old)))) }
    ensures saved { parts.new.saved ≡ parts.old.saved }
    ensures all { OrNoMemory result (λ _. waiting.new.all ≡ waiting.old.all) }
    ensures uses { OrNoMemory result (λ _. parts.new.known.spaces + length waiting.new.left
        ≤ parts.old.known.spaces + length waiting.old.left) }
{
    while let Some(l) = waiting.take_next(parts) {
        let (stage, born) = l.read(alloc, w, parts, events)?;
        if let Stage::Going = stage {
            waiting.put(born)?;
        } else {
            return Ok(stage);
        }
    }
    Ok(Stage::Going)
}
