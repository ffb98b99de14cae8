// The own step of a process: its call as the rules give it, whatever was told.
ghost use Rattle.std.specs.Prelude.{◌≡◌, ◌<◌, length, true, false, OnErr};
ghost use Rattle.cm_base.specs.Limits.{greatest_number};
ghost use Rattle.cm_base.specs.Outcome.{OrNoMemory, UnchangedOnErr};
ghost use Rattle.cm_machine.specs.Asking.{OfCaller, own_permitted};
ghost use Rattle.cm_machine.specs.Outcomes.{takes_memory};
ghost use Rattle.cm_state.specs.Call.{call_of};
ghost use Rattle.cm_declared.specs.World.{world_of};
ghost use Rattle.model_run.specs.Ruling.{own};
ghost use Rattle.model_run.specs.Step.{names_no_space};

use crate::births::own_pid;
use crate::change::{Change, keep};
use crate::filters::is_excluded;
use crate::ruling::ask;
use cm_base::{Errno, NoMemory, Res};
use cm_declared::World;
use cm_state::{Call, State};
use std::alloc::Global;

/// Makes the call of the process at this place, and says what the rules answer: EPERM, with nothing changed, where the
/// own filter of the process excludes it.
pub(crate) fn make_own(
    alloc: Global,
    w: &World,
    state: &mut State,
    at: usize,
    call: &Call,
) -> Result<Res, NoMemory>
    requires here { at < length state.old.processes }
    requires stands { names_no_space state.old.spaces (call_of call.now) ≡ false }
    requires room { length state.old.spaces < greatest_number }
    ensures own { OrNoMemory result (λ res. OfCaller state.old at (λ p.
        record { res = res; state = state.new } ≡ own (world_of w.now) state.old p (call_of call.now))) }
    ensures memory { OnErr result (takes_memory (call_of call.now) ≡ true) }
    ensures unchanged { UnchangedOnErr result state.new state.old }
{
    if is_excluded(&state.procs, at, call) {
        return Ok(Res::Err(Errno::EPERM));
    }
    make_permitted(alloc, w, state, at, call)
}

// The same for a call that the filter permits.
fn make_permitted(
    alloc: Global,
    w: &World,
    state: &mut State,
    at: usize,
    call: &Call,
) -> Result<Res, NoMemory>
    requires here { at < length state.old.processes }
    requires stands { names_no_space state.old.spaces (call_of call.now) ≡ false }
    requires room { length state.old.spaces < greatest_number }
    ensures own { OrNoMemory result (λ res. OfCaller state.old at (λ p.
        record { res = res; state = state.new } ≡ own_permitted (world_of w.now) state.old p (call_of call.now))) }
    ensures memory { OnErr result (takes_memory (call_of call.now) ≡ true) }
    ensures unchanged { UnchangedOnErr result state.new state.old }
{
    let child = own_pid(&state.procs, call);
    let mut change = Change::Fields;
    let res = ask(alloc, w, state, at, call, child, &mut change)?;
    keep(alloc, state, at, change)?;
    Ok(res)
}
