// capset(2): a header, and three sets.
ghost use Rattle.std.specs.Prelude.{◌≡◌};
ghost use Rattle.cm_state.specs.Call.{call_of};
ghost use Rattle.cm_strace_calls.specs.Told.{and_make, then_read, told_is};
ghost use Rattle.cm_strace_text.specs.Depths.{arguments_in};
ghost use Rattle.cm_strace_values.specs.Outcomes.{outcome_is};
ghost use Rattle.cm_strace_values.specs.Structures.{sets_is};
ghost use Rattle.model_strace.specs.Calls.{caps_call, caps_told, own_header, read_argument};
ghost use Rattle.model_strace.specs.Numbers.{sets_of};

use crate::arguments::needed;
use crate::told::Told;
use cm_base::{LineFault, Pid, Res};
use cm_state::Call;
use cm_strace_values::{Outcome, Sets, read_header, read_sets};

/// A line of capset.
pub(crate) fn read<'a>(pid: Pid, arguments: Option<&[u8]>, outcome: Outcome) -> Told<'a>
    ensures { told_is result ≡ caps_told pid (arguments_in arguments.entry) (outcome_is outcome) }
{
    let Some(res) = outcome.plain() else {
        return Told::Faulty(LineFault::Outcome);
    };
    match read_call(pid, arguments) {
        Ok(sets) => Told::Does(call_of_sets(sets), res),
        Err(why) => Told::Faulty(why),
    }
}

// The call of three sets.
fn call_of_sets(sets: Sets) -> Call
    ensures { call_of result ≡ caps_call (sets_is sets) }
{
    Call::CapSet {
        eff: sets.effective,
        prm: sets.permitted,
        inh: sets.inheritable,
    }
}

// The sets, after a header of the caller.
fn read_call(pid: Pid, arguments: Option<&[u8]>) -> Result<Sets, LineFault>
    ensures { and_make sets_is result ≡ then_read (read_argument (own_header pid) 1 (arguments_in arguments.entry))
        (λ p. read_argument sets_of 2 (arguments_in arguments.entry)) }
{
    let (header, left) = needed(arguments, LineFault::Argument(1))?;
    own_header(pid, header).ok_or(LineFault::Argument(1))?;
    let (text, _) = needed(left, LineFault::Argument(2))?;
    read_sets(text).ok_or(LineFault::Argument(2))
}

// The process of a header that names 0, or the caller.
fn own_header(pid: Pid, header: &[u8]) -> Option<u32>
    ensures { result ≡ own_header pid header.now }
{
    let named = read_header(header)?;
    if named == 0 || named == pid.number() {
        Some(named)
    } else {
        None
    }
}
