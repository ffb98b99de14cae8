// prctl(2), by its option; other options tell nothing, whatever they answer.
ghost use Rattle.std.specs.Prelude.{◌≡◌, ◌∷◌, ℕ, IsTrue, List, codes};
ghost use Rattle.cm_filter.specs.Shapes.{shape_of};
ghost use Rattle.cm_state.specs.Call.{call_of};
ghost use Rattle.cm_strace_calls.specs.Made.{has_number, number_call};
ghost use Rattle.cm_strace_calls.specs.Told.{told_is};
ghost use Rattle.cm_strace_text.specs.Depths.{arguments_in};
ghost use Rattle.cm_strace_values.specs.Outcomes.{outcome_is};
ghost use Rattle.model_cred.specs.Call.{AmbClear};
ghost use Rattle.model_strace.specs.Calls.{Does, with_result, plain_call, prctl_told, option_told, ambient_told};
ghost use Rattle.model_strace.specs.Outcome.{plain_result};

use crate::arguments::{bits, capability, lacking, needed, number};
use crate::told::Told;
use cm_base::LineFault;
use cm_filter::{CallKind, Shape};
use cm_state::Call;
use cm_strace_values::Outcome;

/// A line of prctl.
pub(crate) fn read<'a>(arguments: Option<&[u8]>, outcome: Outcome) -> Told<'a>
    ensures { told_is result ≡ prctl_told (arguments_in arguments.entry) (outcome_is outcome) }
{
    match needed(arguments, lacking(outcome, 1)) {
        Ok((option, left)) => read_option(option, left, outcome),
        Err(why) => Told::Faulty(why),
    }
}

// The same by its option, and the arguments after it.
fn read_option<'a>(option: &[u8], left: Option<&[u8]>, outcome: Outcome) -> Told<'a>
    ensures { told_is result
        ≡ option_told option.now (option.now ∷ arguments_in left.entry) (outcome_is outcome) }
{
    if option == b"PR_SET_KEEPCAPS".as_slice() {
        with_number(outcome, CallKind::KeepCaps, number(2, left))
    } else if option == b"PR_SET_NO_NEW_PRIVS".as_slice() {
        with_number(outcome, CallKind::NoNewPrivs, number(2, left))
    } else if option == b"PR_SET_SECUREBITS".as_slice() {
        with_number(outcome, CallKind::SecureBits, bits(2, left))
    } else if option == b"PR_CAPBSET_DROP".as_slice() {
        with_number(outcome, CallKind::BsetDrop, capability(2, left))
    } else if option == b"PR_CAP_AMBIENT".as_slice() {
        read_ambient(left, outcome)
    } else {
        Told::Nothing
    }
}

// PR_CAP_AMBIENT, by the argument after it.
fn read_ambient<'a>(left: Option<&[u8]>, outcome: Outcome) -> Told<'a>
    ensures { (option : List ℕ) → told_is result
        ≡ option_told (codes "PR_CAP_AMBIENT") (option ∷ arguments_in left.entry) (outcome_is outcome) }
{
    match needed(left, lacking(outcome, 2)) {
        Ok((what, left)) => read_change(what, left, outcome),
        Err(why) => Told::Faulty(why),
    }
}

// The same by what is to change, and the arguments after it.
fn read_change<'a>(what: &[u8], left: Option<&[u8]>, outcome: Outcome) -> Told<'a>
    ensures { (option : List ℕ) → told_is result
        ≡ ambient_told what.now (option ∷ what.now ∷ arguments_in left.entry) (outcome_is outcome) }
{
    if what == b"PR_CAP_AMBIENT_RAISE".as_slice() {
        with_number(outcome, CallKind::AmbRaise, capability(3, left))
    } else if what == b"PR_CAP_AMBIENT_LOWER".as_slice() {
        with_number(outcome, CallKind::AmbLower, capability(3, left))
    } else if what == b"PR_CAP_AMBIENT_CLEAR_ALL".as_slice() {
        clear(outcome)
    } else {
        Told::Nothing
    }
}

// A call that answers 0 or fails.
fn clear<'a>(outcome: Outcome) -> Told<'a>
    ensures { told_is result ≡ with_result (plain_result (outcome_is outcome)) (Does AmbClear) }
{
    match outcome.plain() {
        Some(res) => Told::Does(Call::AmbClear, res),
        None => Told::Faulty(LineFault::Outcome),
    }
}

// A call of a number, which answers 0 or fails: its result is looked at before what was read of its arguments.
fn with_number<'a>(outcome: Outcome, kind: CallKind, read: Result<u32, LineFault>) -> Told<'a>
    requires { IsTrue (has_number (shape_of kind)) }
    ensures { told_is result ≡ plain_call (outcome_is outcome) read (number_call kind) }
{
    let Some(res) = outcome.plain() else {
        return Told::Faulty(LineFault::Outcome);
    };
    match read {
        Ok(n) => Told::Does(call_of_number(kind, n), res),
        Err(why) => Told::Faulty(why),
    }
}

// The call of that kind with a number, which may be that of a capability.
#[tactic(auto, using(crate::proofs::NumberCalls::of_cap, crate::proofs::NumberCalls::of_number))]
fn call_of_number(kind: CallKind, n: u32) -> Call
    requires { IsTrue (has_number (shape_of kind)) }
    ensures { call_of result ≡ number_call kind n }
{
    match kind.shape() {
        Shape::OneCap => Call::with_cap(kind, n),
        _ => Call::with_number(kind, n),
    }
}
