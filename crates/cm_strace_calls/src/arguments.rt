// The arguments of a call, one after another: each is taken from the front of those that are left. Their numbers, from
// 1 on, are for the faults alone.
ghost use Rattle.std.specs.Prelude.{◌≡◌, ◌∷◌, [], IfErr, IfOk, drop};
ghost use Rattle.cm_strace_calls.specs.Readers.{first_read, first_capability};
ghost use Rattle.cm_strace_text.specs.Depths.{arguments_in};
ghost use Rattle.cm_strace_values.specs.Outcomes.{outcome_is};
ghost use Rattle.model_strace.specs.Calls.{lacking, number_of, text_of};
ghost use Rattle.model_strace.specs.Numbers.{securebits};
ghost use Rattle.model_text.specs.Token.{number_token};

use cm_base::LineFault;
use cm_strace_text::next_argument;
use cm_strace_values::{Outcome, read_capability, read_securebits};
use cm_tokens::read_number;

/// The next argument, and what is left after it; this fault where there is none.
pub(crate) fn needed(
    left: Option<&[u8]>,
    why: LineFault,
) -> Result<(&[u8], Option<&[u8]>), LineFault>
    ensures next { IfOk result (λ next. arguments_in left.entry ≡ next.0.now ∷ arguments_in next.1) }
    ensures none { IfErr result (λ fault. arguments_in left.entry ≡ []) }
    ensures fault { IfErr result (λ fault. fault ≡ why) }
{
    match next_argument(left) {
        Some(next) => Ok(next),
        None => Err(why),
    }
}

/// The fault where the argument of that number is missing, which decides what a call is: that of the result comes
/// first.
pub(crate) fn lacking(outcome: Outcome, number: u32) -> LineFault
    ensures { result ≡ lacking (outcome_is outcome) number }
{
    match outcome {
        Outcome::Other => LineFault::Outcome,
        _ => LineFault::Argument(number),
    }
}

/// The next argument, an empty text where there is none, and what is left after it.
pub(crate) fn next_text(left: Option<&[u8]>) -> (&[u8], Option<&[u8]>)
    ensures text { result.0.now ≡ text_of 1 (arguments_in left.entry) }
    ensures rest { arguments_in result.1 ≡ drop 1 (arguments_in left.entry) }
{
    match next_argument(left) {
        Some(next) => next,
        None => (&[], None),
    }
}

/// The number that the next argument is. None exactly where it is none.
pub(crate) fn number_of(left: Option<&[u8]>) -> Option<u32>
    ensures { result ≡ number_of 1 (arguments_in left.entry) }
{
    let (text, _) = next_text(left);
    read_number(text)
}

/// The number that the next argument is, which has that number, or its fault.
pub(crate) fn number(place: u32, left: Option<&[u8]>) -> Result<u32, LineFault>
    ensures { result ≡ first_read number_token place (arguments_in left.entry) }
{
    let (text, _) = needed(left, LineFault::Argument(place))?;
    read_number(text).ok_or(LineFault::Argument(place))
}

/// The capability that the next argument is, which has that number, or its fault.
pub(crate) fn capability(number: u32, left: Option<&[u8]>) -> Result<u32, LineFault>
    ensures { result ≡ first_capability number (arguments_in left.entry) }
{
    read_capability(left).ok_or(LineFault::Argument(number))
}

/// The securebits that the next argument is, which has that number, or its fault.
pub(crate) fn bits(number: u32, left: Option<&[u8]>) -> Result<u32, LineFault>
    ensures { result ≡ first_read securebits number (arguments_in left.entry) }
{
    let (text, _) = needed(left, LineFault::Argument(number))?;
    read_securebits(text).ok_or(LineFault::Argument(number))
}
