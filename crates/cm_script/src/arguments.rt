// The arguments of a call in a script line, where they are as many as the call may have: their tokens, and what is made of
// one that doesn't stand for what it should.
ghost use Rattle.std.specs.Prelude.{◌≡◌, ◌<◌, ◌∷◌, [], None, Some, IfErr, IfOk, length};
ghost use Rattle.cm_base.specs.declared.faults.LineFault.TheVariants.{Argument};
ghost use Rattle.cm_script.specs.declared.error.LineError.TheVariants.{Bad};
ghost use Rattle.cm_script.specs.Steps.{arguments_in};

use crate::error::LineError;
use crate::parts::next_argument;
use cm_base::LineFault;

/// What the argument of that number, from 1 on, stands for. Its fault, where it stands for nothing.
#[inline]
pub(crate) fn argument<T: Drop>(number: u32, read: Option<T>) -> Result<T, LineError>
    ensures stands { IfOk result (λ x. read ≡ Some x) }
    ensures none { IfErr result (λ why. read ≡ None) }
    ensures fault { IfErr result (λ why. why ≡ Bad (Argument number)) }
{
    match read {
        Some(x) => Ok(x),
        None => Err(LineError::Bad(LineFault::Argument(number))),
    }
}

/// The only argument in a text.
#[inline]
pub(crate) fn only(text: &[u8]) -> &[u8]
    requires { length (arguments_in text.now) ≡ 1 }
    ensures { arguments_in text.now ≡ result.now ∷ [] }
{
    let (token, _) = first(text);
    token
}

/// The two arguments in a text.
#[inline]
pub(crate) fn both(text: &[u8]) -> (&[u8], &[u8])
    requires { length (arguments_in text.now) ≡ 2 }
    ensures { arguments_in text.now ≡ result.0.now ∷ result.1.now ∷ [] }
{
    let (token, rest) = first(text);
    (token, only(rest))
}

/// The three arguments in a text.
#[inline]
pub(crate) fn all_three(text: &[u8]) -> (&[u8], &[u8], &[u8])
    requires { length (arguments_in text.now) ≡ 3 }
    ensures { arguments_in text.now ≡ result.0.now ∷ result.1.now ∷ result.2.now ∷ [] }
{
    let (token, rest) = first(text);
    let (second, third) = both(rest);
    (token, second, third)
}

/// The first argument in a text, and what follows it.
#[inline]
pub(crate) fn first(text: &[u8]) -> (&[u8], &[u8])
    requires { 0 < length (arguments_in text.now) }
    ensures arguments { arguments_in text.now ≡ result.0.now ∷ arguments_in result.1.now }
    ensures shorter { length result.1.now < length text.now }
{
    match next_argument(text) {
        Some(parts) => parts,
        None => (text, text),
    }
}
