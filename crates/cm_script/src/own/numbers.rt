// Numbers as events are written, read from the front of a text: each reader gives the number and what follows it. None
// says nothing of the text.
ghost use Rattle.std.specs.Prelude.{◌≡◌, ◌++◌, IfSome, decimal};
ghost use Rattle.model_text.specs.Token.{id_text};

use cm_base::{MINUS_ONE, Pid};
use cm_tokens::take_digit;

/// A number in decimal digits, without leading zeros.
#[inline]
pub(crate) fn take_decimal(text: &[u8]) -> Option<(u32, &[u8])>
    ensures { IfSome result (λ p. text.now ≡ decimal p.0 ++ p.1.now) }
{
    let (first, after) = take_digit(text)?;
    if first == 0 {
        return Some((0, after));
    }
    let mut number = u64::from(first);
    let mut rest = after;
    while let Some((digit, after)) = take_digit(rest) {
        number = 10 * number + u64::from(digit);
        if number > u64::from(u32::MAX) {
            return None;
        }
        rest = after;
    }
    Some((number as u32, rest))
}

/// An id: a number, or `-1` for 4294967295.
#[inline]
pub(crate) fn take_id(text: &[u8]) -> Option<(u32, &[u8])>
    ensures { IfSome result (λ p. text.now ≡ id_text p.0 ++ p.1.now) }
{
    if let [b'-', b'1', rest @ ..] = text {
        return Some((MINUS_ONE, rest));
    }
    let (id, rest) = take_decimal(text)?;
    if id == MINUS_ONE {
        return None;
    }
    Some((id, rest))
}

/// A pid.
#[inline]
pub(crate) fn take_pid(text: &[u8]) -> Option<(Pid, &[u8])>
    ensures { IfSome result (λ p. text.now ≡ decimal p.0 ++ p.1.now) }
{
    let (number, rest) = take_decimal(text)?;
    match Pid::new(number) {
        Some(pid) => Some((pid, rest)),
        None => None,
    }
}
