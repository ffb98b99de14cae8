// The parts of a call as strace(1) writes it: NAME(ARGUMENTS) = RESULT.
ghost use Rattle.std.specs.Prelude.{◌≡◌, ◌<◌, ◌≤◌, ◌≢◌, IfSome, length, option_map, slice_index};
ghost use Rattle.std.specs.Option.{option_or};
ghost use Rattle.cm_strace_text.specs.Places.{sign_from, written_is};
ghost use Rattle.model_strace.specs.Written.{Plain, call_name, last_sign, without_32, written_of};

use crate::marks::{after_mark, before_mark, cut_name, next_of, quote_end, without_front};
use cm_tokens::is_blank;

/// What stands between the parentheses, and the result.
#[derive(Clone, Copy, Debug)]
pub struct Written<'a> {
    pub inside: &'a [u8],
    pub result: &'a [u8],
}

/// The parts of a call. None exactly where it hasn't the shape of one.
pub fn read_written(text: &[u8]) -> Option<Written<'_>>
    ensures { option_map written_is result ≡ written_of text.now }
{
    let (_, after_name) = cut_name(text);
    let rest = after_mark(b"(", without_front(after_name))?;
    let (paren, sign) = last_sign(rest)?;
    let (inside, _) = rest.split_at(paren);
    let (_, result) = rest.split_at(sign + 1);
    Some(Written {
        inside,
        result: without_front(result),
    })
}

/// The name of the call that a text begins with, an empty one where it begins with no name.
pub fn call_name(text: &[u8]) -> &[u8]
    ensures { result.now ≡ call_name text.now }
{
    let (name, _) = cut_name(text);
    without_32(name)
}

/// The name without a final `32`, which is another number of the same call (setuid(2), "C library/kernel differences").
pub fn without_32(name: &[u8]) -> &[u8]
    ensures { result.now ≡ without_32 name.now }
{
    match before_mark(b"32", name) {
        Some(front) => front,
        None => name,
    }
}

// The places of the last closing parenthesis outside of quotes that an equals sign follows, and of that sign.
fn last_sign(text: &[u8]) -> Option<(usize, usize)>
    ensures places { result ≡ last_sign Plain 0 text.now }
    ensures within { IfSome result (λ places. (places.0 < places.1) × (places.1 < length text.now)) }
{
    let mut last = None;
    let mut from = 0;
    'signs: loop {
        let at = next_of(b'"', b')', text, from);
        if at == text.len() {
            return last;
        }
        let (sign, next) = sign_at(text, at);
        last = sign.or(last);
        from = next;
    }
}

// The places of a closing parenthesis and of the equals sign after it, where the first stands at that place and blanks
// alone between them, and where the reader goes on: after the quoted text that begins there, or after the parenthesis
// and blanks.
#[inline]
#[tactic(auto, using(crate::proofs::SignSteps::sign_steps))]
fn sign_at(text: &[u8], at: usize) -> (Option<(usize, usize)>, usize)
    requires here { slice_index text.now at ≢ 34 → slice_index text.now at ≡ 41 }
    requires within { at < length text.now }
    ensures same { sign_from Plain at text.now ≡ option_or (sign_from Plain result.1 text.now) result.0 }
    ensures places { IfSome result.0 (λ places. (places.0 < places.1) × (places.1 < length text.now)) }
    ensures after { at < result.1 }
    ensures within { result.1 ≤ length text.now }
{
    if text[at] == b'"' {
        return (None, quote_end(text, at + 1));
    }
    for sign in at + 1..text.len() {
        if text[sign] == b'=' {
            return (Some((at, sign)), sign);
        }
        if !is_blank(text[sign]) {
            return (None, sign);
        }
    }
    (None, text.len())
}
