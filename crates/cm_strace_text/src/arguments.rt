//! The arguments of a call, which commas part, and the members of a structure, which stand alike between braces.
ghost use Rattle.std.specs.Prelude.{◌≡◌, ◌==◌, ◌<◌, ◌≤◌, ◌^◌, ◌+◌, ◌&&◌, ℕ, ◌∷◌, [], false, MatchOption, IsTrue, drop, length, slice_index};
ghost use Rattle.cm_strace_text.specs.Depths.{ends_at, is_stop, len_to, arguments_in};
ghost use Rattle.cm_strace_text.specs.declared.arguments.End.{End};
ghost use Rattle.model_strace.specs.Written as model;
ghost use Rattle.model_strace.specs.Written.{opens, closes, arguments_of, before_closing};

use crate::marks::{quote_end, trimmed};

// What ends a part outside of all brackets and quotes: a comma, or a bracket that closes one before the part.
#[derive(Clone, Copy)]
enum End {
    Comma,
    Closing,
}

/// The arguments in a text, or the members: what is left of it where it isn't empty.
pub fn read_arguments(text: &[u8]) -> Option<&[u8]>
    ensures { arguments_in result ≡ arguments_of text.now }
{
    let text = trimmed(text);
    match text {
        [] => None,
        [_, ..] => Some(text),
    }
}

/// The next argument, and what is left after it. None exactly where there is none.
pub fn next_argument(left: Option<&[u8]>) -> Option<(&[u8], Option<&[u8]>)>
    ensures parts { MatchOption result (arguments_in left.entry ≡ []) (λ next. arguments_in left.entry ≡ next.0.now ∷ arguments_in next.1) }
{
    let text = left?;
    let (part, rest) = text.split_at(len_to(End::Comma, text));
    let part = trimmed(part);
    match rest {
        [_, after @ ..] => Some((part, Some(after))),
        [] => Some((part, None)),
    }
}

/// What stands before the bracket that closes one before the text.
#[tactic(auto, using(crate::proofs::Cuts::closing_cut))]
pub(crate) fn before_closing(text: &[u8]) -> &[u8]
    ensures { result.now ≡ before_closing (model.Open 0) text.now }
{
    let (front, _) = text.split_at(len_to(End::Closing, text));
    front
}

// How many bytes stand before the first such end.
fn len_to(end: End, text: &[u8]) -> usize
    ensures len { result ≡ len_to (ends_at end) (model.Open 0) text.now }
    ensures within { result ≤ length text.now }
{
    let mut depth = 0;
    let mut from = 0;
    'stops: loop {
        let at = next_stop(text, from);
        if at == text.len() {
            return at;
        }
        if ends_here(end, depth, text[at]) {
            return at;
        }
        let (inside, next) = after_stop(depth, text, at);
        depth = inside;
        from = next;
    }
}

// The first place from that one on, in no quotes, whose byte isn't passed over, or the text's end.
#[inline]
fn next_stop(text: &[u8], from: usize) -> usize
    requires { from ≤ length text.now }
    ensures same { (end : End) (depth : ℕ) → result + len_to (ends_at end) (model.Open depth) (drop result text.now)
        ≡ from + len_to (ends_at end) (model.Open depth) (drop from text.now) }
    ensures after { from ≤ result }
    ensures within { result ≤ length text.now }
{
    for at in from..text.len() {
        if !is_calm(text[at]) {
            return at;
        }
    }
    text.len()
}

// The byte is no quote, no comma and no bracket. Most bytes outside of quotes are capitals, in names of flags.
#[inline]
fn is_calm(byte: u8) -> bool
    ensures { IsTrue result → is_stop byte ≡ false }
{
    (b'A' <= byte && byte <= b'Z')
        || (byte != b'"' && byte != b',' && !opens(byte) && !closes(byte))
}

// The byte is such an end, where the reader is so deep in brackets.
#[inline]
fn ends_here(end: End, depth: usize, byte: u8) -> bool
    ensures { result ≡ (depth == 0 && ends_at end byte) }
{
    match end {
        End::Comma => depth == 0 && byte == b',',
        End::Closing => depth == 0 && closes(byte),
    }
}

// How deep the reader is after a byte that ends nothing, and where it goes on: a quoted text is passed over whole, and
// a bracket that closes none leaves it outside of all.
#[inline]
fn after_stop(depth: usize, text: &[u8], at: usize) -> (usize, usize)
    requires few { depth < 2 ^ 63 }
    requires within { at < length text.now }
    ensures same { (end : End) → (depth == 0 && ends_at end (slice_index text.now at)) ≡ false
        → result.1 + len_to (ends_at end) (model.Open result.0) (drop result.1 text.now)
        ≡ at + len_to (ends_at end) (model.Open depth) (drop at text.now) }
    ensures near { result.0 ≤ depth + 1 }
    ensures after { at < result.1 }
    ensures within { result.1 ≤ length text.now }
{
    let byte = text[at];
    if byte == b'"' {
        (depth, quote_end(text, at + 1))
    } else if opens(byte) {
        (depth + 1, at + 1)
    } else if closes(byte) {
        (depth.saturating_sub(1), at + 1)
    } else {
        (depth, at + 1)
    }
}

// `(`, `[` and `{`.
#[inline]
fn opens(byte: u8) -> bool
    ensures { result ≡ opens byte }
{
    byte == b'(' || byte == b'[' || byte == b'{'
}

// `)`, `]` and `}`.
#[inline]
fn closes(byte: u8) -> bool
    ensures { result ≡ closes byte }
{
    byte == b')' || byte == b']' || byte == b'}'
}
