// What texts are cut at: blanks, marks, the names of calls and of errors, and the ends of quoted texts.
ghost use Rattle.std.specs.Prelude.{◌≡◌, ◌≢◌, ◌<◌, ◌≤◌, ◌++◌, ℕ, List, IsTrue, bytes_eq, drop, length, not, option_map, slice_index};
ghost use Rattle.std.specs.List.{prefix_len};
ghost use Rattle.cm_strace_text.specs.Places.{quote_end};
ghost use Rattle.model_strace.specs.Marks.{after_first_word, after_mark, before_mark, cut_at, first_word, is_word_byte, name_at};
ghost use Rattle.model_strace.specs.Marks.{trimmed, without_end, without_front};
ghost use Rattle.model_text.specs.Cut.{is_blank};

use cm_tokens::{is_blank, token_len};
use memchr::memchr2;

/// The text without the blanks at its front.
#[inline]
pub fn without_front(text: &[u8]) -> &[u8]
    ensures { result.now ≡ without_front text.now }
{
    let mut rest = text;
    while let [byte, after @ ..] = rest {
        if !is_blank(*byte) {
            return rest;
        }
        rest = after;
    }
    rest
}

/// The text without the blanks at its end.
pub(crate) fn without_end(text: &[u8]) -> &[u8]
    ensures { result.now ≡ without_end text.now }
{
    let mut end = text.len();
    while end > 0 && is_blank(text[end - 1]) {
        end -= 1;
    }
    let (front, _) = text.split_at(end);
    front
}

/// The text without the blanks at both ends.
pub fn trimmed(text: &[u8]) -> &[u8]
    ensures { result.now ≡ trimmed text.now }
{
    without_front(without_end(text))
}

/// What stands before the first blank, and what after the blanks that follow it.
#[tactic(auto, using(crate::proofs::Cuts::front_len))]
pub(crate) fn cut_word(text: &[u8]) -> (&[u8], &[u8])
    ensures word { result.0.now ≡ first_word text.now }
    ensures rest { result.1.now ≡ after_first_word text.now }
{
    let (word, rest) = text.split_at(word_len(text));
    (word, without_front(rest))
}

// How many bytes stand before the first blank.
fn word_len(text: &[u8]) -> usize
    ensures len { result ≡ prefix_len (λ byte. not (is_blank byte)) text.now }
    ensures within { result ≤ length text.now }
{
    token_len(text)
}

/// What follows the mark at the text's front. None exactly where it isn't there.
#[inline]
pub fn after_mark<'a>(mark: &[u8], text: &'a [u8]) -> Option<&'a [u8]>
    ensures { option_map (λ rest. rest.now) result ≡ after_mark mark.now text.now }
{
    let mut rest = text;
    for byte in mark {
        match rest {
            [first, after @ ..] if *first == *byte => rest = after,
            _ => return None,
        }
    }
    Some(rest)
}

/// What precedes the mark at the text's end. None exactly where it isn't there.
#[inline]
pub fn before_mark<'a>(mark: &[u8], text: &'a [u8]) -> Option<&'a [u8]>
    ensures { option_map (λ front. front.now) result ≡ before_mark mark.now text.now }
{
    let (front, end) = text.split_at(text.len().saturating_sub(mark.len()));
    if is_word(end, mark) {
        Some(front)
    } else {
        None
    }
}

/// The text is that word: most texts are told from it by their lengths.
#[inline]
pub fn is_word(word: &[u8], text: &[u8]) -> bool
    ensures { result ≡ bytes_eq text.now word.now }
{
    text.len() == word.len() && after_mark(text, word).is_some()
}

/// What precedes and what follows the first place of a mark. None exactly where it has none.
pub fn cut_at<'a>(mark: &[u8], text: &'a [u8]) -> Option<(&'a [u8], &'a [u8])>
    ensures { option_map (λ sides. (sides.0.now, sides.1.now)) result ≡ cut_at mark.now text.now }
{
    for at in 0..text.len() {
        let (before, rest) = text.split_at(at);
        if let Some(after) = after_mark(mark, rest) {
            return Some((before, after));
        }
    }
    None
}

/// The name at the text's front, letters, digits and `_`, an empty one where there is none, and what follows it.
pub fn cut_name(text: &[u8]) -> (&[u8], &[u8])
    ensures name { result.0.now ≡ name_at text.now }
    ensures rest { result.1.now ≡ drop (length (name_at text.now)) text.now }
{
    let mut len = 0;
    while len < text.len() && is_word_byte(text[len]) {
        len += 1;
    }
    text.split_at(len)
}

/// Another byte follows the name at the text's front: then it is the same one, whatever comes after the text.
pub fn ends_name(text: &[u8]) -> bool
    ensures { IsTrue result → (more : List ℕ) → name_at (text.now ++ more) ≡ name_at text.now }
{
    let (_, rest) = cut_name(text);
    !rest.is_empty()
}

#[inline]
fn is_word_byte(byte: u8) -> bool
    ensures { result ≡ is_word_byte byte }
{
    (b'A' <= byte && byte <= b'Z')
        || (b'a' <= byte && byte <= b'z')
        || (b'0' <= byte && byte <= b'9')
        || byte == b'_'
}

// The place after the quote that ends a quoted text, which goes on at that place, or the text's end.
#[inline]
pub(crate) fn quote_end(text: &[u8], from: usize) -> usize
    requires { from ≤ length text.now }
    ensures end { result ≡ quote_end from text.now }
    ensures after { from ≤ result }
    ensures within { result ≤ length text.now }
{
    let mut next = from;
    'quoted: loop {
        let at = next_of(b'"', b'\\', text, next);
        if at == text.len() {
            return at;
        }
        if text[at] == b'"' {
            return at + 1;
        }
        next = escape_end(text, at);
    }
}

// The place after a backslash in quotes and the byte that follows it, where one does.
#[inline]
#[tactic(auto, using(crate::proofs::QuoteEnds::escape_stands, crate::proofs::QuoteEnds::slash_ends))]
fn escape_end(text: &[u8], at: usize) -> usize
    requires within { at < length text.now }
    requires slash { slice_index text.now at ≡ 92 }
    ensures same { quote_end at text.now ≡ quote_end result text.now }
    ensures after { at < result }
    ensures within { result ≤ length text.now }
{
    if at + 1 < text.len() { at + 2 } else { at + 1 }
}

// The first place from that one on at which one of two bytes stands, or the text's end.
#[inline]
pub(crate) fn next_of(first: u8, second: u8, text: &[u8], from: usize) -> usize
    requires { from ≤ length text.now }
    ensures before { (k : ℕ) → from ≤ k → k < result → (slice_index text.now k ≢ first) × (slice_index text.now k ≢ second) }
    ensures ended { result < length text.now → slice_index text.now result ≢ first → slice_index text.now result ≡ second }
    ensures after { from ≤ result }
    ensures within { result ≤ length text.now }
{
    let (_, rest) = text.split_at(from);
    match memchr2(first, second, rest) {
        Some(at) => from + at,
        None => text.len(),
    }
}
