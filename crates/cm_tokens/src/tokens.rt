// The tokens of a line, which blanks part, and what single tokens stand for.
ghost use Rattle.std.specs.Prelude.{◌≡◌, ◌⊎◌, ◌+◌, ◌<◌, ◌≤◌, ℕ, [], ◌∷◌, IfSome, MatchOption, true, false, length, slice_index};
ghost use Rattle.model_text.specs.Cut.{tokens_of, is_blank, goes_on};
ghost use Rattle.model_text.specs.Token.{number_token, pid_token, id_token, cap_token, word_token, is_comment, is_equals};

use cm_base::{Cap, MINUS_ONE, Pid, read_u32};

/// The first token of a text, and what follows it. None exactly where the text has no token.
#[inline]
pub fn next_token(text: &[u8]) -> Option<(&[u8], &[u8])>
    ensures parts { MatchOption result (tokens_of text.now ≡ []) (λ p. tokens_of text.now ≡ p.0.now ∷ tokens_of p.1.now) }
    ensures some { IfSome result (λ p. 0 < length p.0.now) }
    ensures shorter { IfSome result (λ p. length p.0.now + length p.1.now ≤ length text.now) }
{
    let text = skip_blanks(text);
    if text.is_empty() {
        return None;
    }
    let end = token_len(text);
    Some(text.split_at(end))
}

#[inline]
fn skip_blanks(text: &[u8]) -> &[u8]
    ensures same { tokens_of result.now ≡ tokens_of text.now }
    ensures begins { (result.now ≡ []) ⊎ (goes_on result.now ≡ true) }
    ensures shorter { length result.now ≤ length text.now }
{
    let mut rest = text;
    while let [byte, after @ ..] = rest {
        if !is_blank(*byte) {
            return rest;
        }
        rest = after;
    }
    rest
}

/// How many bytes stand before the first blank.
#[inline]
pub fn token_len(text: &[u8]) -> usize
    ensures within { result ≤ length text.now }
    ensures token { (k : ℕ) → k < result → is_blank (slice_index text.now k) ≡ false }
    ensures ended { result < length text.now → is_blank (slice_index text.now result) ≡ true }
{
    for (i, byte) in text.iter().enumerate() {
        if is_blank(*byte) {
            return i;
        }
    }
    text.len()
}

/// The byte is a space, a tab or a CR.
#[inline]
pub fn is_blank(byte: u8) -> bool
    ensures { result ≡ is_blank byte }
{
    byte == b' ' || byte == b'\t' || byte == b'\r'
}

/// The token begins a comment.
#[inline]
pub fn begins_comment(token: &[u8]) -> bool
    ensures { result ≡ is_comment token.now }
{
    match token {
        [first, ..] => *first == b';',
        [] => false,
    }
}

/// The token is `=`, which stands in front of a result.
#[inline]
pub fn stands_for_equals(token: &[u8]) -> bool
    ensures { result ≡ is_equals token.now }
{
    token == b"=".as_slice()
}

/// The pid that a token is.
#[inline]
pub fn read_pid(token: &[u8]) -> Option<Pid>
    ensures { result ≡ pid_token token.now }
{
    match read_u32(token) {
        Ok(n) => Pid::new(n),
        Err(_) => None,
    }
}

/// The id that a token is: a number, or -1, which is 4294967295.
#[inline]
pub fn read_id(token: &[u8]) -> Option<u32>
    ensures { result ≡ id_token token.now }
{
    if token == b"-1".as_slice() {
        return Some(MINUS_ONE);
    }
    read_u32(token).ok()
}

/// The number that a token is: decimal digits, of at most 4294967295.
#[inline]
pub fn read_number(token: &[u8]) -> Option<u32>
    ensures { result ≡ number_token token.now }
{
    read_u32(token).ok()
}

/// The capability that a token is: the number of its name, or a number, whether or not there is such a capability.
pub fn read_cap(token: &[u8]) -> Option<u32>
    ensures { result ≡ cap_token token.now }
{
    match Cap::from_name(token) {
        Some(cap) => Some(cap.number() as u32),
        None => read_number(token),
    }
}

/// The word of a setgroups file that a token is: true for `deny`, false for `allow`.
pub fn read_word(token: &[u8]) -> Option<bool>
    ensures { result ≡ word_token token.now }
{
    if token == b"allow".as_slice() {
        return Some(false);
    }
    if token == b"deny".as_slice() {
        return Some(true);
    }
    None
}
