// Pieces of a line that stands as events are written, read from the front of a text. None says nothing of the text.
ghost use Rattle.std.specs.Prelude.{◌≡◌, ◌≤◌, ◌∷◌, ◌++◌, IfSome, codes, length, take};
ghost use Rattle.cm_script.specs.Own.{IsPlain, IsWord};

/// What follows a blank.
#[inline]
pub(crate) fn after_blank(text: &[u8]) -> Option<&[u8]>
    ensures { IfSome result (λ rest. text.now ≡ 32 ∷ rest.now) }
{
    match text {
        [b' ', rest @ ..] => Some(rest),
        _ => None,
    }
}

/// What follows the `=` in front of a result, and the blanks around it.
#[inline]
pub(crate) fn after_equals(text: &[u8]) -> Option<&[u8]>
    ensures { IfSome result (λ rest. text.now ≡ codes " = " ++ rest.now) }
{
    match text {
        [b' ', b'=', b' ', rest @ ..] => Some(rest),
        _ => None,
    }
}

/// What follows a piece.
pub(crate) fn after_piece<'a>(text: &'a [u8], piece: &[u8]) -> Option<&'a [u8]>
    ensures { IfSome result (λ rest. text.now ≡ piece.now ++ rest.now) }
{
    text.strip_prefix(piece)
}

/// A word, and what follows it.
#[inline]
pub(crate) fn take_word(text: &[u8]) -> Option<(&[u8], &[u8])>
    ensures text { IfSome result (λ p. text.now ≡ p.0.now ++ p.1.now) }
    ensures word { IfSome result (λ p. IsWord p.0.now) }
{
    let (word, rest) = text.split_at(plain_len(text));
    if word.is_empty() || word.len() > 4095 || word == b"=".as_slice() {
        return None;
    }
    Some((word, rest))
}

// How many bytes stand before the first that isn't above the blank.
#[inline]
fn plain_len(text: &[u8]) -> usize
    ensures within { result ≤ length text.now }
    ensures plain { IsPlain (take result text.now) }
{
    for (i, byte) in text.iter().enumerate() {
        if *byte <= b' ' {
            return i;
        }
    }
    text.len()
}
