// The pieces of a text that a byte parts, as a comma parts names.
ghost use Rattle.std.specs.Prelude.{◌≡◌, ◌<◌, ◌∷◌, [], ◌==◌, length, position, IfSome, IfNone};
ghost use Rattle.std.specs.List.{slice_split};

/// What stands before the first byte that parts pieces, and what after it. None exactly where there is none: the text is one
/// piece then.
pub fn first_piece(text: &[u8], mark: u8) -> Option<(&[u8], &[u8])>
    ensures cut { IfSome result (λ cut. slice_split (λ byte. byte == mark) text.now ≡ cut.0.now ∷ slice_split (λ byte. byte == mark) cut.1.now) }
    ensures shorter { IfSome result (λ cut. length cut.1.now < length text.now) }
    ensures whole { IfNone result (slice_split (λ byte. byte == mark) text.now ≡ text.now ∷ []) }
{
    let place = place_of(text, mark)?;
    Some((&text[..place], &text[place + 1..]))
}

/// The first place of a byte.
fn place_of(text: &[u8], mark: u8) -> Option<usize>
    ensures first { result ≡ position (λ byte. byte == mark) text.now }
    ensures within { IfSome result (λ place. place < length text.now) }
{
    text.iter().position(|byte| *byte == mark)
}
