// Digits of decimal and of hexadecimal numbers.
ghost use Rattle.std.specs.Prelude.{◌≡◌, ◌+◌, ◌<◌, ◌≤◌, ◌∷◌, ℕ, List, IfSome, None};
ghost use Rattle.model_text.specs.CapText.{hex_value};

/// The value of a hexadecimal digit.
pub fn hex_value(byte: u8) -> Option<u8>
    ensures value { result ≡ hex_value byte }
    ensures range { IfSome result (λ digit. digit < 16) }
{
    if b'0' <= byte && byte <= b'9' {
        Some(byte - b'0')
    } else if b'a' <= byte && byte <= b'f' {
        Some(byte - b'a' + 10)
    } else if b'A' <= byte && byte <= b'F' {
        Some(byte - b'A' + 10)
    } else {
        None
    }
}

/// The decimal digit that a text begins with, and what follows it. None exactly where it begins with none.
#[inline]
pub fn take_digit(text: &[u8]) -> Option<(u8, &[u8])>
    ensures digit { IfSome result (λ p. text.now ≡ (48 + p.0) ∷ p.1.now) }
    ensures low { IfSome result (λ p. p.0 < 10) }
    ensures none { (digit : ℕ) (rest : List ℕ) → result ≡ None → text.now ≡ (48 + digit) ∷ rest → 10 ≤ digit }
{
    match text {
        [byte, rest @ ..] if b'0' <= *byte && *byte <= b'9' => Some((*byte - b'0', rest)),
        _ => None,
    }
}
