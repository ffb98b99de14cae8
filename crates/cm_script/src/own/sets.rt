// Sets of capabilities as they are written: 16 hexadecimal digits in lower case, read from the front of a text.
ghost use Rattle.std.specs.Prelude.{◌≡◌, ◌<◌, ◌++◌, IfSome, length};
ghost use Rattle.cm_base.specs.CapSet.{IsCapSet};
ghost use Rattle.model_text.specs.Hex.{hex, hex_digit, hex_set};

use cm_base::ALL_CAPS;

/// A set as a word, and what follows it. None says nothing of the text.
#[inline]
pub(crate) fn take_set(text: &[u8]) -> Option<(u64, &[u8])>
    ensures written { IfSome result (λ p. text.now ≡ hex_set p.0 ++ p.1.now) }
    ensures set { IfSome result (λ p. IsCapSet p.0) }
{
    if text.len() < 16 {
        return None;
    }
    let (digits, rest) = text.split_at(16);
    let bits = hex_number(digits)?;
    if bits > ALL_CAPS {
        return None;
    }
    Some((bits, rest))
}

// The number that 16 digits write.
#[inline]
fn hex_number(digits: &[u8]) -> Option<u64>
    requires { length digits.now ≡ 16 }
    ensures { IfSome result (λ number. digits.now ≡ hex 16 number) }
{
    let mut number: u64 = 0;
    for byte in digits {
        number = 16 * number + u64::from(digit_value(*byte)?);
    }
    Some(number)
}

// The value of a digit.
#[inline]
fn digit_value(byte: u8) -> Option<u8>
    ensures digit { IfSome result (λ digit. byte ≡ hex_digit digit) }
    ensures low { IfSome result (λ digit. digit < 16) }
{
    if b'0' <= byte && byte <= b'9' {
        Some(byte - b'0')
    } else if b'a' <= byte && byte <= b'f' {
        Some(byte - b'a' + 10)
    } else {
        None
    }
}
