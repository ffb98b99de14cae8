// Hexadecimal numbers, of at most 32 bits.
ghost use Rattle.std.specs.Prelude.{◌≡◌};
ghost use Rattle.cm_strace_values.specs.Hex.{of_32_bits, with_digit};
ghost use Rattle.model_strace.specs.Numbers.{hex_digits, hex_number};
ghost use Rattle.model_text.specs.CapText.{hex_after};

use cm_strace_text::after_mark;
use cm_tokens::hex_value;

/// A hexadecimal number: `0x` and digits.
pub(crate) fn hex_number(text: &[u8]) -> Option<u32>
    ensures { result ≡ hex_number text.now }
{
    let digits = after_mark(b"0x", text)?;
    hex_digits(digits)
}

// At least one digit, and digits alone.
fn hex_digits(text: &[u8]) -> Option<u32>
    ensures { result ≡ hex_digits text.now }
{
    match text {
        [] => None,
        [_, ..] => number_of(text),
    }
}

// The number that the digits spell.
fn number_of(text: &[u8]) -> Option<u32>
    ensures { result ≡ of_32_bits (hex_after 0 text.now) }
{
    let mut number = 0;
    for byte in text {
        number = digit_after(number, *byte)?;
    }
    Some(number)
}

// The number with a digit more.
#[inline]
fn digit_after(number: u32, byte: u8) -> Option<u32>
    ensures { result ≡ with_digit number byte }
{
    let digit = hex_value(byte)?;
    u32::try_from(16 * u64::from(number) + u64::from(digit)).ok()
}
