// Pieces of text and numbers, written at the end of a buffer: decimal, hexadecimal, and the ids of calls. Each function
// promises the text of the definitions; where there is no memory, what the buffer holds isn't said.
ghost use Rattle.std.specs.Prelude.{◌≡◌, ◌<◌, decimal};
ghost use Rattle.cm_base.specs.Outcome.{OrNoMemory};
ghost use Rattle.cm_tokens.specs.Pieces.{Appends};
ghost use Rattle.model_text.specs.Hex.{hex_digit, hex_set, hex_bits};
ghost use Rattle.model_text.specs.Token.{id_text};

use cm_base::{ALL_CAPS, MINUS_ONE, NoMemory};
use itoa::Buffer;

const DIGITS: [u8; 16] = *b"0123456789abcdef";

/// The piece as it is.
#[inline]
pub fn put(text: &mut Vec<u8>, piece: &[u8]) -> Result<(), NoMemory>
    ensures { OrNoMemory result (λ _. Appends text.old.items text.new.items piece.now) }
{
    text.extend_from_slice(piece)?;
    Ok(())
}

/// The number in decimal. One digit, as the id of root is, goes at once.
#[inline]
#[tactic(auto, using(std::proofs::lemmas::Fmt::decimal_digit))]
pub fn put_decimal(text: &mut Vec<u8>, n: u64) -> Result<(), NoMemory>
    ensures { OrNoMemory result (λ _. Appends text.old.items text.new.items (decimal n)) }
{
    if n < 10 {
        text.push(b'0' + n as u8)?;
        return Ok(());
    }
    put(text, Buffer::new().format(n).as_bytes())
}

/// An id of a call: `-1` for 4294967295, which stands for none.
#[inline]
pub fn put_id(text: &mut Vec<u8>, id: u32) -> Result<(), NoMemory>
    ensures { OrNoMemory result (λ _. Appends text.old.items text.new.items (id_text id)) }
{
    if id == MINUS_ONE {
        put(text, b"-1")
    } else {
        put_decimal(text, id as u64)
    }
}

/// The set in 16 hexadecimal digits. Most sets are empty or full.
#[inline]
#[tactic(auto, using(crate::proofs::HexDigits::hex_set_none, crate::proofs::HexDigits::hex_set_full))]
pub fn put_hex16(text: &mut Vec<u8>, n: u64) -> Result<(), NoMemory>
    ensures { OrNoMemory result (λ _. Appends text.old.items text.new.items (hex_set n)) }
{
    match n {
        0 => put(text, b"0000000000000000"),
        ALL_CAPS => put(text, b"000001ffffffffff"),
        _ => put(text, &hex16(n)),
    }
}

/// The flags in two hexadecimal digits.
#[inline]
#[tactic(auto, unfolding(model_text::specs::Hex::hex_bits))]
pub fn put_hex2(text: &mut Vec<u8>, n: u8) -> Result<(), NoMemory>
    ensures { OrNoMemory result (λ _. Appends text.old.items text.new.items (hex_bits n)) }
{
    put(text, &[digit(n / 16 % 16), digit(n % 16)])
}

#[inline]
fn digit(d: u8) -> u8
    requires { d < 16 }
    ensures { result ≡ hex_digit d }
{
    DIGITS[d as usize]
}

#[inline]
fn hex16(n: u64) -> [u8; 16]
    ensures { result ≡ hex_set n }
{
    let mut digits = [0; 16];
    let mut left = n;
    let mut at = 16;
    while at > 0 {
        at -= 1;
        digits[at] = digit((left % 16) as u8);
        left /= 16;
    }
    digits
}
