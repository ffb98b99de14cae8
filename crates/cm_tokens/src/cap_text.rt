// The texts of sets of capabilities, in worlds and in log lines (choice).
ghost use Rattle.std.specs.Prelude.{◌≡◌, ◌≤◌, length};
ghost use Rattle.model_text.specs.CapText.{hex_after, digits_set, names_set, set_of_text};

use crate::{first_piece, hex_value};
use cm_base::{Cap, CapWord};

/// The set of capabilities that a text stands for: `all`, `none`, 16 hexadecimal digits of either case, of which the bits
/// above 40 are dropped, or names joined by commas (choice; the names are those of capabilities(7)). None for any other
/// text. It takes no memory.
pub fn read_cap_text(text: &[u8]) -> Option<CapWord>
    ensures { result ≡ set_of_text text.now }
{
    if text == b"all".as_slice() {
        return Some(CapWord::full());
    }
    if text == b"none".as_slice() {
        return Some(CapWord::empty());
    }
    match digits_set(text) {
        Some(set) => Some(set),
        None => names_set(text),
    }
}

/// 16 hexadecimal digits as a set; bits above 40 are dropped.
fn digits_set(text: &[u8]) -> Option<CapWord>
    ensures { result ≡ digits_set text.now }
{
    if text.len() != 16 {
        return None;
    }
    Some(CapWord::from_bits(hex_number(text)?))
}

/// The number that at most 16 hexadecimal digits spell.
fn hex_number(text: &[u8]) -> Option<u64>
    requires { length text.now ≤ 16 }
    ensures { result ≡ hex_after 0 text.now }
{
    let mut number: u64 = 0;
    for byte in text {
        number = 16 * number + u64::from(hex_value(*byte)?);
    }
    Some(number)
}

/// Names joined by commas as a set.
fn names_set(text: &[u8]) -> Option<CapWord>
    ensures { result ≡ names_set text.now }
{
    let mut set = CapWord::empty();
    let mut rest = text;
    while let Some((name, more)) = first_piece(rest, b',') {
        set = set.with(Cap::from_name(name)?);
        rest = more;
    }
    Some(set.with(Cap::from_name(rest)?))
}
