// Sets of capabilities and securebits: terms between vertical bars, each of a set, or of a bit.
ghost use Rattle.std.specs.Prelude.{◌≡◌, codes, find, bytes_eq, option_map, option_and_then};
ghost use Rattle.cm_base.specs.CapSet.{single};
ghost use Rattle.cm_base.specs.Names.{cap_of};
ghost use Rattle.cm_strace_values.specs.Tables.{rows_of};
ghost use Rattle.model_strace.specs.Marks.{after_mark};
ghost use Rattle.model_strace.specs.Numbers.{mask, mask_term, securebit, securebits, union_of};

use crate::hex::hex_number;
use cm_base::{Cap, CapWord};
use cm_strace_text::{after_mark, trimmed};
use cm_tokens::first_piece;

/// A set of capabilities: the union of its terms.
pub(crate) fn read_mask(text: &[u8]) -> Option<CapWord>
    ensures { result ≡ mask text.now }
{
    let mut set = CapWord::empty();
    let mut rest = text;
    while let Some((term, more)) = first_piece(rest, b'|') {
        set = set.union(mask_term(trimmed(term))?);
        rest = more;
    }
    Some(set.union(mask_term(trimmed(rest))?))
}

// A term: `0`, or `1<<` and a capability's name.
fn mask_term(text: &[u8]) -> Option<CapWord>
    ensures { result ≡ mask_term text.now }
{
    if text == b"0".as_slice() {
        return Some(CapWord::empty());
    }
    let cap = shifted_cap(text)?;
    Some(single(cap))
}

// The capability of a term `1<<` and its name.
fn shifted_cap(text: &[u8]) -> Option<Cap>
    ensures { result ≡ option_and_then cap_of (after_mark (codes "1<<") text.now) }
{
    let name = after_mark(b"1<<", text)?;
    Cap::from_name(name)
}

// The set of one capability.
#[tactic(auto, using(crate::proofs::Singles::union_none))]
fn single(cap: Cap) -> CapWord
    ensures { result ≡ single cap }
{
    CapWord::empty().with(cap)
}

// The names of the securebits, each with its value (capabilities(7), "The securebits flags").
const SECUREBITS: [(&str, u32); 8] = [
    ("SECBIT_NOROOT", 0x01),
    ("SECBIT_NOROOT_LOCKED", 0x02),
    ("SECBIT_NO_SETUID_FIXUP", 0x04),
    ("SECBIT_NO_SETUID_FIXUP_LOCKED", 0x08),
    ("SECBIT_KEEP_CAPS", 0x10),
    ("SECBIT_KEEP_CAPS_LOCKED", 0x20),
    ("SECBIT_NO_CAP_AMBIENT_RAISE", 0x40),
    ("SECBIT_NO_CAP_AMBIENT_RAISE_LOCKED", 0x80),
];

/// Securebits: `0`, a hexadecimal number, or names.
pub fn read_securebits(text: &[u8]) -> Option<u32>
    ensures { result ≡ securebits text.now }
{
    if text == b"0".as_slice() {
        return Some(0);
    }
    match hex_number(text) {
        Some(bits) => Some(bits),
        None => named_bits(text),
    }
}

// The bits of names.
fn named_bits(text: &[u8]) -> Option<u32>
    ensures { result ≡ union_of securebit text.now }
{
    let mut bits = 0;
    let mut rest = text;
    while let Some((name, more)) = first_piece(rest, b'|') {
        bits |= securebit(trimmed(name))?;
        rest = more;
    }
    Some(bits | securebit(trimmed(rest))?)
}

// The bit of that name.
fn securebit(name: &[u8]) -> Option<u32>
    ensures { result ≡ securebit name.now }
{
    bit_named(name, &SECUREBITS)
}

// The bit of that name in a table.
fn bit_named(name: &[u8], table: &[(&str, u32)]) -> Option<u32>
    ensures { result ≡ option_map (λ bit. bit.1) (find (λ bit. bytes_eq bit.0 name.now) (rows_of (λ bit. bit) table.now)) }
{
    for bit in table {
        if bit.0.as_bytes() == name {
            return Some(bit.1);
        }
    }
    None
}
