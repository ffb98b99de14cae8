// An attribute from its bytes (capabilities(7), "File capability extended attribute versioning"): words of 32 bits, the low
// byte first.
ghost use Rattle.std.specs.Prelude.{◌≡◌, ◌+◌, ◌≤◌, length, IfOk, IfErr, Ok, Err};
ghost use Rattle.model_cred.specs.Attribute.{attribute_of, attribute_as, caps_with, set_of_words, word_at as model_word_at};
ghost use Rattle.cm_vfscap.specs.Fault.{fault_of};

use crate::layout::{EFFECTIVE, SIZE_2, SIZE_3, VERSION_2, VERSION_3};
use crate::{BadCap, FileCaps};
use cm_base::CapWord;

/// The attribute that the bytes are. First `Size` of their number where it is neither 20 (version 2) nor 24 (version 3);
/// then `Version` of their first word where that, without its effective bit, isn't 0x02000000 or 0x03000000, by their
/// number. Bits above 40 are dropped, and version 2 has root id 0 (choice).
pub fn read(bytes: &[u8]) -> Result<FileCaps, BadCap>
    ensures read { IfOk result (λ caps. attribute_of bytes.now ≡ Ok caps) }
    ensures refused { IfErr result (λ fault. attribute_of bytes.now ≡ Err (fault_of fault)) }
{
    if bytes.len() == SIZE_2 {
        return read_as(VERSION_2, 0, bytes);
    }
    if bytes.len() == SIZE_3 {
        return read_as(VERSION_3, word_at(bytes, 20), bytes);
    }
    Err(BadCap::Size(bytes.len()))
}

// The attribute with that root id, where its first word is the version's.
fn read_as(version: u32, root: u32, bytes: &[u8]) -> Result<FileCaps, BadCap>
    requires { 20 ≤ length bytes.now }
    ensures read { IfOk result (λ caps. attribute_as version root bytes.now ≡ Ok caps) }
    ensures refused { IfErr result (λ fault. attribute_as version root bytes.now ≡ Err (fault_of fault)) }
{
    let first = word_at(bytes, 0);
    if first ^ (first & EFFECTIVE) != version {
        return Err(BadCap::Version(first));
    }
    Ok(caps_with(root, bytes))
}

// What stands after the first word, with that root id.
fn caps_with(root: u32, bytes: &[u8]) -> FileCaps
    requires { 20 ≤ length bytes.now }
    ensures { result ≡ caps_with root bytes.now }
{
    FileCaps {
        permitted: set_of(word_at(bytes, 4), word_at(bytes, 12)),
        inheritable: set_of(word_at(bytes, 8), word_at(bytes, 16)),
        effective: word_at(bytes, 0) & EFFECTIVE != 0,
        root,
    }
}

// The set of a low and a high word.
fn set_of(low: u32, high: u32) -> CapWord
    ensures { result ≡ set_of_words low high }
{
    CapWord::from_bits(u64::from(low) + (u64::from(high) << 32))
}

// The word that stands from a place on.
fn word_at(bytes: &[u8], i: usize) -> u32
    requires { i + 4 ≤ length bytes.now }
    ensures { result ≡ model_word_at bytes.now i }
{
    u32::from_le_bytes([bytes[i], bytes[i + 1], bytes[i + 2], bytes[i + 3]])
}
