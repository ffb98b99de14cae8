// The arguments of a call as they are written, each after a blank, read from the front of a text: each reader gives
// what the argument stands for and what follows it. None says nothing of the text.
ghost use Rattle.std.specs.Prelude.{◌≡◌, ◌<◌, ◌++◌, IfSome, Some, true, codes, decimal, length};
ghost use Rattle.cm_declared.specs.World.{world_of};
ghost use Rattle.cm_script.specs.Own.{Takes};
ghost use Rattle.model_cred.specs.World as worlds;
ghost use Rattle.model_text.specs.Arguments as argument;
ghost use Rattle.model_text.specs.SpaceToken.{space_token};
ghost use Rattle.model_text.specs.Token.{cap_name_or_number, file_text, file_token};

use super::numbers::{take_decimal, take_id};
use super::pieces::{after_blank, after_piece, take_word};
use super::sets::take_set;
use crate::files::read_file;
use cm_base::{CAP_COUNT, Cap, FileRef, SpaceId};
use cm_declared::{Names, World};
use cm_files::FileTable;

/// An id.
#[inline]
pub(crate) fn own_id(text: &[u8]) -> Option<(u32, &[u8])>
    ensures taken { (w : worlds.World) → IfSome result (λ p. Takes w text.now (argument.Id p.0) p.1.now) }
    ensures shorter { IfSome result (λ p. length p.1.now < length text.now) }
{
    take_id(after_blank(text)?)
}

/// A number.
#[inline]
pub(crate) fn own_number(text: &[u8]) -> Option<(u32, &[u8])>
    ensures taken { (w : worlds.World) → IfSome result (λ p. Takes w text.now (argument.Number p.0) p.1.now) }
    ensures shorter { IfSome result (λ p. length p.1.now < length text.now) }
{
    take_decimal(after_blank(text)?)
}

/// A capability.
pub(crate) fn own_cap(text: &[u8]) -> Option<(u32, &[u8])>
    ensures { (w : worlds.World) → IfSome result (λ p. Takes w text.now (argument.Cap p.0) p.1.now) }
{
    take_cap(after_blank(text)?)
}

// A capability by its name, or by its number where it has none.
fn take_cap(text: &[u8]) -> Option<(u32, &[u8])>
    ensures { IfSome result (λ p. text.now ≡ cap_name_or_number p.0 ++ p.1.now) }
{
    if let Some((number, rest)) = take_decimal(text) {
        if number < CAP_COUNT as u32 {
            return None;
        }
        return Some((number, rest));
    }
    let (name, rest) = take_word(text)?;
    match Cap::from_name(name) {
        Some(cap) => Some((cap.number() as u32, rest)),
        None => None,
    }
}

/// A set of capabilities, as a word.
#[inline]
pub(crate) fn own_set(text: &[u8]) -> Option<(u64, &[u8])>
    ensures { (w : worlds.World) → IfSome result (λ p. Takes w text.now (argument.Set p.0) p.1.now) }
{
    take_set(after_blank(text)?)
}

/// A user namespace, by its token.
pub(crate) fn own_space<'a>(text: &'a [u8], w: &World) -> Option<(SpaceId, &'a [u8])>
    ensures { IfSome result (λ p. Takes (world_of w.now) text.now (argument.Space p.0.0) p.1.now) }
{
    let (word, rest) = take_word(after_blank(text)?)?;
    let space = w.names.space(word)?;
    if !is_written_so(space, &w.names, word) {
        return None;
    }
    Some((space, rest))
}

// The space is written so: by its name, or by its number where it has none.
fn is_written_so(space: SpaceId, names: &Names, word: &[u8]) -> bool
    ensures { result ≡ true → space_token names.now space.0 ≡ word.now }
{
    match names.name(space) {
        Some(name) => name.as_bytes() == word,
        None => is_number_so(space, word),
    }
}

// A `#` and the number of the space are written so.
fn is_number_so(space: SpaceId, word: &[u8]) -> bool
    ensures { result ≡ true → codes "#" ++ decimal space.0 ≡ word.now }
{
    match word {
        [b'#', digits @ ..] => match take_decimal(digits) {
            Some((number, [])) => number == space.0,
            _ => false,
        },
        _ => false,
    }
}

/// The word of a setgroups file: true for `deny`.
pub(crate) fn own_word(text: &[u8]) -> Option<(bool, &[u8])>
    ensures { (w : worlds.World) → IfSome result (λ p. Takes w text.now (argument.Word p.0) p.1.now) }
{
    if let Some(rest) = after_piece(text, b" deny") {
        return Some((true, rest));
    }
    let rest = after_piece(text, b" allow")?;
    Some((false, rest))
}

/// A file, by its path or by `-`.
pub(crate) fn own_file<'a>(text: &'a [u8], w: &World) -> Option<(FileRef, &'a [u8])>
    ensures { IfSome result (λ p. Takes (world_of w.now) text.now (argument.File p.0) p.1.now) }
{
    let (word, rest) = take_word(after_blank(text)?)?;
    let file = file_written_so(word, &w.files)?;
    Some((file, rest))
}

// The file that is written so: a declared one by its path, the plain one by `-`.
fn file_written_so(word: &[u8], files: &FileTable) -> Option<FileRef>
    ensures read { IfSome result (λ file. file_token files.now word.now ≡ Some file) }
    ensures written { IfSome result (λ file. file_text files.now file ≡ word.now) }
{
    match read_file(word, files) {
        Some(FileRef::Row(n)) => Some(FileRef::Row(n)),
        Some(FileRef::Plain) if word == b"-".as_slice() => Some(FileRef::Plain),
        _ => None,
    }
}
