// The open of a file: it is followed where it is one of a process's map files, its setgroups file, or its user
// namespace.
ghost use Rattle.std.specs.Prelude.{◌≡◌, ℕ, Some, IsTrue};
ghost use Rattle.cm_base.specs.Outcome.{OrNoMemory};
ghost use Rattle.cm_strace.specs.Deeds.{deed_is, Waits};
ghost use Rattle.cm_strace.specs.Elsewhere.{IsOther};
ghost use Rattle.cm_strace_calls.specs.Told.{opening_is};
ghost use Rattle.cm_strace_parts.specs.Savepoints.{LeftOnErr};
ghost use Rattle.cm_strace_values.specs.Paths.{followed_is};
ghost use Rattle.model_strace.specs.Files.{file_at, relative_file};
ghost use Rattle.model_strace.specs.Calls as model;
ghost use Rattle.model_strace.specs.Parts as known;
ghost use Rattle.model_strace.specs.Parts.{task_of, without_descriptor};
ghost use Rattle.model_strace.specs.Quoted.{quote_of, whole_text};
ghost use Rattle.model_strace.specs.Turn.{Quiet, follows, opens_of, opens_other, opens_path, opens};

use crate::deed::Deed;
use cm_base::{Limited, LineFault, NoMemory, Pid};
use cm_strace_calls::Opening;
use cm_strace_parts::{Descriptor, Parts};
use cm_strace_text::{Quote, read_quote};
use cm_strace_values::{Named, file_at, relative_file};
use std::alloc::Global;

/// A path is opened as that descriptor. It fails only where memory runs out, and then leaves the parts as they were, or
/// to be rolled back.
pub(crate) fn opens(
    alloc: Global,
    parts: &mut Parts,
    pid: Pid,
    opening: Opening<'_>,
    number: u64,
) -> Result<Deed, NoMemory>
    ensures turn { OrNoMemory result (λ deed. deed_is pid deed parts.new.known
        ≡ opens pid number (opening_is opening.entry) (opening_is opening.entry).path parts.old.known) }
    ensures saved { parts.new.saved ≡ parts.old.saved }
    ensures unchanged { LeftOnErr result parts.new parts.old }
    ensures waits { OrNoMemory result (λ deed. Waits deed parts.new parts.old) }
    ensures spaces { OrNoMemory result (λ _. parts.new.known.spaces ≡ parts.old.known.spaces) }
{
    if leads_elsewhere(opening.path) {
        parts.forget_descriptor(alloc, pid, number)?;
        return Ok(Deed::Quiet);
    }
    match read_quote(alloc, opening.path)? {
        Quote::Bytes(path) => opens_path(alloc, parts, pid, opening, number, &path),
        Quote::Shortened | Quote::NoText => {
            parts.forget_descriptor(alloc, pid, number)?;
            Ok(Deed::Quiet)
        }
    }
}

// The path begins as one of a file outside of /proc, which isn't followed.
fn leads_elsewhere(text: &[u8]) -> bool
    ensures { IsTrue result → (pid number : ℕ) (o : model.Opening) (p : known.Parts)
        → opens pid number o (whole_text (quote_of text.now)) p ≡ Quiet (without_descriptor pid number p) }
{
    match text {
        [b'"', b'/', byte, ..] => begins_other(*byte),
        _ => false,
    }
}

// No path in /proc begins with a slash and this byte, nor does a quoted text end at it.
fn begins_other(byte: u8) -> bool
    ensures { IsTrue result → IsOther byte }
{
    byte != b'p' && byte != b'/' && byte != b'\\' && byte != b'"'
}

// The same of a path that can be read, by the file that it names where it is absolute.
fn opens_path(
    alloc: Global,
    parts: &mut Parts,
    pid: Pid,
    opening: Opening<'_>,
    number: u64,
    path: &[u8],
) -> Result<Deed, NoMemory>
    ensures turn { OrNoMemory result (λ deed. deed_is pid deed parts.new.known
        ≡ opens_path pid number (opening_is opening.entry) path.now (file_at pid path.now) parts.old.known) }
    ensures saved { parts.new.saved ≡ parts.old.saved }
    ensures unchanged { LeftOnErr result parts.new parts.old }
    ensures waits { OrNoMemory result (λ deed. Waits deed parts.new parts.old) }
    ensures spaces { OrNoMemory result (λ _. parts.new.known.spaces ≡ parts.old.known.spaces) }
{
    match file_at(pid, path) {
        Some(named) => if named.file.is_followed(opening.writes()) {
            opens_of(alloc, parts, pid, number, opening.until_exec(), named)
        } else {
            parts.forget_descriptor(alloc, pid, number)?;
            Ok(Deed::Quiet)
        },
        None => opens_other(alloc, parts, pid, number, opening.writes(), path),
    }
}

// Another file: a relative path that may name a file which is followed can't be told from one that does.
fn opens_other(
    alloc: Global,
    parts: &mut Parts,
    pid: Pid,
    number: u64,
    writes: bool,
    path: &[u8],
) -> Result<Deed, NoMemory>
    ensures turn { OrNoMemory result (λ deed. deed_is pid deed parts.new.known
        ≡ opens_other pid number writes (relative_file path.now) parts.old.known) }
    ensures saved { parts.new.saved ≡ parts.old.saved }
    ensures unchanged { LeftOnErr result parts.new parts.old }
    ensures waits { OrNoMemory result (λ deed. Waits deed parts.new parts.old) }
    ensures spaces { OrNoMemory result (λ _. parts.new.known.spaces ≡ parts.old.known.spaces) }
{
    match relative_file(path) {
        Some(file) => if file.is_followed(writes) {
            Ok(Deed::Refused(LineFault::Descriptor))
        } else {
            parts.forget_descriptor(alloc, pid, number)?;
            Ok(Deed::Quiet)
        },
        None => {
            parts.forget_descriptor(alloc, pid, number)?;
            Ok(Deed::Quiet)
        }
    }
}

// A file of a process: it can be followed where the process is known and the opener shares no descriptors.
fn opens_of(
    alloc: Global,
    parts: &mut Parts,
    pid: Pid,
    number: u64,
    until_exec: bool,
    named: Named,
) -> Result<Deed, NoMemory>
    ensures turn { OrNoMemory result (λ deed. deed_is pid deed parts.new.known
        ≡ opens_of pid number until_exec (followed_is named.file) (task_of named.process parts.old.known)
        parts.old.known) }
    ensures saved { parts.new.saved ≡ parts.old.saved }
    ensures unchanged { LeftOnErr result parts.new parts.old }
    ensures waits { OrNoMemory result (λ deed. Waits deed parts.new parts.old) }
    ensures spaces { OrNoMemory result (λ _. parts.new.known.spaces ≡ parts.old.known.spaces) }
{
    let space = match parts.task_of(named.process) {
        Some(task) => task.space,
        None => return Ok(Deed::Refused(LineFault::Descriptor)),
    };
    if parts.shares_files(pid) {
        return Ok(Deed::Refused(LineFault::Descriptor));
    }
    let new = Descriptor {
        pid,
        number,
        file: named.file,
        space,
        until_exec,
    };
    follows(alloc, parts, new)
}

// A descriptor more, unless they exceed their limit then.
fn follows(alloc: Global, parts: &mut Parts, new: Descriptor) -> Result<Deed, NoMemory>
    ensures turn { OrNoMemory result (λ deed. (pid : ℕ) → deed_is pid deed parts.new.known
        ≡ follows new parts.old.known) }
    ensures saved { parts.new.saved ≡ parts.old.saved }
    ensures unchanged { LeftOnErr result parts.new parts.old }
    ensures waits { OrNoMemory result (λ deed. Waits deed parts.new parts.old) }
    ensures spaces { OrNoMemory result (λ _. parts.new.known.spaces ≡ parts.old.known.spaces) }
{
    parts.follow(alloc, new)?;
    if parts.descriptor_count() > u128::from(Limited::Descriptors.number()) {
        return Ok(Deed::Exceeds(Limited::Descriptors));
    }
    Ok(Deed::Quiet)
}
