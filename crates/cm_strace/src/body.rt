// What the body of a line does to what is known, and what a call that is told does (model_strace/specs, Turn). What
// gives an event is left to be done.
ghost use Rattle.std.specs.Prelude.{◌≡◌, ℕ, ◌++◌, option_map, IsTrue, List, Some};
ghost use Rattle.std.specs.declared.vec.Vec.{Vec};
ghost use Rattle.std.specs.declared.alloc.Global.{Global};
ghost use Rattle.cm_base.specs.Outcome.{OrNoMemory};
ghost use Rattle.cm_strace.specs.Deeds.{begun_text, deed_is, left_of, Waits};
ghost use Rattle.cm_strace.specs.Shapes.{shape_turn};
ghost use Rattle.cm_strace_calls.specs.Told.{told_is};
ghost use Rattle.cm_strace_parts.specs.Savepoints.{LeftOnErr};
ghost use Rattle.cm_declared.specs.World.{world_of};
ghost use Rattle.model_cred.specs.World as model;
ghost use Rattle.model_strace.specs.Body.{body_of};
ghost use Rattle.model_strace.specs.Calls.{call_told};
ghost use Rattle.model_strace.specs.Parts as known;
ghost use Rattle.model_strace.specs.Parts.{kept_of, without_kept};
ghost use Rattle.model_strace.specs.Turn.{Quiet, begins, body_turn, resumes, told_turn};
ghost use Rattle.model_strace.specs.Written.{written_of};

use crate::deed::Deed;
use crate::opens::opens;
use crate::told::{bears, copies, copies_to, joins};
use crate::writes::writes;
use cm_base::{LineFault, NoMemory, Pid};
use cm_declared::World;
use cm_strace_calls::{ReadFor, Told, named_call, read_call, read_named};
use cm_strace_parts::Parts;
use cm_strace_text::{Body, call_name, ends_name, read_body, read_written, without_32};
use std::alloc::Global;

/// What the body of a line of a process does, and whether it is the rest of a call whose beginning is kept. It fails
/// only where memory runs out, and then leaves the parts as they were, or to be rolled back.
pub(crate) fn read_deed(
    alloc: Global,
    w: &World,
    parts: &mut Parts,
    pid: Pid,
    body: &[u8],
) -> Result<(Deed, bool), NoMemory>
    ensures turn { OrNoMemory result (λ read. deed_is pid read.0 (left_of read.1 pid parts.new.known)
        ≡ body_turn (world_of w.now) pid (body_of body.now) parts.old.known) }
    ensures saved { parts.new.saved ≡ parts.old.saved }
    ensures unchanged { LeftOnErr result parts.new parts.old }
    ensures waits { OrNoMemory result (λ read. Waits read.0 parts.new parts.old) }
    ensures spaces { OrNoMemory result (λ _. parts.new.known.spaces ≡ parts.old.known.spaces) }
{
    match read_body(body) {
        Body::Whole(text) => {
            let deed = whole(alloc, w, parts, pid, text)?;
            Ok((deed, false))
        }
        Body::Begun(text) => {
            let deed = begin(alloc, parts, pid, text)?;
            Ok((deed, false))
        }
        Body::Resumed(name, rest) => {
            let deed = resume(alloc, w, parts, pid, name, rest)?;
            Ok((deed, true))
        }
        Body::Silent => Ok((Deed::Quiet, false)),
        Body::Ends => Ok((Deed::Ends, false)),
        Body::Superseded => Ok((Deed::Refused(LineFault::Superseded), false)),
    }
}

// A call whose beginning is this text, unless another one of the process isn't finished.
fn begin(alloc: Global, parts: &mut Parts, pid: Pid, text: &[u8]) -> Result<Deed, NoMemory>
    ensures turn { OrNoMemory result (λ deed. deed_is pid deed parts.new.known
        ≡ begins pid text.now (kept_of pid parts.old.known) parts.old.known) }
    ensures saved { parts.new.saved ≡ parts.old.saved }
    ensures unchanged { LeftOnErr result parts.new parts.old }
    ensures waits { OrNoMemory result (λ deed. Waits deed parts.new parts.old) }
    ensures spaces { OrNoMemory result (λ _. parts.new.known.spaces ≡ parts.old.known.spaces) }
{
    if parts.kept_of(pid).is_some() {
        return Ok(Deed::Refused(LineFault::Unfinished));
    }
    parts.keep(alloc, pid, text)?;
    Ok(Deed::Quiet)
}

// A whole call: one that isn't read does nothing, whatever it is; one on descriptors does nothing in a process of which
// none is followed, but it has its shape.
fn whole(
    alloc: Global,
    w: &World,
    parts: &mut Parts,
    pid: Pid,
    text: &[u8],
) -> Result<Deed, NoMemory>
    ensures turn { OrNoMemory result (λ deed. deed_is pid deed parts.new.known
        ≡ told_turn pid (call_told (world_of w.now) pid text.now) parts.old.known) }
    ensures saved { parts.new.saved ≡ parts.old.saved }
    ensures unchanged { LeftOnErr result parts.new parts.old }
    ensures waits { OrNoMemory result (λ deed. Waits deed parts.new parts.old) }
    ensures spaces { OrNoMemory result (λ _. parts.new.known.spaces ≡ parts.old.known.spaces) }
{
    let Some(call) = named_call(text) else {
        return Ok(Deed::Quiet);
    };
    match call.read_for {
        ReadFor::Close | ReadFor::Dup | ReadFor::DupTo | ReadFor::Fcntl | ReadFor::Write
            if !parts.has_descriptor(pid) => Ok(shape_deed(text)),
        _ => {
            let told = read_named(alloc, w, pid, call, text)?;
            take(alloc, parts, pid, told)
        }
    }
}

// What a call does of which the shape alone tells.
fn shape_deed(text: &[u8]) -> Deed
    ensures { (pid : ℕ) (p : known.Parts) → deed_is pid result p ≡ shape_turn (written_of text.now) p }
{
    match read_written(text) {
        Some(_) => Deed::Quiet,
        None => Deed::Refused(LineFault::Shape),
    }
}

// The rest of a call of that name, whose beginning is kept until the deed is done.
fn resume(
    alloc: Global,
    w: &World,
    parts: &mut Parts,
    pid: Pid,
    name: &[u8],
    rest: &[u8],
) -> Result<Deed, NoMemory>
    ensures turn { OrNoMemory result (λ deed. deed_is pid deed (without_kept pid parts.new.known)
        ≡ resumes (world_of w.now) pid name.now rest.now (kept_of pid parts.old.known) parts.old.known) }
    ensures saved { parts.new.saved ≡ parts.old.saved }
    ensures unchanged { LeftOnErr result parts.new parts.old }
    ensures waits { OrNoMemory result (λ deed. Waits deed parts.new parts.old) }
    ensures spaces { OrNoMemory result (λ _. parts.new.known.spaces ≡ parts.old.known.spaces) }
{
    if is_unread(parts, pid, name) {
        return Ok(Deed::Quiet);
    }
    match begun(alloc, parts, pid, name, rest)? {
        Some(text) => whole_resumed(alloc, w, parts, pid, &text),
        None => Ok(Deed::Refused(LineFault::Unfinished)),
    }
}

// The call of that name whose beginning is kept isn't read, whatever its rest is.
fn is_unread(parts: &Parts, pid: Pid, name: &[u8]) -> bool
    ensures { IsTrue result → (w : model.World) (rest : List ℕ) (p : known.Parts)
        → resumes w pid name.now rest (kept_of pid parts.now.known) p ≡ Quiet (without_kept pid p) }
{
    match parts.kept_of(pid) {
        Some(kept) => begins_unread(kept, name),
        None => false,
    }
}

// The same of that beginning.
#[tactic(auto, using(crate::proofs::Quiet::unread_resumed))]
fn begins_unread(kept: &[u8], name: &[u8]) -> bool
    ensures { IsTrue result → (w : model.World) (pid : ℕ) (rest : List ℕ) (p : known.Parts)
        → resumes w pid name.now rest (Some kept.now) p ≡ Quiet (without_kept pid p) }
{
    ends_name(kept) && named_call(kept).is_none() && call_name(kept) == without_32(name)
}

// The text of a call of that name whose beginning is kept, with its rest.
fn begun(
    alloc: Global,
    parts: &Parts,
    pid: Pid,
    name: &[u8],
    rest: &[u8],
) -> Result<Option<Vec<u8>>, NoMemory>
    ensures { OrNoMemory result (λ text. option_map (λ (t : Vec ℕ Global). t.items) text
        ≡ begun_text name.now rest.now (kept_of pid parts.now.known)) }
{
    match parts.kept_of(pid) {
        Some(kept) => if call_name(kept) == without_32(name) {
            let text = joined(alloc, kept, rest)?;
            Ok(Some(text))
        } else {
            Ok(None)
        },
        None => Ok(None),
    }
}

// One text after another.
fn joined(alloc: Global, front: &[u8], back: &[u8]) -> Result<Vec<u8>, NoMemory>
    ensures { OrNoMemory result (λ text. text.items ≡ front.now ++ back.now) }
{
    let mut text = Vec::from_slice(alloc, front)?;
    text.extend_from_slice(back)?;
    Ok(text)
}

// A whole call whose beginning is kept.
fn whole_resumed(
    alloc: Global,
    w: &World,
    parts: &mut Parts,
    pid: Pid,
    text: &[u8],
) -> Result<Deed, NoMemory>
    ensures turn { OrNoMemory result (λ deed. deed_is pid deed (without_kept pid parts.new.known)
        ≡ told_turn pid (call_told (world_of w.now) pid text.now) (without_kept pid parts.old.known)) }
    ensures saved { parts.new.saved ≡ parts.old.saved }
    ensures unchanged { LeftOnErr result parts.new parts.old }
    ensures waits { OrNoMemory result (λ deed. Waits deed parts.new parts.old) }
    ensures spaces { OrNoMemory result (λ _. parts.new.known.spaces ≡ parts.old.known.spaces) }
{
    let told = read_call(alloc, w, pid, text)?;
    take(alloc, parts, pid, told)
}

// ---- what is told

// What a call that is told does. It fails only where memory runs out, and then leaves the parts as they were, or to be
// rolled back.
fn take(alloc: Global, parts: &mut Parts, pid: Pid, told: Told<'_>) -> Result<Deed, NoMemory>
    ensures turn { OrNoMemory result (λ deed. deed_is pid deed parts.new.known
        ≡ told_turn pid (told_is told.entry) parts.old.known) }
    ensures saved { parts.new.saved ≡ parts.old.saved }
    ensures unchanged { LeftOnErr result parts.new parts.old }
    ensures waits { OrNoMemory result (λ deed. Waits deed parts.new parts.old) }
    ensures spaces { OrNoMemory result (λ _. parts.new.known.spaces ≡ parts.old.known.spaces) }
{
    match told {
        Told::Nothing => Ok(Deed::Quiet),
        Told::Faulty(why) => Ok(Deed::Refused(why)),
        Told::Exceeds(limit) => Ok(Deed::Exceeds(limit)),
        Told::Does(call, answer) => Ok(Deed::Does(call, answer)),
        Told::Bears(user, shares, answer) => Ok(bears(parts, pid, user, shares, answer)),
        Told::Joins(number, flags, outcome) => Ok(joins(parts, pid, number, flags, outcome)),
        Told::Opens(opening, number) => opens(alloc, parts, pid, opening, number),
        Told::Closes(number) => {
            parts.forget_descriptor(alloc, pid, u64::from(number))?;
            Ok(Deed::Quiet)
        }
        Told::Copies(number) => Ok(copies(parts, pid, number)),
        Told::CopiesTo(from, number) => copies_to(alloc, parts, pid, from, number),
        Told::Writes(number, text, outcome) => writes(alloc, parts, pid, number, text, outcome),
    }
}
