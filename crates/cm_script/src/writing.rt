// An event as a script line, written at the end of a buffer; where there is no memory, what the buffer holds isn't said.
ghost use Rattle.std.specs.Prelude.{◌≡◌, ◌<◌, ◌∷◌, [], SomeIff, decimal, flat_map, map};
ghost use Rattle.cm_base.specs.Outcome.{OrNoMemory};
ghost use Rattle.cm_tokens.specs.Pieces.{Appends};
ghost use Rattle.cm_state.specs.Call.{call_of};
ghost use Rattle.cm_declared.specs.World.{world_of};
ghost use Rattle.cm_filter.specs.Filters.{excluded_kinds};
ghost use Rattle.cm_filter.specs.Kinds.{call_name};
ghost use Rattle.model_text.specs.Arguments.{Id, Kind, arguments_of, spaced_texts, triple_of};
ghost use Rattle.model_text.specs.Hex.{hex_set};
ghost use Rattle.model_text.specs.Print.{event_text};
ghost use Rattle.model_text.specs.SpaceToken.{space_token};
ghost use Rattle.model_text.specs.Token.{cap_name_or_number, file_text, id_text, res_text, word_text};

use crate::files::put_file;
use cm_base::{CAP_COUNT, Cap, CapWord, FileRef, NoMemory, Res, SpaceId};
use cm_declared::{Names, World, put_space};
use cm_files::FileTable;
use cm_filter::{CallKind, Filter};
use cm_idmap::Extent;
use cm_state::{Call, Event};
use cm_tokens::{put, put_decimal, put_hex16, put_id};
use std::alloc::Global;

/// The event as a script line, without LF: a space by its name in the world, a file by its path there. It fails only
/// where memory runs out.
pub fn write_line(alloc: Global, event: &Event, w: &World) -> Result<Vec<u8>, NoMemory>
    ensures { OrNoMemory result (λ text. text.items ≡ event_text (world_of w.now) event.now) }
{
    let mut text = Vec::new(alloc);
    put_line(&mut text, event, w)?;
    Ok(text)
}

/// The same at the end of a text. It fails only where memory runs out.
#[tactic(auto, unfolding(model_text::specs::Print::event_text))]
pub fn put_line(text: &mut Vec<u8>, event: &Event, w: &World) -> Result<(), NoMemory>
    ensures { OrNoMemory result (λ _. Appends text.old.items text.new.items (event_text (world_of w.now) event.now)) }
{
    put_decimal(text, event.pid.number() as u64)?;
    put(text, b" ")?;
    put(text, event.call.kind().name().as_bytes())?;
    put_arguments(text, &event.call, w)?;
    put(text, b" = ")?;
    put_res(text, &event.res)
}

// The arguments of a call, each after a space.
#[inline]
fn put_arguments(text: &mut Vec<u8>, call: &Call, w: &World) -> Result<(), NoMemory>
    ensures { OrNoMemory result (λ _. Appends text.old.items text.new.items (spaced_texts (world_of w.now)
        (arguments_of (call_of call.now)))) }
{
    match call {
        Call::SetUid(id) | Call::SetFsUid(id) | Call::SetGid(id) | Call::SetFsGid(id) => {
            put_argument(text, *id)
        }
        Call::SetReUid(real, effective) | Call::SetReGid(real, effective) => {
            put_argument(text, *real)?;
            put_argument(text, *effective)
        }
        Call::SetResUid(real, effective, saved) | Call::SetResGid(real, effective, saved) => {
            put_argument(text, *real)?;
            put_argument(text, *effective)?;
            put_argument(text, *saved)
        }
        Call::SetGroups(ids) => put_all(text, ids.items(), w),
        Call::CapSet { eff, prm, inh } => {
            put_set(text, *eff)?;
            put_set(text, *prm)?;
            put_set(text, *inh)
        }
        Call::BsetDrop(cap) | Call::AmbRaise(cap) | Call::AmbLower(cap) => put_cap(text, *cap),
        Call::SecureBits(n) | Call::KeepCaps(n) | Call::NoNewPrivs(n) => put_number(text, *n),
        Call::SetNs(space) => put_spaced(text, *space, &w.names),
        Call::WriteUidMap(space, list) | Call::WriteGidMap(space, list) => {
            put_spaced(text, *space, &w.names)?;
            put_extents(text, list.items(), w)
        }
        Call::WriteSetgroups { space, deny } => {
            put_spaced(text, *space, &w.names)?;
            put_word(text, *deny)
        }
        Call::Exec(file) => put_path(text, *file, &w.files),
        Call::Install(filter) => put_kinds(text, *filter, w),
        Call::AmbClear | Call::Fork | Call::CloneUser | Call::Unshare | Call::Exit => Ok(()),
    }
}

fn put_set(text: &mut Vec<u8>, set: CapWord) -> Result<(), NoMemory>
    ensures { OrNoMemory result (λ _. Appends text.old.items text.new.items (32 ∷ hex_set set)) }
{
    put(text, b" ")?;
    put_hex16(text, set.bits())
}

// A capability by its name, or by its number where there is none.
fn put_cap(text: &mut Vec<u8>, cap: u32) -> Result<(), NoMemory>
    ensures { OrNoMemory result (λ _. Appends text.old.items text.new.items (32 ∷ cap_name_or_number cap)) }
{
    match named_cap(cap) {
        Some(named) => {
            put(text, b" ")?;
            put(text, named.name().as_bytes())
        }
        None => put_number(text, cap),
    }
}

// The capability of that number. None exactly above 40.
fn named_cap(n: u32) -> Option<Cap>
    ensures { SomeIff result (n < 41) n }
{
    if n < CAP_COUNT as u32 {
        Cap::new(n as u8)
    } else {
        None
    }
}

fn put_number(text: &mut Vec<u8>, n: u32) -> Result<(), NoMemory>
    ensures { OrNoMemory result (λ _. Appends text.old.items text.new.items (32 ∷ decimal n)) }
{
    put(text, b" ")?;
    put_decimal(text, n as u64)
}

fn put_all(text: &mut Vec<u8>, ids: &[u32], w: &World) -> Result<(), NoMemory>
    ensures { OrNoMemory result (λ _. Appends text.old.items text.new.items (spaced_texts (world_of w.now)
        (map Id ids.now))) }
{
    for id in ids {
        put_argument(text, *id)?;
    }
    Ok(())
}

#[inline]
fn put_argument(text: &mut Vec<u8>, id: u32) -> Result<(), NoMemory>
    ensures { OrNoMemory result (λ _. Appends text.old.items text.new.items (32 ∷ id_text id)) }
{
    put(text, b" ")?;
    put_id(text, id)
}

// The token of a user namespace.
fn put_spaced(text: &mut Vec<u8>, space: SpaceId, names: &Names) -> Result<(), NoMemory>
    ensures { OrNoMemory result (λ _. Appends text.old.items text.new.items (32 ∷ space_token names.now space.0)) }
{
    put(text, b" ")?;
    put_space(text, space, names)
}

fn put_extents(text: &mut Vec<u8>, list: &[Extent], w: &World) -> Result<(), NoMemory>
    ensures { OrNoMemory result (λ _. Appends text.old.items text.new.items (spaced_texts (world_of w.now)
        (flat_map triple_of list.now))) }
{
    for extent in list {
        put_triple(text, *extent, w)?;
    }
    Ok(())
}

fn put_triple(text: &mut Vec<u8>, extent: Extent, w: &World) -> Result<(), NoMemory>
    ensures { OrNoMemory result (λ _. Appends text.old.items text.new.items (spaced_texts (world_of w.now)
        (triple_of extent))) }
{
    put_number(text, extent.inside)?;
    put_number(text, extent.outside)?;
    put_number(text, extent.length)
}

// The word of a setgroups file.
fn put_word(text: &mut Vec<u8>, deny: bool) -> Result<(), NoMemory>
    ensures { OrNoMemory result (λ _. Appends text.old.items text.new.items (32 ∷ word_text deny)) }
{
    if deny {
        put(text, b" deny")
    } else {
        put(text, b" allow")
    }
}

fn put_path(text: &mut Vec<u8>, file: FileRef, files: &FileTable) -> Result<(), NoMemory>
    ensures { OrNoMemory result (λ _. Appends text.old.items text.new.items (32 ∷ file_text files.now file)) }
{
    put(text, b" ")?;
    put_file(text, file, files)
}

// The names of the kinds that a filter excludes, in their order.
fn put_kinds(text: &mut Vec<u8>, filter: Filter, w: &World) -> Result<(), NoMemory>
    ensures { OrNoMemory result (λ _. Appends text.old.items text.new.items (spaced_texts (world_of w.now)
        (map Kind (excluded_kinds filter)))) }
{
    let kinds = CallKind::all();
    for kind in kinds {
        if !filter.permits(*kind) {
            put_name(text, *kind)?;
        }
    }
    Ok(())
}

fn put_name(text: &mut Vec<u8>, kind: CallKind) -> Result<(), NoMemory>
    ensures { OrNoMemory result (λ _. Appends text.old.items text.new.items (32 ∷ call_name kind)) }
{
    put(text, b" ")?;
    put(text, kind.name().as_bytes())
}

/// What a call answered, as the last token of a script line.
#[inline]
pub fn put_res(text: &mut Vec<u8>, res: &Res) -> Result<(), NoMemory>
    ensures { OrNoMemory result (λ _. Appends text.old.items text.new.items (res_text res.now)) }
{
    match res {
        Res::Done => put(text, b"0"),
        Res::Id(id) => put_decimal(text, *id as u64),
        Res::Child(pid) => put_decimal(text, pid.number() as u64),
        Res::Err(error) => put(text, error.name().as_bytes()),
    }
}
