// The credential line of a process, as text.
ghost use Rattle.std.specs.Prelude.{◌≡◌, ◌++◌, ◌∷◌, [], None, codes, decimal, flat_map};
ghost use Rattle.cm_base.specs.Outcome.{OrNoMemory};
ghost use Rattle.cm_filter.specs.Filters.{no_filter};
ghost use Rattle.cm_tokens.specs.Pieces.{Appends};
ghost use Rattle.model_text.specs.Print.{credential_line, ids_text, groups_text, all_ids_text, sets_text, bounds_text, flags_text};
ghost use Rattle.model_text.specs.SpaceToken.{space_token};

use cm_base::{Kgid, NoMemory, Pid, SpaceId};
use cm_declared::{World, put_space};
use cm_state::{Cred, FourIds};
use cm_tokens::{put, put_decimal, put_hex2, put_hex16};
use std::alloc::Global;

/// The credential line of a process of that pid in that user namespace, without LF: the namespace by its name in the
/// world, where it has one. It tells nothing of the process's forebear and of its filter. It fails only where memory
/// runs out.
pub fn credentials(
    alloc: Global,
    cred: &Cred,
    pid: Pid,
    space: SpaceId,
    w: &World,
) -> Result<Vec<u8>, NoMemory>
    ensures { OrNoMemory result (λ text. text.items ≡ credential_line w.now.names
        (record { pid = pid; forebear = None; space = space.0; cred = cred.now; filter = no_filter })) }
{
    let mut text = Vec::new(alloc);
    put_credentials(&mut text, cred, pid, space, w)?;
    Ok(text)
}

/// The same at the end of a text. Where there is no memory, what the text holds isn't said.
#[inline]
pub fn put_credentials(
    text: &mut Vec<u8>,
    cred: &Cred,
    pid: Pid,
    space: SpaceId,
    w: &World,
) -> Result<(), NoMemory>
    ensures { OrNoMemory result (λ _. Appends text.old.items text.new.items (credential_line w.now.names
        (record { pid = pid; forebear = None; space = space.0; cred = cred.now; filter = no_filter }))) }
{
    put_place(text, pid, space, w)?;
    put_all_ids(text, cred)?;
    put_sets(text, cred)?;
    put_bounds(text, cred)?;
    put_flags(text, cred)
}

/// The same with its LF.
pub fn put_credential_line(
    text: &mut Vec<u8>,
    cred: &Cred,
    pid: Pid,
    space: SpaceId,
    w: &World,
) -> Result<(), NoMemory>
    ensures { OrNoMemory result (λ _. Appends text.old.items text.new.items (credential_line w.now.names
        (record { pid = pid; forebear = None; space = space.0; cred = cred.now; filter = no_filter }) ++ 10 ∷ [])) }
{
    put_credentials(text, cred, pid, space, w)?;
    put(text, b"\n")
}

// The pid and the token of the space.
#[inline]
pub(crate) fn put_place(
    text: &mut Vec<u8>,
    pid: Pid,
    space: SpaceId,
    w: &World,
) -> Result<(), NoMemory>
    ensures { OrNoMemory result (λ _. Appends text.old.items text.new.items (codes "> " ++ decimal pid ++ codes " " ++
        space_token w.now.names space.0)) }
{
    put(text, b"> ")?;
    put_decimal(text, pid.number() as u64)?;
    put(text, b" ")?;
    put_space(text, space, &w.names)
}

#[inline]
#[tactic(auto, unfolding(model_text::specs::Print::all_ids_text))]
fn put_all_ids(text: &mut Vec<u8>, cred: &Cred) -> Result<(), NoMemory>
    ensures { OrNoMemory result (λ _. Appends text.old.items text.new.items (all_ids_text cred.now)) }
{
    put(text, b" uid=")?;
    put_ids(text, cred.user_ids())?;
    put(text, b" gid=")?;
    put_ids(text, cred.group_ids())?;
    put(text, b" groups=")?;
    put_groups(text, cred.groups.items())
}

#[inline]
#[tactic(auto, unfolding(model_text::specs::Print::ids_text))]
fn put_ids(text: &mut Vec<u8>, ids: FourIds) -> Result<(), NoMemory>
    ensures { OrNoMemory result (λ _. Appends text.old.items text.new.items (ids_text ids)) }
{
    put_decimal(text, ids.real as u64)?;
    put_after_comma(text, ids.effective)?;
    put_after_comma(text, ids.saved)?;
    put_after_comma(text, ids.fs)
}

#[inline]
fn put_after_comma(text: &mut Vec<u8>, id: u32) -> Result<(), NoMemory>
    ensures { OrNoMemory result (λ _. Appends text.old.items text.new.items (44 ∷ decimal id)) }
{
    put(text, b",")?;
    put_decimal(text, id as u64)
}

// The groups joined by commas, `-` where there is none.
#[inline]
pub(crate) fn put_groups(text: &mut Vec<u8>, groups: &[Kgid]) -> Result<(), NoMemory>
    ensures { OrNoMemory result (λ _. Appends text.old.items text.new.items (groups_text groups.now)) }
{
    match groups {
        [] => put(text, b"-"),
        [first, rest @ ..] => {
            put_decimal(text, first.number() as u64)?;
            put_rest(text, rest)
        }
    }
}

fn put_rest(text: &mut Vec<u8>, groups: &[Kgid]) -> Result<(), NoMemory>
    ensures { OrNoMemory result (λ _. Appends text.old.items text.new.items (flat_map
        (λ g. 44 ∷ decimal g) groups.now)) }
{
    for group in groups {
        put_after_comma(text, group.number())?;
    }
    Ok(())
}

#[inline]
#[tactic(auto, unfolding(model_text::specs::Print::sets_text))]
pub(crate) fn put_sets(text: &mut Vec<u8>, cred: &Cred) -> Result<(), NoMemory>
    ensures { OrNoMemory result (λ _. Appends text.old.items text.new.items (sets_text cred.now)) }
{
    put(text, b" inh=")?;
    put_hex16(text, cred.inh.bits())?;
    put(text, b" prm=")?;
    put_hex16(text, cred.prm.bits())?;
    put(text, b" eff=")?;
    put_hex16(text, cred.eff.bits())
}

#[inline]
#[tactic(auto, unfolding(model_text::specs::Print::bounds_text))]
pub(crate) fn put_bounds(text: &mut Vec<u8>, cred: &Cred) -> Result<(), NoMemory>
    ensures { OrNoMemory result (λ _. Appends text.old.items text.new.items (bounds_text cred.now)) }
{
    put(text, b" bnd=")?;
    put_hex16(text, cred.bnd.bits())?;
    put(text, b" amb=")?;
    put_hex16(text, cred.amb.bits())
}

#[inline]
#[tactic(auto, unfolding(model_text::specs::Print::flags_text))]
pub(crate) fn put_flags(text: &mut Vec<u8>, cred: &Cred) -> Result<(), NoMemory>
    ensures { OrNoMemory result (λ _. Appends text.old.items text.new.items (flags_text cred.now)) }
{
    put(text, b" sec=")?;
    put_hex2(text, cred.sec.bits())?;
    put(text, if cred.nnp { b" nnp=1" } else { b" nnp=0" })
}
