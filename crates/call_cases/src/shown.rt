// What calls leave, as text: a space as one line.
ghost use Rattle.std.specs.Prelude.{◌<◌, length};

use cm_base::{NoMemory, SpaceId};
use cm_declared::{Names, put_space};
use cm_idmap::{Extent, IdMap};
use cm_state::Spaces;
use cm_tokens::{put, put_decimal};
use std::alloc::Global;

// Each space that stands.
pub(crate) fn all_shown(
    alloc: Global,
    spaces: &Spaces,
    names: &Names,
) -> Result<Vec<Vec<u8>>, NoMemory> {
    let mut texts = Vec::new(alloc);
    for n in 0..spaces.count() {
        let mut text = Vec::new(alloc);
        show(&mut text, spaces, SpaceId(n), names)?;
        texts.push(text)?;
    }
    Ok(texts)
}

// The space of that number: its parent, its level, its owner, whether its maker had CAP_SETFCAP, its setgroups word, its
// maps.
fn show(text: &mut Vec<u8>, spaces: &Spaces, n: SpaceId, names: &Names) -> Result<(), NoMemory>
    requires { n.0 < length spaces.now }
{
    let s = spaces.standing(n);
    put(text, b"space ")?;
    put_space(text, n, names)?;
    put(text, b" parent=")?;
    match s.parent {
        Some(parent) => put_space(text, parent, names)?,
        None => put(text, b"-")?,
    }
    put_numbered(text, b" level=", spaces.level(n))?;
    put_numbered(text, b" owner=", s.owner.number())?;
    put_numbered(text, b" setfcap=", u32::from(s.creator_setfcap))?;
    put(
        text,
        if s.deny {
            b" word=deny"
        } else {
            b" word=allow"
        },
    )?;
    put_map(text, b" uids=", &s.uids)?;
    put_map(text, b" gids=", &s.gids)
}

fn put_numbered(text: &mut Vec<u8>, name: &[u8], n: u32) -> Result<(), NoMemory> {
    put(text, name)?;
    put_decimal(text, u64::from(n))
}

// A map as its extents, each with a comma after it, `-` where it isn't written.
fn put_map(text: &mut Vec<u8>, name: &[u8], map: &Option<IdMap>) -> Result<(), NoMemory> {
    put(text, name)?;
    match map {
        None => put(text, b"-"),
        Some(map) => put_extents(text, map.extents()),
    }
}

fn put_extents(text: &mut Vec<u8>, list: &[Extent]) -> Result<(), NoMemory> {
    let mut first = true;
    for e in list {
        if !first {
            put(text, b",")?;
        }
        first = false;
        put_decimal(text, u64::from(e.inside))?;
        put_numbered(text, b":", e.outside)?;
        put_numbered(text, b":", e.length)?;
    }
    Ok(())
}
