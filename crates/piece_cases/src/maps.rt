// Id maps: which lists of extents are one, and what they take ids to.
use crate::values::{extents, id_or_none};
use case_lines::{Stop, named, number, word};
use cm_idmap::{Extent, IdMap};
use std::alloc::Global;

// The answer to a line on the map of a case.
pub(crate) fn map_answer(
    alloc: Global,
    map: &mut Option<IdMap>,
    asked: &str,
    rest: &str,
) -> Result<Vec<u8>, Stop> {
    match asked {
        "map" => made(alloc, map, &extents(alloc, rest)?),
        "singles" => made(alloc, map, &singles(alloc, number(rest)?)?),
        "initial" => kept(alloc, map, IdMap::initial(alloc)?),
        _ => standing(alloc, map, asked, rest),
    }
}

// The answer to a line on a map that stands.
fn standing(
    alloc: Global,
    map: &mut Option<IdMap>,
    asked: &str,
    rest: &str,
) -> Result<Vec<u8>, Stop> {
    let Some(m) = map else {
        return Err(Stop::Bad);
    };
    match asked {
        "copy" => {
            *m = m.copy(alloc)?;
            word(alloc, "made")
        }
        "extents" => extents_shown(alloc, m.extents()),
        "count" => word(alloc, format!(in alloc; "{}", m.extents().len())?.as_str()),
        "down" => image(alloc, m.down(number(rest)?)),
        "up" => image(alloc, m.up(number(rest)?)),
        _ => Err(Stop::Bad),
    }
}

// The map of a list comes in place of the one that stood, or why there is none is told.
fn made(alloc: Global, map: &mut Option<IdMap>, list: &[Extent]) -> Result<Vec<u8>, Stop> {
    match IdMap::make(alloc, list) {
        Ok(new) => kept(alloc, map, new),
        Err(fault) => named(alloc, &fault),
    }
}

fn kept(alloc: Global, map: &mut Option<IdMap>, new: IdMap) -> Result<Vec<u8>, Stop> {
    *map = Some(new);
    word(alloc, "made")
}

// So many extents of one id each, each standing for itself.
fn singles(alloc: Global, count: u32) -> Result<Vec<Extent>, Stop> {
    let mut list = Vec::new(alloc);
    for id in 0..count {
        list.push(Extent {
            inside: id,
            outside: id,
            length: 1,
        })?;
    }
    Ok(list)
}

// Extents as a line writes them.
fn extents_shown(alloc: Global, list: &[Extent]) -> Result<Vec<u8>, Stop> {
    let mut text = Vec::new(alloc);
    for e in list {
        let (inside, outside, length) = (e.inside, e.outside, e.length);
        let mark = if text.is_empty() { "" } else { "; " };
        let shown = format!(in alloc; "{mark}{inside} {outside} {length}")?;
        text.extend_from_slice(shown.as_bytes())?;
    }
    Ok(text)
}

fn image(alloc: Global, id: Option<u32>) -> Result<Vec<u8>, Stop> {
    word(alloc, id_or_none(alloc, id)?.as_str())
}
