// Sets of ids: what the calls of cm_idset answer. The sets and numbers of a line are parted by `/`.
use crate::shown::{ids_shown, yes_or_no};
use case_lines::{Stop, ids, interval, number};
use cm_idmap::{Extent, IdMap};
use cm_idset::{IdSet, one_meaning_one_list};
use cm_sets::SetLike;
use std::alloc::Global;

// The answer to a question about sets.
pub(crate) fn set_answered(alloc: Global, text: &str) -> Result<String, Stop> {
    let (asked, rest) = text.split_once(' ').unwrap_or((text, ""));
    let parts: Vec<&str> = rest.split('/').collect(alloc)?;
    match parts.as_slice() {
        [one] => of_one(alloc, asked, one),
        [one, other] => of_two(alloc, asked, one, other),
        [one, other, bound] => of_three(alloc, asked, one, other, bound),
        _ => Err(Stop::Bad),
    }
}

fn of_one(alloc: Global, asked: &str, one: &str) -> Result<String, Stop> {
    match asked {
        "one" => set_of_one(alloc, one),
        "list" => set_of_list(alloc, one),
        "laws" => laws_called(alloc),
        _ => of_set(alloc, asked, &set(alloc, one)?),
    }
}

fn of_set(alloc: Global, asked: &str, set: &IdSet) -> Result<String, Stop> {
    match asked {
        "ranges" => ids_shown(alloc, set),
        "size" => Ok(format!(in alloc; "{}", set.size())?),
        "empty" => yes_or_no(alloc, set.is_empty()),
        _ => Err(Stop::Bad),
    }
}

fn of_two(alloc: Global, asked: &str, one: &str, other: &str) -> Result<String, Stop> {
    match asked {
        "holds" => holds(alloc, one, other),
        "holds_range" => holds_range(alloc, one, other),
        "image" => image(alloc, one, other),
        "kept" => kept(alloc, one, other),
        _ => of_sets(alloc, asked, one, other),
    }
}

fn of_sets(alloc: Global, asked: &str, one: &str, other: &str) -> Result<String, Stop> {
    let one = set(alloc, one)?;
    let other = set(alloc, other)?;
    match asked {
        "union" => ids_shown(alloc, &one.join(alloc, &other)?),
        "common" => ids_shown(alloc, &one.meet(alloc, &other)?),
        "within" => yes_or_no(alloc, one.within(&other)),
        "disjoint" => yes_or_no(alloc, one.disjoint(&other)),
        _ => Err(Stop::Bad),
    }
}

// Whether what two sets have in common is within the third.
fn of_three(
    alloc: Global,
    asked: &str,
    one: &str,
    other: &str,
    bound: &str,
) -> Result<String, Stop> {
    if asked != "common_within" {
        return Err(Stop::Bad);
    }
    let one = set(alloc, one)?;
    let other = set(alloc, other)?;
    let bound = set(alloc, bound)?;
    yes_or_no(alloc, one.meet_within(&other, &bound))
}

fn holds(alloc: Global, number_text: &str, one: &str) -> Result<String, Stop> {
    let id = number(number_text.trim())?;
    yes_or_no(alloc, set(alloc, one)?.holds(&id))
}

fn holds_range(alloc: Global, range: &str, one: &str) -> Result<String, Stop> {
    let (first, last) = range.trim().split_once('-').ok_or(Stop::Bad)?;
    let first = number(first)?;
    let last = number(last)?;
    if first > last || last == u32::MAX {
        return Err(Stop::Bad);
    }
    yes_or_no(alloc, set(alloc, one)?.holds_range(first, last))
}

// The image of a set by the map of these extents.
fn image(alloc: Global, one: &str, extents: &str) -> Result<String, Stop> {
    let mut list = Vec::new(alloc);
    for text in extents.split(',') {
        list.push(extent(alloc, text)?)?;
    }
    let map = IdMap::make(alloc, &list)?;
    ids_shown(alloc, &set(alloc, one)?.image(alloc, &map)?)
}

// An extent: the first inside id, the first outside id, the length.
fn extent(alloc: Global, text: &str) -> Result<Extent, Stop> {
    let words: Vec<&str> = text.split_whitespace().collect(alloc)?;
    let [inside, outside, length] = words.as_slice() else {
        return Err(Stop::Bad);
    };
    Ok(Extent {
        inside: number(inside)?,
        outside: number(outside)?,
        length: number(length)?,
    })
}

// Two sets, after their union, what they have in common and the first one's image by the initial map were made.
fn kept(alloc: Global, one: &str, other: &str) -> Result<String, Stop> {
    let one = set(alloc, one)?;
    let other = set(alloc, other)?;
    let map = IdMap::initial(alloc)?;
    one.join(alloc, &other)?;
    one.meet(alloc, &other)?;
    one.image(alloc, &map)?;
    let one = ids_shown(alloc, &one)?;
    let other = ids_shown(alloc, &other)?;
    Ok(format!(in alloc; "{one} / {other}")?)
}

// The law is a function that does nothing.
fn laws_called(alloc: Global) -> Result<String, Stop> {
    one_meaning_one_list();
    Ok(String::from_str(alloc, "nothing")?)
}

// The set of these ids and ranges.
fn set(alloc: Global, text: &str) -> Result<IdSet, Stop> {
    let words: Vec<&str> = text.split_whitespace().collect(alloc)?;
    ids(alloc, &words)
}

// The set of one id.
fn set_of_one(alloc: Global, text: &str) -> Result<String, Stop> {
    let id = number(text.trim())?;
    if id == u32::MAX {
        return Err(Stop::Bad);
    }
    ids_shown(alloc, &IdSet::one(alloc, id)?)
}

// The set of these ids and ranges, handed over as the list that they are.
fn set_of_list(alloc: Global, text: &str) -> Result<String, Stop> {
    let mut list = Vec::new(alloc);
    for word in text.split_whitespace() {
        list.push(interval(word)?)?;
    }
    match IdSet::from_list(list) {
        Some(set) => ids_shown(alloc, &set),
        None => Ok(String::from_str(alloc, "refused")?),
    }
}
