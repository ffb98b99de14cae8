// Sets of ids as the lines of cases write them, where what is none is bad; and their ranges as answers show them.
use crate::Stop;
use crate::values::number;
use cm_idset::{IdSet, Interval};
use cm_sets::SetLike;
use std::alloc::Global;

/// Two numbers, `first-last`, or a single one, which is both.
pub fn interval(word: &str) -> Result<Interval, Stop> {
    let (first, last) = word.split_once('-').unwrap_or((word, word));
    Ok(Interval {
        first: number(first)?,
        last: number(last)?,
    })
}

// The ids from the one to the other.
fn range(alloc: Global, word: &str) -> Result<IdSet, Stop> {
    let Interval { first, last } = interval(word)?;
    if first > last || last == u32::MAX {
        return Err(Stop::Bad);
    }
    Ok(IdSet::range(alloc, first, last)?)
}

/// The ids of all these.
pub fn ids(alloc: Global, words: &[&str]) -> Result<IdSet, Stop> {
    let mut all = IdSet::empty(alloc);
    for word in words {
        let more = range(alloc, word)?;
        all = all.join(alloc, &more)?;
    }
    Ok(all)
}

/// The ranges of a set, with a space before each.
pub fn ranges(alloc: Global, set: &IdSet) -> Result<String, Stop> {
    let mut text = String::new(alloc);
    for Interval { first, last } in set.intervals() {
        let piece = if first == last {
            format!(in alloc; " {first}")?
        } else {
            format!(in alloc; " {first}-{last}")?
        };
        text.push_str(piece.as_str())?;
    }
    Ok(text)
}
