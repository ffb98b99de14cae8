// Values as the lines of cases write them, and as answers show them. What is none is bad.
use case_lines::{Stop, number};
use cm_idmap::Extent;
use std::alloc::Global;

// Extents, which `;` parts.
pub(crate) fn extents(alloc: Global, text: &str) -> Result<Vec<Extent>, Stop> {
    let mut list = Vec::new(alloc);
    for part in text.split(';') {
        let words: Vec<&str> = part.split_whitespace().collect(alloc)?;
        if !words.is_empty() {
            list.push(extent(&words)?)?;
        }
    }
    Ok(list)
}

// An extent: the first inside id, the first outside id, the length.
pub(crate) fn extent(words: &[&str]) -> Result<Extent, Stop> {
    let [inside, outside, length] = words else {
        return Err(Stop::Bad);
    };
    Ok(Extent {
        inside: number(inside)?,
        outside: number(outside)?,
        length: number(length)?,
    })
}

// An id as an answer, `none` where there is none.
pub(crate) fn id_or_none(alloc: Global, id: Option<u32>) -> Result<String, Stop> {
    match id {
        Some(id) => Ok(format!(in alloc; "{id}")?),
        None => Ok(String::from_str(alloc, "none")?),
    }
}
