// Values as the lines of cases write them, where what is none is bad; and values as answers show them.
use crate::Stop;
use cm_base::{Cap, Kgid, Kuid, Pid, SpaceId, read_u32};
use cm_state::Right;
use std::alloc::Global;
use std::fmt::Debug;

/// A number of at most 4294967295.
pub fn number(word: &str) -> Result<u32, Stop> {
    read_u32(word.as_bytes()).map_err(|_| Stop::Bad)
}

/// A pid, as a number.
pub fn pid(word: &str) -> Result<Pid, Stop> {
    Pid::new(number(word)?).ok_or(Stop::Bad)
}

/// The pids of these.
pub fn pids(alloc: Global, words: &[&str]) -> Result<Vec<Pid>, Stop> {
    let mut list = Vec::new(alloc);
    for word in words {
        list.push(pid(word)?)?;
    }
    Ok(list)
}

/// A right: `uid K`, `gid K`, or `NAME N`, the capability over the space of that number.
pub fn right(words: &[&str]) -> Result<Right, Stop> {
    match words {
        ["uid", id] => {
            let id = Kuid::new(number(id)?).ok_or(Stop::Bad)?;
            Ok(Right::Uid(id))
        }
        ["gid", id] => {
            let id = Kgid::new(number(id)?).ok_or(Stop::Bad)?;
            Ok(Right::Gid(id))
        }
        [name, n] => {
            let cap = Cap::from_name(name.as_bytes()).ok_or(Stop::Bad)?;
            let n = number(n)?;
            Ok(Right::Cap(cap, SpaceId(n)))
        }
        _ => Err(Stop::Bad),
    }
}

/// A word as an answer.
pub fn word(alloc: Global, text: &str) -> Result<Vec<u8>, Stop> {
    Ok(Vec::from_slice(alloc, text.as_bytes())?)
}

/// A value as an answer, by the names of its variants and fields.
pub fn named<T: Debug>(alloc: Global, value: &T) -> Result<Vec<u8>, Stop> {
    let text = format!(in alloc; "{value:?}")?;
    word(alloc, text.as_str())
}
