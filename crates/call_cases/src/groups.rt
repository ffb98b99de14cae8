// Lists of groups that are longer than a script line may tell.
use case_lines::{Stop, number};
use cm_base::{Kgid, NoMemory};
use cm_tokens::{put, put_decimal};
use std::alloc::Global;

// The ids from that number down to 1, and then these.
pub(crate) fn ids_down_from(alloc: Global, count: &str, more: &[&str]) -> Result<Vec<u32>, Stop> {
    let count = number(count)?;
    let mut list = Vec::new(alloc);
    for n in 0..count {
        list.push(count - n)?;
    }
    for word in more {
        list.push(number(word)?)?;
    }
    Ok(list)
}

// Ascending groups as ranges, ` first-last`, or single ones.
pub(crate) fn ranges(alloc: Global, groups: &[Kgid]) -> Result<Vec<u8>, NoMemory> {
    let mut text = Vec::new(alloc);
    put(&mut text, b"groups")?;
    let mut open = None;
    for group in groups {
        let id = group.number();
        open = match open {
            Some((first, last)) if is_next(last, id) => Some((first, id)),
            Some(range) => {
                put_range(&mut text, range)?;
                Some((id, id))
            }
            None => Some((id, id)),
        };
    }
    if let Some(range) = open {
        put_range(&mut text, range)?;
    }
    Ok(text)
}

fn is_next(last: u32, id: u32) -> bool {
    last.checked_add(1) == Some(id)
}

fn put_range(text: &mut Vec<u8>, range: (u32, u32)) -> Result<(), NoMemory> {
    let (first, last) = range;
    put(text, b" ")?;
    put_decimal(text, u64::from(first))?;
    if last != first {
        put(text, b"-")?;
        put_decimal(text, u64::from(last))?;
    }
    Ok(())
}
