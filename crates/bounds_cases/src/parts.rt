// Rows that are written by hand, part by part.
use crate::values::{caps, flag};
use case_lines::{Stop, ids};
use cm_box::{Bounds, BoxRow};
use cm_idset::IdSet;
use cm_sets::{CapSet, Flag, RevFlag};
use std::alloc::Global;

// Puts parts, which `;` parts, into the row of that number. The others stay as they are.
pub(crate) fn put_row(alloc: Global, b: &mut Bounds, y: u32, parts: &str) -> Result<(), Stop> {
    let at = y as usize;
    if at >= b.rows.list.len() {
        return Err(Stop::Bad);
    }
    let mut row = b.rows.list[at].copy(alloc)?;
    put_parts(alloc, &mut row, parts)?;
    b.rows.list[at] = row;
    Ok(())
}

fn put_parts(alloc: Global, row: &mut BoxRow, parts: &str) -> Result<(), Stop> {
    for part in parts.split(';') {
        let words: Vec<&str> = part.split_whitespace().collect(alloc)?;
        put_part(alloc, row, &words)?;
    }
    Ok(())
}

// A part's name, and what it holds. No words are no part.
fn put_part(alloc: Global, row: &mut BoxRow, words: &[&str]) -> Result<(), Stop> {
    let [name, items @ ..] = words else {
        return Ok(());
    };
    match *name {
        "p" | "i" | "b" => put_caps(row, name, caps(items)?),
        "n" | "r" | "k" => put_flag(row, name, flag(items)?),
        _ => put_ids(row, name, ids(alloc, items)?),
    }
}

fn put_ids(row: &mut BoxRow, name: &str, set: IdSet) -> Result<(), Stop> {
    match name {
        "u" => row.u = set,
        "eu" => row.eu = set,
        "fu" => row.fu = set,
        "g" => row.g = set,
        "eg" => row.eg = set,
        "fg" => row.fg = set,
        "s" => row.s = set,
        "mu" => row.mu = set,
        "mg" => row.mg = set,
        _ => return Err(Stop::Bad),
    }
    Ok(())
}

fn put_caps(row: &mut BoxRow, name: &str, set: CapSet) -> Result<(), Stop> {
    match name {
        "p" => row.p = set,
        "i" => row.i = set,
        "b" => row.b = set,
        _ => return Err(Stop::Bad),
    }
    Ok(())
}

fn put_flag(row: &mut BoxRow, name: &str, raised: bool) -> Result<(), Stop> {
    match name {
        "n" => row.n = RevFlag(!raised),
        "r" => row.r = Flag(raised),
        "k" => row.k = Flag(raised),
        _ => return Err(Stop::Bad),
    }
    Ok(())
}
