// Rows as text: each part that holds something, in the form in which a line of a case writes it.
use case_lines::{Stop, ranges};
use cm_base::{Cap, CapWord};
use cm_box::{Bounds, BoxRow};
use cm_idset::IdSet;
use cm_sets::CapSet;
use std::alloc::Global;

// What each row holds.
pub(crate) fn all_shown(alloc: Global, b: &Bounds) -> Result<Vec<String>, Stop> {
    let mut texts = Vec::new(alloc);
    for row in b.rows.items() {
        texts.push(shown(alloc, row)?)?;
    }
    Ok(texts)
}

// What the row holds.
fn shown(alloc: Global, row: &BoxRow) -> Result<String, Stop> {
    let mut text = String::new(alloc);
    show_users(alloc, &mut text, row)?;
    show_groups(alloc, &mut text, row)?;
    show_ids(alloc, &mut text, "mu", &row.mu)?;
    show_ids(alloc, &mut text, "mg", &row.mg)?;
    show_caps(&mut text, "p", row.p)?;
    show_caps(&mut text, "i", row.i)?;
    show_caps(&mut text, "b", row.b)?;
    show_flag(&mut text, "; n yes", !row.n.0)?;
    show_flag(&mut text, "; r yes", row.r.0)?;
    show_flag(&mut text, "; k yes", row.k.0)?;
    Ok(text)
}

fn show_users(alloc: Global, text: &mut String, row: &BoxRow) -> Result<(), Stop> {
    show_ids(alloc, text, "u", &row.u)?;
    show_ids(alloc, text, "eu", &row.eu)?;
    show_ids(alloc, text, "fu", &row.fu)
}

fn show_groups(alloc: Global, text: &mut String, row: &BoxRow) -> Result<(), Stop> {
    show_ids(alloc, text, "g", &row.g)?;
    show_ids(alloc, text, "eg", &row.eg)?;
    show_ids(alloc, text, "fg", &row.fg)?;
    show_ids(alloc, text, "s", &row.s)
}

// The name of a part, with what stands before it.
fn show_name(text: &mut String, name: &str) -> Result<(), Stop> {
    text.push_str("; ")?;
    text.push_str(name)?;
    Ok(())
}

fn show_ids(alloc: Global, text: &mut String, name: &str, set: &IdSet) -> Result<(), Stop> {
    if set.intervals().is_empty() {
        return Ok(());
    }
    show_name(text, name)?;
    text.push_str(ranges(alloc, set)?.as_str())?;
    Ok(())
}

// `all`, or names, with commas between them.
fn show_caps(text: &mut String, name: &str, set: CapSet) -> Result<(), Stop> {
    let bits = set.0.bits();
    if bits == 0 {
        return Ok(());
    }
    show_name(text, name)?;
    if bits == 0x1ff_ffff_ffff {
        text.push_str(" all")?;
        return Ok(());
    }
    show_names(text, set)
}

fn show_names(text: &mut String, set: CapSet) -> Result<(), Stop> {
    let mut some = false;
    for n in 0..41u8 {
        some = show_cap(text, set.0, n, some)?;
    }
    Ok(())
}

// The name of the capability of that number, if it is held, with a comma if some stand before it. Whether some do now.
fn show_cap(text: &mut String, set: CapWord, n: u8, some: bool) -> Result<bool, Stop> {
    let Some(cap) = Cap::new(n) else {
        return Ok(some);
    };
    if !set.holds(cap) {
        return Ok(some);
    }
    text.push_str(if some { "," } else { " " })?;
    text.push_str(cap.name())?;
    Ok(true)
}

fn show_flag(text: &mut String, part: &str, raised: bool) -> Result<(), Stop> {
    if raised {
        text.push_str(part)?;
    }
    Ok(())
}
