// Sets as text.
use case_lines::{Stop, ranges};
use cm_idset::IdSet;
use std::alloc::Global;

// The ranges of a set, `none` where it has none.
pub(crate) fn ids_shown(alloc: Global, set: &IdSet) -> Result<String, Stop> {
    let text = ranges(alloc, set)?;
    let shown = text.as_str().strip_prefix(" ").unwrap_or("none");
    Ok(String::from_str(alloc, shown)?)
}

pub(crate) fn yes_or_no(alloc: Global, yes: bool) -> Result<String, Stop> {
    Ok(String::from_str(alloc, if yes { "yes" } else { "no" })?)
}
