// The arguments of the calls that have a list, as they are written: ids of groups, triples of numbers of a map, and
// kinds of a filter. None says nothing of the text: there may have been no memory for the list.
ghost use Rattle.std.specs.Prelude.{◌<◌, IfSome, flat_map, length, map};
ghost use Rattle.cm_filter.specs.Filters.{excluded_kinds, IsFilter};
ghost use Rattle.cm_script.specs.Own.{Takes, TakesAll};
ghost use Rattle.model_cred.specs.World as worlds;
ghost use Rattle.model_text.specs.Arguments.{Id, Kind, triple_of};

use super::arguments::{own_id, own_number};
use super::calls::take_kind;
use super::pieces::{after_blank, after_piece};
use cm_filter::{CallKind, Filter};
use cm_idmap::Extent;
use std::alloc::Global;

/// The ids that stand in front of a text, as many as there are, and what follows them.
pub(crate) fn own_ids(alloc: Global, text: &[u8]) -> Option<(Vec<u32>, &[u8])>
    ensures { (w : worlds.World) → IfSome result (λ p. TakesAll w text.now (map Id p.0.items) p.1.now) }
{
    let mut ids = Vec::new(alloc);
    let mut rest = text;
    while let Some((id, after)) = own_id(rest) {
        let Ok(()) = ids.push(id) else {
            return None;
        };
        rest = after;
    }
    Some((ids, rest))
}

/// The extents that stand in front of a text, as many as there are, and what follows them.
pub(crate) fn own_extents(alloc: Global, text: &[u8]) -> Option<(Vec<Extent>, &[u8])>
    ensures { (w : worlds.World) → IfSome result (λ p. TakesAll w text.now (flat_map triple_of p.0.items) p.1.now) }
{
    let mut list = Vec::new(alloc);
    let mut rest = text;
    while let Some((inside, after)) = own_number(rest) {
        let (outside, after) = own_number(after)?;
        let (length, after) = own_number(after)?;
        let Ok(()) = list.push(Extent {
            inside,
            outside,
            length,
        }) else {
            return None;
        };
        rest = after;
    }
    Some((list, rest))
}

/// The filter that excludes the calls of the names in front of a text, in whatever order.
pub(crate) fn named_filter(text: &[u8]) -> Filter
    ensures { IsFilter result }
{
    let mut filter = Filter::none();
    let mut rest = text;
    while let Some((kind, after)) = next_kind(rest) {
        filter = filter.excluding(kind);
        rest = after;
    }
    filter
}

// The kind of the name after a blank, and what follows it.
fn next_kind(text: &[u8]) -> Option<(CallKind, &[u8])>
    ensures { IfSome result (λ p. length p.1.now < length text.now) }
{
    take_kind(after_blank(text)?)
}

/// What follows the names of all kinds that the filter excludes, where these stand in front of a text in their order.
pub(crate) fn after_kinds(text: &[u8], filter: Filter) -> Option<&[u8]>
    ensures { (w : worlds.World) → IfSome result (λ rest.
        TakesAll w text.now (map Kind (excluded_kinds filter)) rest.now) }
{
    let kinds = CallKind::all();
    let mut rest = text;
    for kind in kinds {
        if !filter.permits(*kind) {
            rest = after_kind(rest, *kind)?;
        }
    }
    Some(rest)
}

// What follows the name of the kind, after a blank. An installed filter doesn't exclude exit.
fn after_kind(text: &[u8], kind: CallKind) -> Option<&[u8]>
    ensures { (w : worlds.World) → IfSome result (λ rest. Takes w text.now (Kind kind) rest.now) }
{
    match kind {
        CallKind::Exit => None,
        _ => after_piece(after_blank(text)?, kind.name().as_bytes()),
    }
}
