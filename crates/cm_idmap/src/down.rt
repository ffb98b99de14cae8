// A list of extents, its outside ids as the target's parent sees them, is taken down through the parent's map: its
// outside ids are then as the initial space sees them. The parent's extent is looked for by halves.
ghost use Rattle.std.specs.Prelude.{◌≡◌, ◌+◌, ◌<◌, Vec, All, option_map};
ghost use Rattle.cm_base.specs.Outcome.{OrNoMemory};
ghost use Rattle.model_cred.specs.IdMap.{Extent};
ghost use Rattle.model_cred.specs.MapFault.{IsMap};
ghost use Rattle.model_rules.specs.Maps.{extent_down as model_extent_down, list_down as model_list_down};
ghost use Rattle.std.specs.List.Sorted.{IsNonDecreasingBy};

use crate::Extent;
use crate::side::Side;
use crate::sorted::Sorted;
use crate::uncounted::extent_in;
use cm_base::NoMemory;
use std::alloc::Global;
use std::marker::Brand;
use std::sync::ledger::Blank;

// The list, where each outside range lies in one extent of the map.
pub(crate) fn list_down(
    alloc: Global,
    map: &Sorted,
    given: &[Extent],
) -> Result<Option<Vec<Extent>>, NoMemory>
    requires map { IsMap map.now }
    requires order { IsNonDecreasingBy (λ e. e.inside) map.now }
    requires some { All (λ e. 0 < e.length) given.now }
    ensures { OrNoMemory result (λ all. option_map (λ (v : Vec Extent Global). v.items) all ≡ model_list_down map.now given.now) }
{
    let mut all = Vec::with_capacity(alloc, given.len())?;
    for e in given {
        match extent_down(map, e) {
            Some(stored) => all.push(stored)?,
            None => return Ok(None),
        }
    }
    Ok(Some(all))
}

// The extent, where its outside range lies in one extent of the map: in the one that holds its first id.
fn extent_down(map: &Sorted, e: &Extent) -> Option<Extent>
    requires map { IsMap map.now }
    requires order { IsNonDecreasingBy (λ e. e.inside) map.now }
    requires some { 0 < e.now.length }
    ensures { result ≡ model_extent_down map.now e.now }
{
    let Some(p) = extent_in::<Brand>(Side::Inside, map, e.outside, Blank::new(1)) else {
        return None;
    };
    if end(e.outside, e.length) > end(p.inside, p.length) {
        return None;
    }
    Some(Extent {
        inside: e.inside,
        outside: p.outside + (e.outside - p.inside),
        length: e.length,
    })
}

// The first id past a range.
fn end(first: u32, length: u32) -> u64
    ensures { result ≡ first + length }
{
    u64::from(first) + u64::from(length)
}
