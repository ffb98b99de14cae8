// What an id map makes of a list of intervals: each line of the map takes its part of each interval elsewhere, and what
// comes of it is put in order.
ghost use Rattle.std.specs.Prelude.{◌≡◌, ℕ, ◌+◌, ◌<◌, ◌≤◌, ◌++◌, All};
ghost use Rattle.std.specs.Option.{option_to_list};
ghost use Rattle.cm_base.specs.Limits.{id_count};
ghost use Rattle.cm_base.specs.Outcome.{OrNoMemory};
ghost use Rattle.cm_sets.specs.Sets.{AreSame};
ghost use Rattle.model_cred.specs.Intervals.{ids_hold, IsCanonical};
ghost use Rattle.model_cred.specs.MapFault.{IsMap};
ghost use Rattle.cm_idset.specs.Held.{Held};
ghost use Rattle.cm_idset.specs.Image.{InImage, image_of, images, all_images};
ghost use Rattle.cm_idset.specs.Order.{InOrderFrom, AreIds};

use crate::Interval;
use crate::growing::put_all;
use cm_base::NoMemory;
use cm_idmap::Extent;
use std::alloc::Global;
use std::cmp::{max, min};

// The ids to which the map takes those of the list.
pub(crate) fn image(
    alloc: Global,
    map: &[Extent],
    list: &[Interval],
) -> Result<Vec<Interval>, NoMemory>
    requires map { IsMap map.now }
    requires canonical { IsCanonical list.now }
    ensures canonical { OrNoMemory result (λ ids. IsCanonical ids.items) }
    ensures image { OrNoMemory result (λ ids. AreSame (Held ids.items) (InImage map.now list.now)) }
{
    let mut found = Vec::new(alloc);
    for e in map {
        put_images(&mut found, e, list)?;
    }
    put_in_order(&mut found);
    let mut ids = Vec::new(alloc);
    put_all(&mut ids, &found)?;
    Ok(ids)
}

// Puts what a line of a map makes of each interval at the end of the list.
fn put_images(found: &mut Vec<Interval>, e: &Extent, list: &[Interval]) -> Result<(), NoMemory>
    requires inside { e.now.inside + e.now.length ≤ id_count }
    requires outside { e.now.outside + e.now.length ≤ id_count }
    requires canonical { IsCanonical list.now }
    ensures { OrNoMemory result (λ _. found.new.items ≡ found.old.items ++ images e.now list.now) }
{
    for ids in list {
        put_image(found, e, ids)?;
    }
    Ok(())
}

// Puts what a line of a map makes of an interval at the end of the list, if it makes anything of it.
fn put_image(found: &mut Vec<Interval>, e: &Extent, ids: &Interval) -> Result<(), NoMemory>
    requires inside { e.now.inside + e.now.length ≤ id_count }
    requires outside { e.now.outside + e.now.length ≤ id_count }
    requires ids { ids.now.last < id_count }
    ensures { OrNoMemory result (λ _. found.new.items ≡ found.old.items ++ option_to_list (image_of e.now ids.now)) }
{
    if let Some(image) = image_of(e, ids) {
        found.push(image)?;
    }
    Ok(())
}

// What a line of a map makes of an interval.
fn image_of(e: &Extent, ids: &Interval) -> Option<Interval>
    requires inside { e.now.inside + e.now.length ≤ id_count }
    requires outside { e.now.outside + e.now.length ≤ id_count }
    requires ids { ids.now.last < id_count }
    ensures { result ≡ image_of e.now ids.now }
{
    let first = max(e.inside, ids.first);
    let end = min(e.inside + e.length, ids.last + 1);
    if first < end {
        Some(Interval {
            first: e.outside + (first - e.inside),
            last: e.outside + (end - 1 - e.inside),
        })
    } else {
        None
    }
}

// Puts intervals in the order in which they begin.
fn put_in_order(list: &mut Vec<Interval>)
    requires { AreIds list.old.items }
    ensures order { InOrderFrom 0 list.new.items }
    ensures holds { (id : ℕ) → ids_hold list.new.items id ≡ ids_hold list.old.items id }
{
    list.sort_unstable_by_key(|ids| ids.first);
}
