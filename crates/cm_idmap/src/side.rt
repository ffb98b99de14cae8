// The two sides of an extent: its inside and its outside ids.
ghost use Rattle.std.specs.Prelude.{◌≡◌, ◌+◌, ◌↔◌, IsTrue, true};
ghost use Rattle.std.specs.List.Sorted.{IsNonDecreasingBy, IsPermutation};
ghost use Rattle.cm_idmap.specs.Sides.{first_of, AscendsOn};

use crate::Extent;

// Which ids of an extent are looked at.
#[derive(Clone, Copy)]
pub(crate) enum Side {
    Inside,
    Outside,
}

// The first id of the extent on that side.
pub(crate) fn first_of(side: Side, e: &Extent) -> u32
    ensures { result ≡ first_of side e.now }
{
    match side {
        Side::Inside => e.inside,
        Side::Outside => e.outside,
    }
}

// The first id past the extent on that side.
fn end_of(side: Side, e: &Extent) -> u64
    ensures { result ≡ first_of side e.now + e.now.length }
{
    u64::from(first_of(side, e)) + u64::from(e.length)
}

// Puts the extents in the order of that side.
pub(crate) fn put_in_order(side: Side, list: &mut Vec<Extent>)
    ensures order { IsNonDecreasingBy (first_of side) list.new.items }
    ensures permutation { IsPermutation list.old.items list.new.items }
{
    list.sort_unstable_by_key(|e| first_of(side, e));
}

// Each extent begins, on that side, after the ids of each one before it.
pub(crate) fn ascends_on(side: Side, list: &[Extent]) -> bool
    ensures { IsTrue result ↔ AscendsOn side list.now }
{
    for i in 1..list.len() {
        if end_of(side, &list[i - 1]) > u64::from(first_of(side, &list[i])) {
            return false;
        }
    }
    true
}
