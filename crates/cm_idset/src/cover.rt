// Whether lists of intervals hold all that others do: walks over both, in the order in which their intervals begin.
ghost use Rattle.std.specs.Prelude.{◌≡◌, ◌≤◌, IsTrue, false, MatchOption};
ghost use Rattle.cm_sets.specs.Sets.{InBoth, IsWithin, Exceeds};
ghost use Rattle.model_cred.specs.Intervals.{IsCanonical};
ghost use Rattle.cm_idset.specs.Held.{Held, Between};
ghost use Rattle.cm_idset.specs.Cover.{Covers, CoversCommon};

use crate::Interval;

// The list from the interval on that holds all of the given ids. None where no interval does; then the list lacks one
// of them.
pub(crate) fn cover<'a>(list: &'a [Interval], ids: &Interval) -> Option<&'a [Interval]>
    requires canonical { IsCanonical list.now }
    requires full { ids.now.first ≤ ids.now.last }
    ensures { MatchOption result (Exceeds (Between ids.now) (Held list.now)) (λ rest. Covers list.now rest.now ids.now) }
{
    let mut rest = list;
    while let [i, later @ ..] = rest {
        if !i.is_before(ids) {
            return if ids.is_inside(i) { Some(rest) } else { None };
        }
        rest = later;
    }
    None
}

// Each id of the one is in the other.
pub(crate) fn is_within(one: &[Interval], other: &[Interval]) -> bool
    requires one { IsCanonical one.now }
    requires other { IsCanonical other.now }
    ensures yes { IsTrue result → IsWithin (Held one.now) (Held other.now) }
    ensures no { result ≡ false → Exceeds (Held one.now) (Held other.now) }
{
    let mut rest = other;
    for ids in one {
        let Some(from) = cover(rest, ids) else {
            return false;
        };
        rest = from;
    }
    true
}

// Each id that both hold is in the bound.
pub(crate) fn common_is_within(one: &[Interval], other: &[Interval], bound: &[Interval]) -> bool
    requires one { IsCanonical one.now }
    requires other { IsCanonical other.now }
    requires bound { IsCanonical bound.now }
    ensures yes { IsTrue result → IsWithin (InBoth (Held one.now) (Held other.now)) (Held bound.now) }
    ensures no { result ≡ false → Exceeds (InBoth (Held one.now) (Held other.now)) (Held bound.now) }
{
    let (mut a, mut b, mut rest) = (one, other, bound);
    while let ([x, xs @ ..], [y, ys @ ..]) = (a, b) {
        let Some(from) = cover_common(rest, x, y) else {
            return false;
        };
        rest = from;
        if x.ends_first(y) {
            a = xs;
        } else {
            b = ys;
        }
    }
    true
}

// The list from an interval on that holds all ids that two intervals have in common; the list itself where they have
// none. None where it lacks one of them.
fn cover_common<'a>(list: &'a [Interval], x: &Interval, y: &Interval) -> Option<&'a [Interval]>
    requires { IsCanonical list.now }
    ensures { MatchOption result (Exceeds (InBoth (Between x.now) (Between y.now)) (Held list.now)) (λ rest. CoversCommon list.now rest.now x.now y.now) }
{
    match x.common(y) {
        Some(ids) => cover(list, &ids),
        None => Some(list),
    }
}
