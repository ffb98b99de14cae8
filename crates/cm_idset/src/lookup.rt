// One id in a list of intervals, found by halves.
ghost use Rattle.std.specs.Prelude.{◌≡◌};
ghost use Rattle.model_cred.specs.Intervals.{ids_hold, IsCanonical};

use crate::Interval;

// The list holds the id: the first interval that doesn't end before it does.
pub(crate) fn holds(list: &[Interval], id: u32) -> bool
    requires { IsCanonical list.now }
    ensures { result ≡ ids_hold list.now id }
{
    let at = list.partition_point(|ids| ids.last < id);
    match list.get(at) {
        Some(ids) => ids.first <= id,
        None => false,
    }
}
