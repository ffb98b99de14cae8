// How many ids a list of intervals holds.
ghost use Rattle.std.specs.Prelude.{◌≡◌};
ghost use Rattle.model_cred.specs.Intervals.{IsCanonical};
ghost use Rattle.cm_idset.specs.Size.{ids_count};

use crate::Interval;

// The ids of the intervals, added up.
pub(crate) fn count(list: &[Interval]) -> u64
    requires { IsCanonical list.now }
    ensures { result ≡ ids_count list.now }
{
    let mut count = 0;
    for ids in list {
        count += ids.count();
    }
    count
}
