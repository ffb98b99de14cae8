// Whether a list of intervals is the one way to write a set.
ghost use Rattle.std.specs.Prelude.{◌≡◌, ◌&&◌, nat_le, nat_lt};
ghost use Rattle.cm_base.specs.Limits.{id_count};
ghost use Rattle.model_cred.specs.Intervals.{is_canonical};

use crate::Interval;
use cm_base::MINUS_ONE;

// Each interval has an id and ids alone, and begins at least two past the end of the one before.
pub(crate) fn ascends(list: &[Interval]) -> bool
    ensures { result ≡ is_canonical list.now }
{
    let mut low: u64 = 0;
    for ids in list {
        if !follows(low, ids) {
            return false;
        }
        low = u64::from(ids.last) + 2;
    }
    true
}

// The interval has an id and ids alone, none of them below the number.
fn follows(low: u64, ids: &Interval) -> bool
    ensures { result ≡ (nat_le low ids.now.first && nat_le ids.now.first ids.now.last && nat_lt ids.now.last id_count) }
{
    low <= u64::from(ids.first) && ids.first <= ids.last && ids.last < MINUS_ONE
}
