// What two lists of intervals hold together: one walk over both, in the order in which their intervals begin.
ghost use Rattle.std.specs.Prelude.{◌≡◌, ℕ, ◌||◌};
ghost use Rattle.cm_base.specs.Outcome.{OrNoMemory};
ghost use Rattle.model_cred.specs.Intervals.{ids_hold, IsCanonical};

use crate::Interval;
use crate::growing::{put, put_all};
use cm_base::NoMemory;
use std::alloc::Global;

// The ids that the one or the other holds.
pub(crate) fn merged(
    alloc: Global,
    one: &[Interval],
    other: &[Interval],
) -> Result<Vec<Interval>, NoMemory>
    requires one { IsCanonical one.now }
    requires other { IsCanonical other.now }
    ensures canonical { OrNoMemory result (λ ids. IsCanonical ids.items) }
    ensures either { OrNoMemory result (λ ids. (id : ℕ) → ids_hold ids.items id ≡ (ids_hold one.now id || ids_hold other.now id)) }
{
    let mut out = Vec::new(alloc);
    let (mut a, mut b) = (one, other);
    while let ([x, xs @ ..], [y, ys @ ..]) = (a, b) {
        if x.begins_first(y) {
            put(&mut out, x)?;
            a = xs;
        } else {
            put(&mut out, y)?;
            b = ys;
        }
    }
    let rest = if a.is_empty() { b } else { a };
    put_all(&mut out, rest)?;
    Ok(out)
}
