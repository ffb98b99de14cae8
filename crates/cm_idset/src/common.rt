// What two lists of intervals have in common: one walk over both, of which the first interval that ends first leaves.
ghost use Rattle.std.specs.Prelude.{◌≡◌, ℕ, IsTrue, false, ◌++◌, ◌&&◌};
ghost use Rattle.std.specs.Option.{option_to_list};
ghost use Rattle.cm_base.specs.Outcome.{OrNoMemory};
ghost use Rattle.cm_sets.specs.Sets.{InBoth, HoldsNone, HoldsSome};
ghost use Rattle.model_cred.specs.Intervals.{ids_hold, IsCanonical};
ghost use Rattle.cm_idset.specs.Held.{Held};
ghost use Rattle.cm_idset.specs.Pairs.{in_common};

use crate::Interval;
use cm_base::NoMemory;
use std::alloc::Global;

// The ids that both hold.
pub(crate) fn common(
    alloc: Global,
    one: &[Interval],
    other: &[Interval],
) -> Result<Vec<Interval>, NoMemory>
    requires one { IsCanonical one.now }
    requires other { IsCanonical other.now }
    ensures canonical { OrNoMemory result (λ ids. IsCanonical ids.items) }
    ensures both { OrNoMemory result (λ ids. (id : ℕ) → ids_hold ids.items id ≡ (ids_hold one.now id && ids_hold other.now id)) }
{
    let mut out = Vec::new(alloc);
    let (mut a, mut b) = (one, other);
    while let ([x, xs @ ..], [y, ys @ ..]) = (a, b) {
        put_common(&mut out, x, y)?;
        if x.ends_first(y) {
            a = xs;
        } else {
            b = ys;
        }
    }
    Ok(out)
}

// Puts the ids that two intervals have in common at the end of the list, if there are any.
fn put_common(out: &mut Vec<Interval>, x: &Interval, y: &Interval) -> Result<(), NoMemory>
    ensures { OrNoMemory result (λ _. out.new.items ≡ out.old.items ++ option_to_list (in_common x.now y.now)) }
{
    if let Some(ids) = x.common(y) {
        out.push(ids)?;
    }
    Ok(())
}

// No id is in both.
pub(crate) fn apart(one: &[Interval], other: &[Interval]) -> bool
    requires one { IsCanonical one.now }
    requires other { IsCanonical other.now }
    ensures yes { IsTrue result → HoldsNone (InBoth (Held one.now) (Held other.now)) }
    ensures no { result ≡ false → HoldsSome (InBoth (Held one.now) (Held other.now)) }
{
    let (mut a, mut b) = (one, other);
    while let ([x, xs @ ..], [y, ys @ ..]) = (a, b) {
        if x.is_before(y) {
            a = xs;
        } else if y.is_before(x) {
            b = ys;
        } else {
            return false;
        }
    }
    true
}
