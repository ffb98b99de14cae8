// Lists of intervals that grow at their end and stay canonical: an interval that reaches the next one takes it in.
ghost use Rattle.std.specs.Prelude.{◌≡◌, ℕ, ◌-◌, ◌<◌, ◌||◌, length, slice_index_or, slice_set};
ghost use Rattle.cm_base.specs.Outcome.{OrNoMemory};
ghost use Rattle.model_cred.specs.Intervals.{ids_hold, IsCanonical};
ghost use Rattle.cm_idset.specs.Order.{CanTake, Taken, Continues, last_reaches};
ghost use Rattle.cm_idset.specs.Pairs.{joined};

use crate::Interval;
use cm_base::NoMemory;

// Puts the ids of the next interval into the list. No interval of it begins after that one.
pub(crate) fn put(list: &mut Vec<Interval>, next: &Interval) -> Result<(), NoMemory>
    requires { CanTake list.old.items next.now }
    ensures { OrNoMemory result (λ _. Taken list.old.items next.now list.new.items) }
{
    if last_reaches(list, next) {
        join_last(list, next);
    } else {
        list.push(*next)?;
    }
    Ok(())
}

// The last interval, if there is one, reaches the next.
fn last_reaches(list: &[Interval], next: &Interval) -> bool
    ensures { result ≡ last_reaches list.now next.now }
{
    match list.last() {
        Some(last) => last.reaches(next),
        None => false,
    }
}

// Lets the last interval go on to where the next ends.
fn join_last(list: &mut Vec<Interval>, next: &Interval)
    requires { 0 < length list.old.items }
    ensures { (d : _) → let last = length list.old.items - 1 in
        list.new.items ≡ slice_set list.old.items last (joined (slice_index_or list.old.items last d) next.now) }
{
    let at = list.len() - 1;
    let longer = list[at].joined(next);
    list[at] = longer;
}

// Puts the ids of intervals that continue the list into it.
pub(crate) fn put_all(list: &mut Vec<Interval>, more: &[Interval]) -> Result<(), NoMemory>
    requires canonical { IsCanonical list.old.items }
    requires continues { Continues list.old.items more.now }
    ensures canonical { OrNoMemory result (λ _. IsCanonical list.new.items) }
    ensures holds { OrNoMemory result (λ _. (id : ℕ) → ids_hold list.new.items id ≡ (ids_hold list.old.items id || ids_hold more.now id)) }
{
    for next in more {
        put(list, next)?;
    }
    Ok(())
}
