// Places in lists that ascend by numbers. Each step asks for three that part what is left in four, and adds up the
// answers, and so does the end with what is left then, so that the processor has nothing to guess.
ghost use Rattle.std.specs.Prelude.{◌≡◌, ◌<◌, ◌≤◌, ◌+◌, ◌-◌, ◌*◌, ℕ, length, nat_lt, slice_index_or, if◌then◌else◌};
ghost use Rattle.cm_ordered.specs.Order.{Ascends, IsBetween, IsCut, before_by, below_by};

use crate::Numbered;

// The place of a number: those before it have lower ones.
pub(crate) fn place<T: Numbered>(list: &[T], number: u64) -> usize
    requires { Ascends (before_by T.number) list.now }
    ensures { IsCut (below_by T.number number) list.now result }
{
    let mut from = 0;
    let mut left = list.len();
    while left > 3 {
        let step = left / 4;
        from += ahead(list, from, step, number);
        left -= 3 * step;
    }
    place_in(list, from, from + left, number)
}

// How far it is to the last of three places, in equal steps, whose number is lower.
fn ahead<T: Numbered>(list: &[T], from: usize, step: usize, number: u64) -> usize
    requires ascends { Ascends (before_by T.number) list.now }
    requires within { from + 3 * step < length list.now }
    ensures within { result ≤ 3 * step }
    ensures between { (left : ℕ) → 4 * step ≤ left
        → IsBetween (below_by T.number number) list.now from (from + left)
        → IsBetween (below_by T.number number) list.now (from + result) (from + result + (left - 3 * step)) }
{
    let first = lower(list, from + step, number);
    let second = lower(list, from + 2 * step, number);
    let third = lower(list, from + 3 * step, number);
    (first + second + third) * step
}

// One where the number at the place is lower, and else none.
fn lower<T: Numbered>(list: &[T], at: usize, number: u64) -> usize
    requires { at < length list.now }
    ensures one { (d : T) → result ≡ (if nat_lt (T.number (slice_index_or list.now at d)) number then 1 else 0) }
    ensures few { result ≤ 1 }
{
    usize::from(list[at].number() < number)
}

// The place of a number that is between these: past so many of them as are lower.
fn place_in<T: Numbered>(list: &[T], from: usize, end: usize, number: u64) -> usize
    requires ascends { Ascends (before_by T.number) list.now }
    requires order { from ≤ end }
    requires within { end ≤ length list.now }
    requires between { IsBetween (below_by T.number number) list.now from end }
    ensures { IsCut (below_by T.number number) list.now result }
{
    let mut at = from;
    for place in from..end {
        at += lower(list, place, number);
    }
    at
}
