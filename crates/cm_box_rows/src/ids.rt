// What calls add to sets: of user ids, of group ids and of capabilities alike.
ghost use Rattle.std.specs.Prelude.{◌≡◌, ◌↔◌, IsTrue};
ghost use Rattle.cm_base.specs.Outcome.{OrNoMemory};
ghost use Rattle.cm_idset.specs.Held.{Held};
ghost use Rattle.cm_sets.specs.Sets.{AreSame, IsWithin};
ghost use Rattle.model_box.specs.Gains.{Settable};
ghost use Rattle.model_box.specs.Spread.{Meet};

use cm_base::NoMemory;
use cm_idset::IdSet;
use cm_sets::SetLike;
use std::alloc::Global;

// What a call can set is in the bound: what is mapped of the old, and with the capability for it all that is mapped.
pub(crate) fn settable_within<S: SetLike>(old: &S, mapped: &S, privileged: bool, bound: &S) -> bool
    ensures { IsTrue result
        ↔ IsWithin (Settable (S.has old.now) (S.has mapped.now) (IsTrue privileged)) (S.has bound.now) }
{
    if privileged {
        return mapped.within(bound);
    }
    old.meet_within(mapped, bound)
}

// What a call can set. It fails only where memory runs out.
pub(crate) fn settable<S: SetLike>(
    alloc: Global,
    old: &S,
    mapped: &S,
    privileged: bool,
) -> Result<S, NoMemory>
    ensures { OrNoMemory result
        (λ s. AreSame (S.has s) (Settable (S.has old.now) (S.has mapped.now) (IsTrue privileged))) }
{
    if privileged {
        return mapped.join(alloc, mapped);
    }
    old.meet(alloc, mapped)
}

/// The two sets have an id in common.
pub fn meet(one: &IdSet, other: &IdSet) -> bool
    ensures { IsTrue result ↔ Meet (Held one.now) (Held other.now) }
{
    !one.disjoint(other)
}
