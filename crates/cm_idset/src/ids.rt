// Sets of ids: canonical lists of intervals, and what is asked and made of them.
ghost use Rattle.std.specs.Prelude.{◌≡◌, ◌↔◌, ◌⊎◌, ℕ, ◌<◌, ◌≤◌, [], ◌∷◌, false, IsTrue, if◌then◌else◌, Some, None};
ghost use Rattle.cm_base.specs.Limits.{id_count};
ghost use Rattle.cm_base.specs.Outcome.{OrNoMemory};
ghost use Rattle.cm_sets.specs.Sets.{AreSame, IsWithin, Exceeds};
ghost use Rattle.cm_sets.specs.Decided.{test_decides};
ghost use Rattle.model_cred.specs.Intervals.{ids_hold, is_canonical, IsCanonical};
ghost use Rattle.cm_idset.specs.Held.{Held, Span};
ghost use Rattle.cm_idset.specs.Image.{InImage};
ghost use Rattle.cm_idset.specs.Size.{ids_count, count_below};

use crate::ascending::ascends;
use crate::common::{apart, common};
use crate::cover::{common_is_within, cover, is_within};
use crate::merge::merged;
use crate::{Interval, counting, image, lookup};
use cm_base::NoMemory;
use cm_idmap::IdMap;
use cm_sets::SetLike;
use std::alloc::Global;
use std::marker::Model;

/// A set of ids of 0 to 4294967294, as intervals: ascending, apart, and no two of them touching. So a set has one list.
#[derive(Debug, Drop)]
pub struct IdSet {
    list: Vec<Interval>,
}

impl Model for IdSet {
    ghost use Rattle.std.specs.Prelude.{List};
    ghost use Rattle.model_cred.specs.Intervals.{Interval, IsCanonical};

    ghost Value = { List Interval };

    ghost view = { λ s. s.list.items };

    ghost invariant = { λ s. IsCanonical s.list.items };
}

impl IdSet {
    /// The set of none.
    pub fn empty(alloc: Global) -> IdSet
        ensures { result ≡ [] }
    {
        IdSet {
            list: Vec::new(alloc),
        }
    }

    /// The set of one id. It fails only where memory runs out.
    pub fn one(alloc: Global, id: u32) -> Result<IdSet, NoMemory>
        requires { id < id_count }
        ensures list { OrNoMemory result (λ s. s ≡ record { first = id; last = id } ∷ []) }
        ensures members { OrNoMemory result (λ s. AreSame (Held s) (λ n. n ≡ id)) }
    {
        IdSet::range(alloc, id, id)
    }

    /// The set of the ids from the first to the last, both of them too. It fails only where memory runs out.
    pub fn range(alloc: Global, first: u32, last: u32) -> Result<IdSet, NoMemory>
        requires full { first ≤ last }
        requires ids { last < id_count }
        ensures list { OrNoMemory result (λ s. s ≡ record { first = first; last = last } ∷ []) }
        ensures members { OrNoMemory result (λ s. AreSame (Held s) (Span first last)) }
    {
        let list = vec![in alloc; Interval { first, last }]?;
        Ok(IdSet { list })
    }

    /// The set with these intervals, None exactly where they aren't ascending, apart and of ids alone. It takes no memory,
    /// and one walk over the list.
    pub fn from_list(list: Vec<Interval>) -> Option<IdSet>
        ensures { result ≡ (if is_canonical list.items then Some list.items else None) }
    {
        if ascends(&list) {
            Some(IdSet { list })
        } else {
            None
        }
    }

    /// The ids to which `down` of the map takes those of the set (user_namespaces(7)). It fails only where memory runs
    /// out.
    pub fn image(&self, alloc: Global, m: &IdMap) -> Result<IdSet, NoMemory>
        ensures { OrNoMemory result (λ s. AreSame (Held s) (InImage m.now self.now)) }
    {
        let list = image::image(alloc, m.extents(), self.intervals())?;
        Ok(IdSet { list })
    }

    /// How many ids are held.
    pub fn size(&self) -> u64
        ensures list { result ≡ ids_count self.now }
        ensures members { result ≡ count_below (ids_hold self.now) id_count }
    {
        counting::count(self.intervals())
    }

    /// Each id from the first to the last, both of them too, is held.
    pub fn holds_range(&self, first: u32, last: u32) -> bool
        requires full { first ≤ last }
        requires ids { last < id_count }
        ensures yes { IsTrue result → IsWithin (Span first last) (Held self.now) }
        ensures no { result ≡ false → Exceeds (Span first last) (Held self.now) }
    {
        cover(self.intervals(), &Interval { first, last }).is_some()
    }

    /// The intervals, ascending. No two of them touch.
    pub fn intervals(&self) -> &[Interval]
        ensures value { result.now ≡ self.now }
        ensures canonical { IsCanonical result.now }
    {
        &self.list
    }
}

impl SetLike for IdSet {
    type Item = u32;

    ghost number = { λ id. id };

    ghost count = { id_count };

    ghost has = { λ s id. IsTrue (ids_hold s id) };

    fn holds(&self, x: &u32) -> bool {
        lookup::holds(self.intervals(), *x)
    }

    fn join(&self, alloc: Global, other: &IdSet) -> Result<IdSet, NoMemory> {
        let list = merged(alloc, self.intervals(), other.intervals())?;
        Ok(IdSet { list })
    }

    fn meet(&self, alloc: Global, other: &IdSet) -> Result<IdSet, NoMemory> {
        let list = common(alloc, self.intervals(), other.intervals())?;
        Ok(IdSet { list })
    }

    fn within(&self, other: &IdSet) -> bool {
        is_within(self.intervals(), other.intervals())
    }

    fn is_empty(&self) -> bool {
        self.intervals().is_empty()
    }

    fn meet_within(&self, other: &IdSet, bound: &IdSet) -> bool {
        common_is_within(self.intervals(), other.intervals(), bound.intervals())
    }

    fn disjoint(&self, other: &IdSet) -> bool {
        apart(self.intervals(), other.intervals())
    }

    ghost decides = { λ s id. test_decides (ids_hold s id) };
}
