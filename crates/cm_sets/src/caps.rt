// Sets of capabilities as lawful sets.
ghost use Rattle.std.specs.Prelude.{IsTrue};
ghost use Rattle.cm_base.specs.CapSet.{cap_count, holds};
ghost use Rattle.cm_sets.specs.Decided.{test_decides};

use crate::SetLike;
use cm_base::{Cap, CapWord, NoMemory};
use std::alloc::Global;

/// A set of capabilities (capabilities(7)). In contracts a capability is its number, 0 to 40.
#[derive(Clone, Copy, Debug, PartialEq, Eq)]
pub struct CapSet(pub CapWord);

#[tactic(auto, using(crate::proofs::Members::cap_sets))]
impl SetLike for CapSet {
    type Item = Cap;

    ghost number = { λ c. c };

    ghost count = { cap_count };

    ghost has = { λ s n. IsTrue (holds s.0 n) };

    fn holds(&self, x: &Cap) -> bool {
        self.0.holds(*x)
    }

    fn join(&self, _alloc: Global, other: &CapSet) -> Result<CapSet, NoMemory> {
        Ok(CapSet(self.0.union(other.0)))
    }

    fn meet(&self, _alloc: Global, other: &CapSet) -> Result<CapSet, NoMemory> {
        Ok(CapSet(self.0.meet(other.0)))
    }

    fn within(&self, other: &CapSet) -> bool {
        self.0.within(other.0)
    }

    fn is_empty(&self) -> bool {
        self.0.bits() == 0
    }

    fn meet_within(&self, other: &CapSet, bound: &CapSet) -> bool {
        self.0.meet(other.0).within(bound.0)
    }

    fn disjoint(&self, other: &CapSet) -> bool {
        self.0.meet(other.0).bits() == 0
    }

    ghost decides = { λ s n. test_decides (holds s.0 n) };
}
