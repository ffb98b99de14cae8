// A set of at most one unit, as a flag that is lowered where it is held.
ghost use Rattle.std.specs.Prelude.{◌≡◌, false};
ghost use Rattle.cm_sets.specs.Decided.{flag_decides};

use crate::SetLike;
use cm_base::NoMemory;
use std::alloc::Global;

/// A flag the other way round: its unit is held where it is false, so that the join is `and`. In contracts the unit is
/// the number 0.
#[derive(Clone, Copy, Debug, PartialEq, Eq)]
pub struct RevFlag(pub bool);

impl SetLike for RevFlag {
    type Item = ();

    ghost number = { λ _. 0 };

    ghost count = { 1 };

    ghost has = { λ f n. (n ≡ 0) × (f.0 ≡ false) };

    fn holds(&self, _x: &()) -> bool {
        !self.0
    }

    fn join(&self, _alloc: Global, other: &RevFlag) -> Result<RevFlag, NoMemory> {
        Ok(RevFlag(self.0 && other.0))
    }

    fn meet(&self, _alloc: Global, other: &RevFlag) -> Result<RevFlag, NoMemory> {
        Ok(RevFlag(self.0 || other.0))
    }

    fn within(&self, other: &RevFlag) -> bool {
        self.0 || !other.0
    }

    fn is_empty(&self) -> bool {
        self.0
    }

    fn meet_within(&self, other: &RevFlag, bound: &RevFlag) -> bool {
        self.0 || other.0 || !bound.0
    }

    fn disjoint(&self, other: &RevFlag) -> bool {
        self.0 || other.0
    }

    ghost decides = { λ f n. flag_decides f.0 false n };
}
