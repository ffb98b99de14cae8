// A set of at most one unit, as a flag.
ghost use Rattle.std.specs.Prelude.{◌≡◌, true};
ghost use Rattle.cm_sets.specs.Decided.{flag_decides};

use crate::SetLike;
use cm_base::NoMemory;
use std::alloc::Global;

/// A flag as a set: its unit is held where it is true. In contracts the unit is the number 0.
#[derive(Clone, Copy, Debug, PartialEq, Eq)]
pub struct Flag(pub bool);

impl SetLike for Flag {
    type Item = ();

    ghost number = { λ _. 0 };

    ghost count = { 1 };

    ghost has = { λ f n. (n ≡ 0) × (f.0 ≡ true) };

    fn holds(&self, _x: &()) -> bool {
        self.0
    }

    fn join(&self, _alloc: Global, other: &Flag) -> Result<Flag, NoMemory> {
        Ok(Flag(self.0 || other.0))
    }

    fn meet(&self, _alloc: Global, other: &Flag) -> Result<Flag, NoMemory> {
        Ok(Flag(self.0 && other.0))
    }

    fn within(&self, other: &Flag) -> bool {
        !self.0 || other.0
    }

    fn is_empty(&self) -> bool {
        !self.0
    }

    fn meet_within(&self, other: &Flag, bound: &Flag) -> bool {
        !(self.0 && other.0) || bound.0
    }

    fn disjoint(&self, other: &Flag) -> bool {
        !(self.0 && other.0)
    }

    ghost decides = { λ f n. flag_decides f.0 true n };
}
