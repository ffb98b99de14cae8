// The trait of lawful sets. Its contract is what a set is: whatever a type keeps, its join is the union, its meet the
// intersection, and its tests are those of sets. So a type of which that isn't true is refused where it is made one.
ghost use Rattle.std.specs.Prelude.{◌≡◌, ◌↔◌, ◌⊎◌, ℕ, false, IsTrue};
ghost use Rattle.cm_base.specs.Outcome.{OrNoMemory};
ghost use Rattle.cm_sets.specs.Sets.{InEither, InBoth, AreSame, IsWithin, Exceeds, HoldsNone, HoldsSome, IsBelow};

use cm_base::NoMemory;
use std::alloc::Global;

/// Sets of items. In contracts an item is a number.
pub trait SetLike: Sized {
    /// What is in a set.
    type Item;

    /// The number that stands for an item.
    ghost number: { Self.Item → ℕ };

    /// How many numbers there are: a set holds none from this one on.
    ghost count: { ℕ };

    /// The set holds the number.
    ghost has: { Self → ℕ → Type 0 };

    /// The item is held.
    fn holds(&self, x: &Self::Item) -> bool
        ensures { IsTrue result ↔ has self.now (number x.now) };

    /// The union: what is in the one or in the other. It fails only where memory runs out.
    fn join(&self, alloc: Global, other: &Self) -> Result<Self, NoMemory>
        ensures { OrNoMemory result (λ s. AreSame (has s) (InEither (has self.now) (has other.now))) };

    /// The intersection: what is in both. It fails only where memory runs out.
    fn meet(&self, alloc: Global, other: &Self) -> Result<Self, NoMemory>
        ensures { OrNoMemory result (λ s. AreSame (has s) (InBoth (has self.now) (has other.now))) };

    /// Each item of this set is in the other.
    fn within(&self, other: &Self) -> bool
        ensures yes { IsTrue result → IsWithin (has self.now) (has other.now) }
        ensures no { result ≡ false → Exceeds (has self.now) (has other.now) };

    /// No item is held.
    fn is_empty(&self) -> bool
        ensures yes { IsTrue result → HoldsNone (has self.now) }
        ensures no { result ≡ false → HoldsSome (has self.now) }
        ensures range { IsBelow count (has self.now) };

    /// Each item that this set and the other both hold is in the bound.
    fn meet_within(&self, other: &Self, bound: &Self) -> bool
        ensures yes { IsTrue result → IsWithin (InBoth (has self.now) (has other.now)) (has bound.now) }
        ensures no { result ≡ false → Exceeds (InBoth (has self.now) (has other.now)) (has bound.now) };

    /// No item is in both.
    fn disjoint(&self, other: &Self) -> bool
        ensures yes { IsTrue result → HoldsNone (InBoth (has self.now) (has other.now)) }
        ensures no { result ≡ false → HoldsSome (InBoth (has self.now) (has other.now)) };

    /// A number is held, or it isn't.
    ghost decides: { (s : Self) (n : ℕ) → has s n ⊎ ¬ has s n };
}
