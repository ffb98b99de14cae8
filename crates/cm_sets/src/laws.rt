// The law that holds of all lawful sets. The function does nothing: its contract is the law.
ghost use Rattle.cm_sets.specs.Sets.{AreSame, IsWithin};

use crate::SetLike;

/// Two sets, each within the other, hold the same.
pub fn each_within_the_other<S: SetLike>()
    ensures { (a b : S) → IsWithin (S.has a) (S.has b) → IsWithin (S.has b) (S.has a) → AreSame (S.has a) (S.has b) }
{}
