// What a list of extents in order takes an id to: the extent that holds it is looked for by halves. Each look tells
// whether the id is below the extent, in it or above it.
ghost use Rattle.std.specs.Prelude.{◌≡◌, ◌+◌, ◌-◌, ◌*◌, ◌^◌, ◌≤◌, ◌⊎◌, [], length, find};
ghost use Rattle.std.specs.List.Sorted.{IsNonDecreasingBy};
ghost use Rattle.model_cred.specs.IdMap.{down, up};
ghost use Rattle.model_cred.specs.MapFault.{IsMap};
ghost use Rattle.cm_idmap.specs.Sides.{AscendsOn, holds};

use crate::Extent;
use crate::looks::Looks;
use crate::side::{Side, first_of};
use crate::steps::Steps;
use std::sync::ledger::Ledger;

/// The outside id to which a map with the extents of the table takes an inside id, None exactly where no extent holds
/// it (user_namespaces(7)). The table is a map or empty, in the order of its inside ids. It takes no memory. With n
/// extents and s steps of the call 2 ^ s is at most 2 n + 1: of 340 extents at most 9 are looked at.
pub fn down_counted<L: Ledger, T: Looks<L>>(
    table: &T,
    inside: u32,
    steps: &mut Steps<L>,
) -> Option<u32>
    requires map { (T.extents table.now ≡ []) ⊎ IsMap (T.extents table.now) }
    requires order { IsNonDecreasingBy (λ e. e.inside) (T.extents table.now) }
    ensures image { result ≡ down (T.extents table.now) inside }
    ensures counted { steps.old ≤ steps.new }
    ensures steps { 2 ^ (steps.new - steps.old) ≤ 2 * length (T.extents table.now) + 1 }
{
    match extent_with::<L, T>(Side::Inside, table, inside, steps) {
        Some(e) => Some(e.outside + (inside - e.inside)),
        None => None,
    }
}

/// The inside id that a map with the extents of the table takes to an outside id, None exactly where no extent holds it
/// (user_namespaces(7)). The table is a map or empty, in the order of its outside ids. It takes no memory, and at most
/// as many steps as `down_counted` of as many extents may take.
pub fn up_counted<L: Ledger, T: Looks<L>>(
    table: &T,
    outside: u32,
    steps: &mut Steps<L>,
) -> Option<u32>
    requires map { (T.extents table.now ≡ []) ⊎ IsMap (T.extents table.now) }
    requires order { IsNonDecreasingBy (λ e. e.outside) (T.extents table.now) }
    ensures image { result ≡ up (T.extents table.now) outside }
    ensures counted { steps.old ≤ steps.new }
    ensures steps { 2 ^ (steps.new - steps.old) ≤ 2 * length (T.extents table.now) + 1 }
{
    match extent_with::<L, T>(Side::Outside, table, outside, steps) {
        Some(e) => Some(e.inside + (outside - e.outside)),
        None => None,
    }
}

// The extent that holds the id on that side.
pub(crate) fn extent_with<L: Ledger, T: Looks<L>>(
    side: Side,
    table: &T,
    id: u32,
    steps: &mut Steps<L>,
) -> Option<Extent>
    requires { AscendsOn side (T.extents table.now) }
    ensures found { result ≡ find (holds side id) (T.extents table.now) }
    ensures counted { steps.old ≤ steps.new }
    ensures steps { 2 ^ (steps.new - steps.old) ≤ 2 * length (T.extents table.now) + 1 }
{
    let mut low = 0;
    let mut high = table.count();
    while low < high {
        let middle = low + (high - low) / 2;
        let e = table.look(middle, steps);
        let first = first_of(side, &e);
        if id < first {
            high = middle;
        } else if id - first < e.length {
            return Some(e);
        } else {
            low = middle + 1;
        }
    }
    None
}
