// The searches by halves for callers that count no steps: the counter is dropped.
ghost use Rattle.std.specs.Prelude.{◌≡◌, ◌<◌, find};
ghost use Rattle.std.specs.List.Sorted.{IsNonDecreasingBy};
ghost use Rattle.model_cred.specs.IdMap.{down, up};
ghost use Rattle.model_cred.specs.MapFault.{IsMap};
ghost use Rattle.cm_idmap.specs.Sides.{AscendsOn, holds};

use crate::Extent;
use crate::search::{down_counted, extent_with, up_counted};
use crate::side::Side;
use crate::sorted::Sorted;
use crate::steps::Steps;
use std::sync::ledger::{Blank, Ledger};

// What `down_counted` answers.
pub(crate) fn down_in<L: Ledger>(table: &Sorted, inside: u32, blank: Blank) -> Option<u32>
    requires name { blank.name ≡ L.name }
    requires parts { blank.parts ≡ L.parts }
    requires some { 0 < blank.parts }
    requires map { IsMap table.now }
    requires order { IsNonDecreasingBy (λ e. e.inside) table.now }
    ensures { result ≡ down table.now inside }
{
    let mut steps = Steps::<L>::new(blank);
    down_counted::<L, Sorted>(table, inside, &mut steps)
}

// What `up_counted` answers.
pub(crate) fn up_in<L: Ledger>(table: &Sorted, outside: u32, blank: Blank) -> Option<u32>
    requires name { blank.name ≡ L.name }
    requires parts { blank.parts ≡ L.parts }
    requires some { 0 < blank.parts }
    requires map { IsMap table.now }
    requires order { IsNonDecreasingBy (λ e. e.outside) table.now }
    ensures { result ≡ up table.now outside }
{
    let mut steps = Steps::<L>::new(blank);
    up_counted::<L, Sorted>(table, outside, &mut steps)
}

// The extent that holds the id on that side.
pub(crate) fn extent_in<L: Ledger>(
    side: Side,
    table: &Sorted,
    id: u32,
    blank: Blank,
) -> Option<Extent>
    requires name { blank.name ≡ L.name }
    requires parts { blank.parts ≡ L.parts }
    requires some { 0 < blank.parts }
    requires order { AscendsOn side table.now }
    ensures { result ≡ find (holds side id) table.now }
{
    let mut steps = Steps::<L>::new(blank);
    extent_with::<L, Sorted>(side, table, id, &mut steps)
}
