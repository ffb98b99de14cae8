// Lists of extents that are looked into place by place, each look counted.
ghost use Rattle.std.specs.Prelude.{◌≡◌, ◌+◌, ◌<◌, List, Some, length, slice_get};
ghost use Rattle.model_cred.specs.IdMap.{Extent};

use crate::Extent;
use crate::steps::Steps;
use std::sync::ledger::Ledger;

/// A list of extents that is looked into place by place. Each look is counted.
pub trait Looks<L: Ledger> {
    /// The list.
    ghost extents: { Self → List Extent };

    /// How many extents the list has. It counts no step.
    fn count(&self) -> usize
        ensures { result ≡ length (extents self.now) };

    /// The extent at a place of the list, from 0 on. It counts one step.
    fn look(&self, i: usize, steps: &mut Steps<L>) -> Extent
        requires { i < length (extents self.now) }
        ensures extent { slice_get (extents self.now) i ≡ Some result }
        ensures step { steps.new ≡ steps.old + 1 };
}
