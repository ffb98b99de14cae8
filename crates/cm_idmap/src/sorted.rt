// The lists that a map keeps beside its own: its extents in the order of one side, so that an id is found by halves.
ghost use Rattle.std.specs.Prelude.{◌≡◌};
ghost use Rattle.std.specs.List.Sorted.{IsNonDecreasingBy, IsPermutation};
ghost use Rattle.cm_base.specs.Outcome.{OrNoMemory};
ghost use Rattle.cm_idmap.specs.Sides.{first_of};

use crate::Extent;
use crate::looks::Looks;
use crate::side::{Side, put_in_order};
use crate::steps::Steps;
use cm_base::NoMemory;
use std::alloc::Global;
use std::marker::Model;
use std::sync::ledger::Ledger;

/// The extents of a map in the order of their inside or of their outside ids. Contracts see the list.
#[derive(Debug, Drop)]
pub struct Sorted {
    list: Vec<Extent>,
}

impl Model for Sorted {
    ghost use Rattle.std.specs.Prelude.{List};
    ghost use Rattle.model_cred.specs.IdMap.{Extent};

    ghost Value = { List Extent };

    ghost view = { λ s. s.list.items };
}

impl<L: Ledger> Looks<L> for Sorted {
    ghost extents = { λ s. s };

    fn count(&self) -> usize {
        self.list.len()
    }

    fn look(&self, i: usize, steps: &mut Steps<L>) -> Extent {
        steps.add_one();
        self.list[i]
    }
}

impl Sorted {
    // The extents of the list in the order of that side. It fails only where memory runs out.
    pub(crate) fn by(alloc: Global, side: Side, list: &[Extent]) -> Result<Sorted, NoMemory>
        ensures order { OrNoMemory result (λ s. IsNonDecreasingBy (first_of side) s) }
        ensures permutation { OrNoMemory result (λ s. IsPermutation list.now s) }
    {
        let mut list = Vec::from_slice(alloc, list)?;
        put_in_order(side, &mut list);
        Ok(Sorted { list })
    }

    // The extents.
    pub(crate) fn extents(&self) -> &[Extent]
        ensures { result.now ≡ self.now }
    {
        &self.list
    }

    // An equal list. It fails only where memory runs out.
    pub(crate) fn copy(&self, alloc: Global) -> Result<Sorted, NoMemory>
        ensures { OrNoMemory result (λ s. s ≡ self.now) }
    {
        let list = Vec::from_slice(alloc, &self.list)?;
        Ok(Sorted { list })
    }
}
