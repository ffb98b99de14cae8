// What a map keeps beside its list: its extents in the order of their inside ids, and in that of their outside ids.
ghost use Rattle.std.specs.Prelude.{◌≡◌, ◌↔◌, IsTrue};
ghost use Rattle.cm_base.specs.Outcome.{OrNoMemory};
ghost use Rattle.cm_idmap.specs.Kept.{AreSides};
ghost use Rattle.cm_idmap.specs.Sides.{AscendsOn};
ghost use Rattle.cm_idmap.specs.declared.side.Side.TheVariants.{Inside, Outside};

use crate::Extent;
use crate::side::{Side, ascends_on};
use crate::sorted::Sorted;
use cm_base::NoMemory;
use std::alloc::Global;

// The extents of a list in the order of each side.
#[derive(Debug, Drop)]
pub(crate) struct Sides {
    pub by_inside: Sorted,
    pub by_outside: Sorted,
}

impl Sides {
    // Those of the list. It fails only where memory runs out.
    pub fn of(alloc: Global, list: &[Extent]) -> Result<Sides, NoMemory>
        ensures { OrNoMemory result (AreSides list.now) }
    {
        let by_inside = Sorted::by(alloc, Side::Inside, list)?;
        let by_outside = Sorted::by(alloc, Side::Outside, list)?;
        Ok(Sides {
            by_inside,
            by_outside,
        })
    }

    // No two extents have an id in common: each list is in order.
    pub fn are_apart(&self) -> bool
        ensures { IsTrue result ↔ (AscendsOn Inside self.now.by_inside × AscendsOn Outside self.now.by_outside) }
    {
        ascends_on(Side::Inside, self.by_inside.extents())
            && ascends_on(Side::Outside, self.by_outside.extents())
    }

    // Equal ones. It fails only where memory runs out.
    pub fn copy(&self, alloc: Global) -> Result<Sides, NoMemory>
        ensures { OrNoMemory result (λ s. s ≡ self.now) }
    {
        let by_inside = self.by_inside.copy(alloc)?;
        let by_outside = self.by_outside.copy(alloc)?;
        Ok(Sides {
            by_inside,
            by_outside,
        })
    }
}
