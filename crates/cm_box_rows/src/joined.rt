// Two rows as one.
ghost use Rattle.cm_base.specs.Outcome.{OrNoMemory};
ghost use Rattle.cm_box_rows.specs.Rows.{RowHolds, InEitherRow, AreSameRows};

use crate::BoxRow;
use cm_base::NoMemory;
use cm_sets::SetLike;
use std::alloc::Global;

impl BoxRow {
    /// What the one or the other holds. It fails only where memory runs out.
    pub fn joined(&self, alloc: Global, other: &BoxRow) -> Result<BoxRow, NoMemory>
        ensures { OrNoMemory result
            (λ row. AreSameRows (RowHolds row) (InEitherRow (RowHolds self.now) (RowHolds other.now))) }
    {
        let p = self.p.join(alloc, &other.p)?;
        let i = self.i.join(alloc, &other.i)?;
        let b = self.b.join(alloc, &other.b)?;
        let n = self.n.join(alloc, &other.n)?;
        let r = self.r.join(alloc, &other.r)?;
        let k = self.k.join(alloc, &other.k)?;
        let u = self.u.join(alloc, &other.u)?;
        let eu = self.eu.join(alloc, &other.eu)?;
        let fu = self.fu.join(alloc, &other.fu)?;
        let g = self.g.join(alloc, &other.g)?;
        let eg = self.eg.join(alloc, &other.eg)?;
        let fg = self.fg.join(alloc, &other.fg)?;
        let s = self.s.join(alloc, &other.s)?;
        let mu = self.mu.join(alloc, &other.mu)?;
        let mg = self.mg.join(alloc, &other.mg)?;
        Ok(BoxRow {
            u,
            eu,
            fu,
            g,
            eg,
            fg,
            s,
            mu,
            mg,
            p,
            i,
            b,
            n,
            r,
            k,
        })
    }

    /// A row that holds the same. It fails only where memory runs out.
    pub fn copy(&self, alloc: Global) -> Result<BoxRow, NoMemory>
        ensures { OrNoMemory result (λ row. AreSameRows (RowHolds row) (RowHolds self.now)) }
    {
        self.joined(alloc, self)
    }
}
