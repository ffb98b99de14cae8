// The list of the rows that are to be looked at.
ghost use Rattle.std.specs.Prelude.{◌≡◌, ℕ, ◌<◌, ◌+◌, ◌*◌, ◌^◌, length, slice_set, false, true};
ghost use Rattle.cm_base.specs.Outcome.{OrNoMemory};
ghost use Rattle.cm_maker.specs.Widening.{is_listed, MayRead};
ghost use Rattle.model_verdict.specs.Sweep.{row_count};

use cm_base::{NoMemory, SpaceId};
use cm_state::Spaces;
use std::alloc::Global;
use std::marker::Model;

// The rows that are to be looked at: at first all, later each that reads a row which has changed. A flag for each row,
// so that a row is there once, and rows are come to in their order: what a row reads of others stands before it.
#[derive(Debug, Drop)]
pub(crate) struct Waiting {
    rows: Vec<bool>,
}

impl Model for Waiting {
    ghost use Rattle.std.specs.Prelude.{List, Bool};

    ghost Value = { List Bool };

    ghost view = { λ list. list.rows.items };
}

impl Waiting {
    // All of so many rows. It fails only where memory runs out.
    pub(crate) fn all(alloc: Global, count: usize) -> Result<Waiting, NoMemory>
        ensures count { OrNoMemory result (λ list. length list ≡ count) }
        ensures all { OrNoMemory result (λ list. (y : ℕ) → y < count → is_listed list y ≡ true) }
    {
        let rows = vec![in alloc; true; count]?;
        Ok(Waiting { rows })
    }

    // The row is on the list.
    pub(crate) fn holds(&self, row: u32) -> bool
        requires { row < length self.now }
        ensures { result ≡ is_listed self.now row }
    {
        self.rows[row as usize]
    }

    // Takes a row off.
    pub(crate) fn take_off(&mut self, row: u32)
        requires { row < length self.old }
        ensures { self.new ≡ slice_set self.old row false }
    {
        self.rows[row as usize] = false;
    }

    // Puts both rows of a space on the list.
    fn put_space(&mut self, n: SpaceId)
        requires few { n.0 < 2 ^ 31 }
        requires there { 2 * n.0 + 1 < length self.old }
        ensures { self.new ≡ slice_set (slice_set self.old (2 * n.0) true) (2 * n.0 + 1) true }
    {
        let at = 2 * n.0 as usize;
        self.rows[at] = true;
        self.rows[at + 1] = true;
    }

    // Puts on the list all rows that may read the row, itself aside: no other row reads a fresh row, and a standing one
    // is read by rows of its space and of those below it alone.
    pub(crate) fn put_readers(&mut self, spaces: &Spaces, row: u32)
        requires rows { length self.old ≡ row_count spaces.now }
        requires few { length spaces.now < 2 ^ 31 }
        ensures count { length self.new ≡ length self.old }
        ensures kept { (z : ℕ) → is_listed self.old z ≡ true → is_listed self.new z ≡ true }
        ensures put { (z : ℕ) → z < row_count spaces.now → MayRead spaces.now row z → is_listed self.new z ≡ true }
    {
        if row % 2 == 1 {
            return;
        }
        let above = SpaceId(row / 2);
        for n in 0..spaces.count() {
            if spaces.ancestor(above, SpaceId(n)) {
                self.put_space(SpaceId(n));
            }
        }
    }
}
