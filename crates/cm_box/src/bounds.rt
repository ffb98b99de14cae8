// Bounds: the rows of the standing spaces, two of each space.
ghost use Rattle.std.specs.Prelude.{◌≡◌, ℕ, ◌<◌, ◌^◌, length, slice_set};
ghost use Rattle.cm_base.specs.Outcome.{OrNoMemory};
ghost use Rattle.cm_box.specs.Places.{row_of};
ghost use Rattle.cm_box_rows.specs.Rows.{RowHolds, AreSameRows};
ghost use Rattle.model_box.specs.Bounds.{row_in};
ghost use Rattle.model_box.specs.Row.{row_number, space_under};

use crate::BoxRow;
use crate::place::Place;
use cm_base::NoMemory;
use std::alloc::Global;
use std::marker::Model;

/// A list of rows. The list itself is open: a row in it is changed in place.
#[derive(Debug, Drop)]
pub struct Rows {
    pub list: Vec<BoxRow>,
}

impl Model for Rows {
    ghost use Rattle.std.specs.Prelude.{List};
    ghost use Rattle.model_box.specs.Bounds.{BoxRow};

    ghost Value = { List BoxRow };

    ghost view = { λ rows. rows.list.items };
}

impl Rows {
    /// These rows, as they stand in the list. It takes no memory.
    pub fn from_vec(list: Vec<BoxRow>) -> Rows
        ensures { result ≡ list.items }
    {
        Rows { list }
    }

    /// The rows, in their order. It takes no memory.
    pub fn items(&self) -> &[BoxRow]
        ensures { result.now ≡ self.now }
    {
        &self.list
    }
}

/// Bounds: row 2n is for the members in space n, row 2n + 1 for those in all spaces made later whose nearest ancestor
/// among the spaces of the query is n.
#[derive(Debug, Drop)]
pub struct Bounds {
    pub rows: Rows,
}

impl Model for Bounds {
    ghost use Rattle.std.specs.Prelude.{List};
    ghost use Rattle.model_box.specs.Bounds.{BoxRow};

    ghost Value = { List BoxRow };

    ghost view = { λ b. b.rows };
}

impl Bounds {
    // The row at a place, which is there.
    pub(crate) fn row(&self, at: Place) -> &BoxRow
        requires few { space_under (row_of at) < 2 ^ 31 }
        requires there { row_number (row_of at) < length self.now }
        ensures { result.now ≡ row_in self.now (row_number (row_of at)) }
    {
        let number = at.number() as usize;
        &self.rows.list[number]
    }

    /// The row of that number. It takes no memory.
    pub fn row_at(&self, number: u32) -> &BoxRow
        requires { number < length self.now }
        ensures { result.now ≡ row_in self.now number }
    {
        &self.rows.list[number as usize]
    }

    /// Puts a row in the place of the one of that number. It takes no memory.
    pub fn put(&mut self, number: u32, row: BoxRow)
        requires { number < length self.old }
        ensures { self.new ≡ slice_set self.old number row }
    {
        self.rows.list[number as usize] = row;
    }

    // Bounds that hold the same. It fails only where memory runs out.
    pub(crate) fn copy(&self, alloc: Global) -> Result<Bounds, NoMemory>
        ensures count { OrNoMemory result (λ b. length b ≡ length self.now) }
        ensures same { OrNoMemory result
            (λ b. (y : ℕ) → AreSameRows (RowHolds (row_in b y)) (RowHolds (row_in self.now y))) }
    {
        let list = copy_rows(alloc, self.rows.items())?;
        Ok(Bounds {
            rows: Rows::from_vec(list),
        })
    }
}

// The rows in their order, each with what it holds.
fn copy_rows(alloc: Global, rows: &[BoxRow]) -> Result<Vec<BoxRow>, NoMemory>
    ensures count { OrNoMemory result (λ made. length made.items ≡ length rows.now) }
    ensures same { OrNoMemory result
        (λ made. (y : ℕ) → AreSameRows (RowHolds (row_in made.items y)) (RowHolds (row_in rows.now y))) }
{
    let mut made = Vec::with_capacity(alloc, rows.len())?;
    for row in rows {
        let copy = row.copy(alloc)?;
        made.push(copy)?;
    }
    Ok(made)
}
