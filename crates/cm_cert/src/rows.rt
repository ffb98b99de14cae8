// Rows read from values: first the shape of each, and then the order in its sets.
ghost use Rattle.std.specs.Prelude.{◌≡◌, ◌<◌, ◌^◌, length};
ghost use Rattle.cm_cert.specs.Answers.{Gives, GivesSeen};
ghost use Rattle.model_cert.specs.Row.{row_fields, row_shape, rows_shape, row_order, rows_order, row_read};
ghost use Rattle.serde_json.specs.View.{view, items_view};

use crate::BadCert;
use crate::fields::{caps_at, flag_at, ids_at, key_count};
use crate::plain::PlainRow;
use cm_box::BoxRow;
use serde_json::Value;
use std::alloc::Global;

/// The row that a value stands for, told by that number where it is refused: `Shape` where it isn't an object of the 15
/// keys with values of their kinds, else `Order` where the intervals of a set aren't ids, ascending and apart.
pub fn read_row(alloc: Global, v: &Value, y: u32) -> Result<BoxRow, BadCert>
    ensures { Gives result (row_read y (view v.now)) }
{
    let row = row_shape(alloc, v, y)?;
    row_order(row, y)
}

// The row, in whatever order the intervals of its sets are.
#[tactic(auto, unfolding(model_cert::specs::Row::row_shape))]
fn row_shape(alloc: Global, v: &Value, y: u32) -> Result<PlainRow, BadCert>
    ensures { Gives result (row_shape y (view v.now)) }
{
    if key_count(v) != 15 {
        return Err(BadCert::Shape(Some(y)));
    }
    row_fields(alloc, v, y)
}

// Its 15 fields.
#[tactic(auto, unfolding(model_cert::specs::Row::row_fields))]
fn row_fields(alloc: Global, v: &Value, y: u32) -> Result<PlainRow, BadCert>
    ensures { Gives result (row_fields y (view v.now)) }
{
    let b = caps_at(alloc, v, y, "b")?;
    let eg = ids_at(alloc, v, y, "eg")?;
    let eu = ids_at(alloc, v, y, "eu")?;
    let fg = ids_at(alloc, v, y, "fg")?;
    let fu = ids_at(alloc, v, y, "fu")?;
    let g = ids_at(alloc, v, y, "g")?;
    let i = caps_at(alloc, v, y, "i")?;
    let k = flag_at(v, y, "k")?;
    let mg = ids_at(alloc, v, y, "mg")?;
    let mu = ids_at(alloc, v, y, "mu")?;
    let n = flag_at(v, y, "n")?;
    let p = caps_at(alloc, v, y, "p")?;
    let r = flag_at(v, y, "r")?;
    let s = ids_at(alloc, v, y, "s")?;
    let u = ids_at(alloc, v, y, "u")?;
    Ok(PlainRow {
        u,
        eu,
        fu,
        g,
        eg,
        fg,
        s,
        mu,
        mg,
        p,
        i,
        b,
        n,
        r,
        k,
    })
}

// The row, if its sets ascend.
fn row_order(row: PlainRow, y: u32) -> Result<BoxRow, BadCert>
    ensures { Gives result (row_order y row) }
{
    match row.ordered() {
        Some(row) => Ok(row),
        None => Err(BadCert::Order(y)),
    }
}

// The rows that items stand for, in whatever order the intervals of their sets are.
pub(crate) fn rows_shape(alloc: Global, items: &[Value]) -> Result<Vec<PlainRow>, BadCert>
    requires { length items.now < 2 ^ 32 }
    ensures { GivesSeen (λ rows. rows.items) result (rows_shape 0 (items_view items.now)) }
{
    let mut rows = Vec::with_capacity(alloc, items.len())?;
    let mut y = 0;
    for item in items {
        let row = row_shape(alloc, item, y)?;
        rows.push(row)?;
        y += 1;
    }
    Ok(rows)
}

// The rows, if the sets of each ascend.
pub(crate) fn rows_order(alloc: Global, plain: Vec<PlainRow>) -> Result<Vec<BoxRow>, BadCert>
    requires { length plain.items < 2 ^ 32 }
    ensures { GivesSeen (λ rows. rows.items) result (rows_order 0 plain.items) }
{
    let mut rows = Vec::with_capacity(alloc, plain.len())?;
    let mut y = 0;
    for row in plain {
        let row = row_order(row, y)?;
        rows.push(row)?;
        y += 1;
    }
    Ok(rows)
}
