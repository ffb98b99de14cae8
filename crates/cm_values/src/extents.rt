// The id maps that a row declares, as lists of extents. Whether such a list is a map is left to `IdMap`.
ghost use Rattle.std.specs.Prelude.{◌≡◌, Vec, option_map};
ghost use Rattle.cm_base.specs.Outcome.{OrNoMemory};
ghost use Rattle.toml.specs.Data.{array};
ghost use Rattle.toml.specs.View.{view, items_view, table_view};
ghost use Rattle.model_cred.specs.IdMap.{Extent};
ghost use Rattle.model_text.specs.MapText.{extent_number, extent_of, extents_listed, map_at};

use crate::values::{items_at, number_from, value_at};
use cm_base::NoMemory;
use cm_idmap::Extent;
use std::alloc::Global;
use toml::{Table, Value};

// What stands for an extent that a value isn't.
const EMPTY: Extent = Extent {
    inside: 0,
    outside: 0,
    length: 0,
};

/// The list of extents at the key, where the row has it. It fails only where memory runs out.
pub fn extents_at(alloc: Global, row: &Table, key: &str) -> Result<Option<Vec<Extent>>, NoMemory>
    ensures { OrNoMemory result (λ list. option_map (λ (v : Vec Extent Global). v.items) list ≡ map_at key.now (table_view row.now)) }
{
    match value_at(row, key) {
        Some(Value::Array(values)) => Ok(Some(extents_listed(alloc, values)?)),
        Some(_) => Ok(Some(Vec::new(alloc))),
        None => Ok(None),
    }
}

/// The extents of an array.
fn extents_listed(alloc: Global, values: &[Value]) -> Result<Vec<Extent>, NoMemory>
    ensures { OrNoMemory result (λ list. list.items ≡ extents_listed (items_view values.now)) }
{
    let mut list = Vec::with_capacity(alloc, values.len())?;
    for value in values {
        list.push(extent_of(value))?;
    }
    Ok(list)
}

/// The extent of an array of three numbers.
fn extent_of(value: &Value) -> Extent
    ensures { result ≡ extent_of (view value.now) }
{
    match value {
        Value::Array(numbers) => extent_of_three(numbers),
        _ => EMPTY,
    }
}

/// The extent of three numbers.
fn extent_of_three(numbers: &[Value]) -> Extent
    ensures { result ≡ extent_of (array (items_view numbers.now)) }
{
    if numbers.len() != 3 {
        return EMPTY;
    }
    Extent {
        inside: extent_number(&numbers[0]),
        outside: extent_number(&numbers[1]),
        length: extent_number(&numbers[2]),
    }
}

/// A number of an extent, 0 for a value that is none.
fn extent_number(value: &Value) -> u32
    ensures { result ≡ extent_number (view value.now) }
{
    match number_from(value, 0, u32::MAX) {
        Some(number) => number,
        None => 0,
    }
}
