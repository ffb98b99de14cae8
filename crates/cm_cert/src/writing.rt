// Bounds and rows as values, and the text of bounds.
ghost use Rattle.std.specs.Prelude.{◌≡◌, map};
ghost use Rattle.cm_base.specs.Outcome.{OrNoMemory};
ghost use Rattle.model_cert.specs.Written.{ids_data, caps_data, row_data, certificate_data, certificate_text};
ghost use Rattle.serde_json.specs.Data.{boolean, put as with_member};
ghost use Rattle.serde_json.specs.View.{view, members_view};

use crate::caps::caps_value;
use crate::ids::ids_value;
use cm_base::{CapWord, NoMemory};
use cm_box::{Bounds, BoxRow};
use cm_idset::IdSet;
use serde_json::{Map, Value, json};
use std::alloc::Global;

/// The one text of the bounds: compact JSON (choice; docs/CERTIFICATE.md). Its only error is out of memory.
#[tactic(auto, using(model_cert::proofs::Floats::certificate_floatless), unfolding(model_cert::specs::Written::certificate_text))]
pub fn write_bounds(alloc: Global, b: &Bounds) -> Result<Vec<u8>, NoMemory>
    ensures { OrNoMemory result (λ text. text.items ≡ certificate_text b.now) }
{
    let value = certificate_value(alloc, b)?;
    Ok(value.to_vec(alloc)?)
}

// The bounds as a value.
fn certificate_value(alloc: Global, b: &Bounds) -> Result<Value, NoMemory>
    ensures { OrNoMemory result (λ v. view v ≡ certificate_data b.now) }
{
    let rows = row_values(alloc, b.rows.items())?;
    Ok(json!(in alloc; {"format": 1u32, "rows": rows})?)
}

// Each row.
fn row_values(alloc: Global, rows: &[BoxRow]) -> Result<Vec<Value>, NoMemory>
    ensures { OrNoMemory result (λ items. map view items.items ≡ map row_data rows.now) }
{
    let mut items = Vec::with_capacity(alloc, rows.len())?;
    for row in rows {
        let value = row_value(alloc, row)?;
        items.push(value)?;
    }
    Ok(items)
}

/// The row as a value of JSON. Its only error is out of memory.
pub fn row_value(alloc: Global, row: &BoxRow) -> Result<Value, NoMemory>
    ensures { OrNoMemory result (λ v. view v ≡ row_data row.now) }
{
    let mut members = Map::new(alloc);
    put_caps(&mut members, alloc, "b", row.b.0)?;
    put_ids(&mut members, alloc, "eg", &row.eg)?;
    put_ids(&mut members, alloc, "eu", &row.eu)?;
    put_ids(&mut members, alloc, "fg", &row.fg)?;
    put_ids(&mut members, alloc, "fu", &row.fu)?;
    put_ids(&mut members, alloc, "g", &row.g)?;
    put_caps(&mut members, alloc, "i", row.i.0)?;
    put_flag(&mut members, alloc, "k", row.k.0)?;
    put_ids(&mut members, alloc, "mg", &row.mg)?;
    put_ids(&mut members, alloc, "mu", &row.mu)?;
    put_flag(&mut members, alloc, "n", row.n.0)?;
    put_caps(&mut members, alloc, "p", row.p.0)?;
    put_flag(&mut members, alloc, "r", row.r.0)?;
    put_ids(&mut members, alloc, "s", &row.s)?;
    put_ids(&mut members, alloc, "u", &row.u)?;
    Ok(Value::Object(members))
}

// A set of ids at a key.
fn put_ids(
    members: &mut Map<String, Value>,
    alloc: Global,
    key: &str,
    set: &IdSet,
) -> Result<(), NoMemory>
    ensures { OrNoMemory result (λ _. members_view members.new.entries
        ≡ with_member key.now (ids_data set.now) (members_view members.old.entries)) }
{
    let value = ids_value(alloc, set)?;
    serde_json::put(members, alloc, key, value)?;
    Ok(())
}

// A set of capabilities at a key.
fn put_caps(
    members: &mut Map<String, Value>,
    alloc: Global,
    key: &str,
    set: CapWord,
) -> Result<(), NoMemory>
    ensures { OrNoMemory result (λ _. members_view members.new.entries
        ≡ with_member key.now (caps_data set) (members_view members.old.entries)) }
{
    let value = caps_value(alloc, set)?;
    serde_json::put(members, alloc, key, value)?;
    Ok(())
}

// A flag at a key.
fn put_flag(
    members: &mut Map<String, Value>,
    alloc: Global,
    key: &str,
    flag: bool,
) -> Result<(), NoMemory>
    ensures { OrNoMemory result (λ _. members_view members.new.entries
        ≡ with_member key.now (boolean flag) (members_view members.old.entries)) }
{
    serde_json::put(members, alloc, key, Value::Bool(flag))?;
    Ok(())
}
