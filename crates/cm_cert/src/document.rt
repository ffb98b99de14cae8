// From a text to bounds: it is JSON, the document of a certificate, its rows have their shape, and then their order.
ghost use Rattle.std.specs.Prelude.{◌≡◌, ◌<◌, ◌*◌, ◌^◌, IfOk, Some, length};
ghost use Rattle.cm_cert.specs.Answers.{Gives, GivesSeen};
ghost use Rattle.model_cert.specs.Document.{is_format_1, value_in, all_rows, document, certificate_value, certificate};
ghost use Rattle.model_cert.specs.Json.{json_of};
ghost use Rattle.serde_json.specs.View.{view, items_view};

use crate::BadCert;
use crate::fields::key_count;
use crate::ids::number_of;
use crate::plain::PlainRow;
use crate::rows::{rows_order, rows_shape};
use cm_box::{Bounds, Rows};
use serde_json::{Category, Value};
use std::alloc::Global;

/// The bounds that a text stands for, with two rows for each of so many spaces (choice; docs/CERTIFICATE.md). Otherwise
/// the first refusal, in this order: `Json`, the text isn't UTF-8 or serde_json refuses it; `Shape(None)`, the document
/// isn't an object of `format` 1 and of `rows`, an array of two for each space; `Shape` of the first row that isn't of
/// the form of a row; `Order` of the first row of which a set of ids isn't ascending intervals of ids that are apart.
/// `NoMemory` may come with any text, and says nothing of it.
#[tactic(auto, unfolding(model_cert::specs::Document::certificate))]
pub fn read_bounds(alloc: Global, text: &[u8], spaces: u32) -> Result<Bounds, BadCert>
    requires few { spaces < 2 ^ 31 }
    ensures read { Gives result (certificate spaces text.now) }
    ensures count { IfOk result (λ b. length b ≡ 2 * spaces) }
{
    let value = value_of(alloc, text)?;
    bounds_of(alloc, &value, spaces)
}

// The value that a text stands for.
fn value_of(alloc: Global, text: &[u8]) -> Result<Value, BadCert>
    ensures { GivesSeen view result (value_in (json_of text.now)) }
{
    match Value::from_slice(alloc, text) {
        Ok(value) => Ok(value),
        Err(e) => match e.classify() {
            Category::Memory => Err(BadCert::NoMemory),
            _ => Err(BadCert::Json),
        },
    }
}

// The bounds that a value stands for.
#[tactic(auto, unfolding(model_cert::specs::Document::certificate_value))]
fn bounds_of(alloc: Global, value: &Value, spaces: u32) -> Result<Bounds, BadCert>
    requires few { spaces < 2 ^ 31 }
    ensures { Gives result (certificate_value spaces (view value.now)) }
{
    let plain = document(alloc, value, spaces)?;
    let rows = rows_order(alloc, plain)?;
    Ok(Bounds {
        rows: Rows::from_vec(rows),
    })
}

// Its rows, in whatever order the intervals of their sets are.
#[tactic(auto, unfolding(model_cert::specs::Document::document))]
fn document(alloc: Global, value: &Value, spaces: u32) -> Result<Vec<PlainRow>, BadCert>
    requires few { spaces < 2 ^ 31 }
    ensures { GivesSeen (λ rows. rows.items) result (document spaces (view value.now)) }
{
    if !is_format_1(value) {
        return Err(BadCert::Shape(None));
    }
    match value.get("rows").and_then(Value::as_array) {
        Some(items) => all_rows(alloc, items, spaces),
        None => Err(BadCert::Shape(None)),
    }
}

// The rows that items stand for, if there are two for each space.
#[tactic(auto, using(crate::proofs::Items::enough_rows, crate::proofs::Items::other_count))]
fn all_rows(alloc: Global, items: &[Value], spaces: u32) -> Result<Vec<PlainRow>, BadCert>
    requires few { spaces < 2 ^ 31 }
    ensures { GivesSeen (λ rows. rows.items) result (all_rows spaces (Some (items_view items.now))) }
{
    if items.len() as u64 != 2 * u64::from(spaces) {
        return Err(BadCert::Shape(None));
    }
    rows_shape(alloc, items)
}

// It is an object of two keys, of which one is `format`, with the number 1.
fn is_format_1(value: &Value) -> bool
    ensures { result ≡ is_format_1 (view value.now) }
{
    key_count(value) == 2 && value.get("format").and_then(number_of) == Some(1)
}
