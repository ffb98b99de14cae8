// The values at the keys of a row, and how many keys an object has.
ghost use Rattle.std.specs.Prelude.{◌≡◌};
ghost use Rattle.cm_cert.specs.Answers.{Gives, GivesSeen};
ghost use Rattle.model_cert.specs.Json.{key_count};
ghost use Rattle.model_cert.specs.Row.{ids_at, caps_at, flag_at};
ghost use Rattle.serde_json.specs.View.{view};

use crate::BadCert;
use crate::caps::set_of;
use crate::ids::ids_of;
use cm_base::CapWord;
use cm_idset::Interval;
use serde_json::Value;
use std::alloc::Global;

// How many keys an object has, 0 for any other value.
pub(crate) fn key_count(v: &Value) -> usize
    ensures { result ≡ key_count (view v.now) }
{
    match v.as_object() {
        Some(members) => members.len(),
        None => 0,
    }
}

// The ids at a key of the row of that number, in whatever order they are.
pub(crate) fn ids_at(
    alloc: Global,
    row: &Value,
    y: u32,
    key: &str,
) -> Result<Vec<Interval>, BadCert>
    ensures { GivesSeen (λ list. list.items) result (ids_at y key.now (view row.now)) }
{
    let Some(v) = row.get(key) else {
        return Err(BadCert::Shape(Some(y)));
    };
    match ids_of(alloc, v)? {
        Some(list) => Ok(list),
        None => Err(BadCert::Shape(Some(y))),
    }
}

// The capabilities at a key.
pub(crate) fn caps_at(alloc: Global, row: &Value, y: u32, key: &str) -> Result<CapWord, BadCert>
    ensures { Gives result (caps_at y key.now (view row.now)) }
{
    let Some(v) = row.get(key) else {
        return Err(BadCert::Shape(Some(y)));
    };
    let Some(text) = v.as_str() else {
        return Err(BadCert::Shape(Some(y)));
    };
    match set_of(alloc, text.as_bytes())? {
        Some(set) => Ok(set),
        None => Err(BadCert::Shape(Some(y))),
    }
}

// The flag at a key.
pub(crate) fn flag_at(row: &Value, y: u32, key: &str) -> Result<bool, BadCert>
    ensures { Gives result (flag_at y key.now (view row.now)) }
{
    match row.get(key).and_then(Value::as_bool) {
        Some(flag) => Ok(flag),
        None => Err(BadCert::Shape(Some(y))),
    }
}
