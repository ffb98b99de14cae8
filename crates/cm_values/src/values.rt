// The values at the keys of a table. What is asked of a value that isn't there, or is of another kind, has the answer that
// the definition gives; its faults are told in `checks`.
ghost use Rattle.std.specs.Prelude.{◌≡◌, map, option_map, IfSome, ◌≤◌, ◌<◌, unwrap_or};
ghost use Rattle.toml.specs.Data.{get_member};
ghost use Rattle.toml.specs.View.{view, table_view, items_view};
ghost use Rattle.model_text.specs.Toml.{array_items, flag_of, has_key, is_text, number_from, number_of, text_of, text_or, number_or};

use toml::{Table, Value};

/// The value at the key.
pub fn value_at<'a>(table: &'a Table, key: &str) -> Option<&'a Value>
    ensures { option_map (λ v. view v.now) result ≡ get_member key.now (table_view table.now) }
{
    table.get(key)
}

/// The table has the key.
pub fn has_key(table: &Table, key: &str) -> bool
    ensures { result ≡ has_key key.now (table_view table.now) }
{
    value_at(table, key).is_some()
}

/// The text at the key, if there is one.
pub fn text_at<'a>(table: &'a Table, key: &str) -> Option<&'a str>
    ensures { option_map (λ text. text.now) result ≡ text_of (get_member key.now (table_view table.now)) }
{
    match value_at(table, key) {
        Some(Value::String(text)) => Some(text.as_str()),
        _ => None,
    }
}

/// The text at the key, or the default.
pub fn text_or<'a>(table: &'a Table, key: &str, default: &'a str) -> &'a str
    ensures { result.now ≡ text_or default.now key.now (table_view table.now) }
{
    match text_at(table, key) {
        Some(text) => text,
        None => default,
    }
}

/// The flag at the key, false where there is none.
pub fn flag_at(table: &Table, key: &str) -> bool
    ensures { result ≡ flag_of (get_member key.now (table_view table.now)) }
{
    match value_at(table, key) {
        Some(Value::Boolean(flag)) => *flag,
        _ => false,
    }
}

/// The items of the array at the key, none where there is no array.
pub fn items_at<'a>(table: &'a Table, key: &str) -> &'a [Value]
    ensures { items_view result.now ≡ array_items (get_member key.now (table_view table.now)) }
{
    match value_at(table, key) {
        Some(Value::Array(values)) => values.as_slice(),
        _ => &[],
    }
}

/// The value, where it is a whole number from the first to the second one.
pub fn number_from(value: &Value, low: u32, high: u32) -> Option<u32>
    ensures value { result ≡ number_from low high (view value.now) }
    ensures range { IfSome result (λ n. (low ≤ n) × (n ≤ high)) }
{
    match value {
        Value::Integer(n) if low as i64 <= *n && *n <= high as i64 => Some(*n as u32),
        _ => None,
    }
}

/// The number at the key, where there is one from the first to the second one.
pub fn number_at(table: &Table, key: &str, low: u32, high: u32) -> Option<u32>
    ensures value { result ≡ number_of low high (get_member key.now (table_view table.now)) }
    ensures range { IfSome result (λ n. (low ≤ n) × (n ≤ high)) }
{
    number_from(value_at(table, key)?, low, high)
}

/// The same number, or the default.
pub fn number_or(table: &Table, key: &str, low: u32, high: u32, default: u32) -> u32
    requires { (low ≤ default) × (default ≤ high) }
    ensures value { result ≡ number_or low high default key.now (table_view table.now) }
    ensures range { (low ≤ result) × (result ≤ high) }
{
    match number_at(table, key, low, high) {
        Some(number) => number,
        None => default,
    }
}

/// The value at the key is this text.
pub fn is_text_at(table: &Table, key: &str, text: &str) -> bool
    ensures { result ≡ is_text text.now (get_member key.now (table_view table.now)) }
{
    match value_at(table, key) {
        Some(Value::String(s)) => s.as_str() == text,
        _ => false,
    }
}
