// Which values are of a kind; and, where ranges are asked for too, whether each number of a value is in its range.
ghost use Rattle.std.specs.Prelude.{◌≡◌, ◌==◌, ◌&&◌, map, Some};
ghost use Rattle.std.specs.List.{list_any};
ghost use Rattle.cm_base.specs.Limits.{greatest_number};
ghost use Rattle.toml.specs.View.{view, items_view};
ghost use Rattle.model_text.specs.Keys as model;
ghost use Rattle.model_text.specs.Toml.{all_items, count as model_count, is_text};
ghost use Rattle.cm_values.specs.Keys.{kind_of};

use crate::Kind;
use crate::values::number_from;
use toml::Value;

/// The last id (user_namespaces(7)).
pub const LAST_ID: u32 = 4_294_967_294;

/// The value is of the kind.
pub(crate) fn is_of(ranged: bool, kind: Kind, value: &Value) -> bool
    ensures { result ≡ model.is_of ranged (kind_of kind) (view value.now) }
{
    match kind {
        Kind::Text => is_string(value),
        Kind::Word(words) => is_word(words, value),
        Kind::Flag => is_flag(value),
        Kind::Number { low, high } => is_number(ranged, low, high, value),
        Kind::Ids => is_number(ranged, 0, LAST_ID, value)
            || is_list_of_numbers(ranged, 4, LAST_ID, value),
        Kind::Groups => is_array_of_ids(ranged, value),
        Kind::Extents => is_array_of_extents(ranged, value),
        Kind::Texts => is_array_of_texts(value),
        Kind::Rows => is_array(value),
        Kind::Section => is_table(value),
    }
}

/// A text.
fn is_string(value: &Value) -> bool
    ensures { result ≡ model.is_string (view value.now) }
{
    match value {
        Value::String(_) => true,
        _ => false,
    }
}

/// One of these texts.
fn is_word(words: &[&str], value: &Value) -> bool
    ensures { result ≡ list_any (λ word. is_text word (Some (view value.now))) (map (λ word. word.now) words.now) }
{
    for word in words {
        if is_the_word(word, value) {
            return true;
        }
    }
    false
}

/// This text.
fn is_the_word(word: &str, value: &Value) -> bool
    ensures { result ≡ is_text word.now (Some (view value.now)) }
{
    match value {
        Value::String(text) => text.as_str() == word,
        _ => false,
    }
}

/// A boolean.
fn is_flag(value: &Value) -> bool
    ensures { result ≡ model.is_flag (view value.now) }
{
    match value {
        Value::Boolean(_) => true,
        _ => false,
    }
}

/// A table.
fn is_table(value: &Value) -> bool
    ensures { result ≡ model.is_table (view value.now) }
{
    match value {
        Value::Table(_) => true,
        _ => false,
    }
}

/// An array.
fn is_array(value: &Value) -> bool
    ensures { result ≡ model.is_array (view value.now) }
{
    match value {
        Value::Array(_) => true,
        _ => false,
    }
}

/// A whole number; where ranges are asked for too, one from the first to the second.
fn is_number(ranged: bool, low: u32, high: u32, value: &Value) -> bool
    ensures { result ≡ model.is_number ranged low high (view value.now) }
{
    match value {
        Value::Integer(_) => !ranged || number_from(value, low, high).is_some(),
        _ => false,
    }
}

/// Each of the values is such a number, from 0 on.
fn are_numbers(ranged: bool, high: u32, values: &[Value]) -> bool
    ensures { result ≡ all_items (model.is_number ranged 0 high) (items_view values.now) }
{
    for value in values {
        if !is_number(ranged, 0, high, value) {
            return false;
        }
    }
    true
}

/// An array of so many such numbers.
fn is_list_of_numbers(ranged: bool, count: usize, high: u32, value: &Value) -> bool
    ensures { result ≡ model.is_list_of count (model.is_number ranged 0 high) (view value.now) }
{
    match value {
        Value::Array(values) => are_numbers_so_many(ranged, count, high, values),
        _ => false,
    }
}

/// So many such numbers.
#[tactic(auto, using(crate::proofs::Members::count_items))]
fn are_numbers_so_many(ranged: bool, count: usize, high: u32, values: &[Value]) -> bool
    ensures { result ≡ (model_count (items_view values.now) == count && all_items (model.is_number ranged 0 high) (items_view values.now)) }
{
    values.len() == count && are_numbers(ranged, high, values)
}

/// An array of ids.
fn is_array_of_ids(ranged: bool, value: &Value) -> bool
    ensures { result ≡ model.is_array_of (model.is_number ranged 0 LAST_ID) (view value.now) }
{
    match value {
        Value::Array(values) => are_numbers(ranged, LAST_ID, values),
        _ => false,
    }
}

/// An array of extents.
fn is_array_of_extents(ranged: bool, value: &Value) -> bool
    ensures { result ≡ model.is_array_of (model.is_list_of 3 (model.is_number ranged 0 greatest_number)) (view value.now) }
{
    match value {
        Value::Array(values) => are_extents(ranged, values),
        _ => false,
    }
}

/// Each of the values is an array of three numbers.
fn are_extents(ranged: bool, values: &[Value]) -> bool
    ensures { result ≡ all_items (model.is_list_of 3 (model.is_number ranged 0 greatest_number)) (items_view values.now) }
{
    for value in values {
        if !is_list_of_numbers(ranged, 3, u32::MAX, value) {
            return false;
        }
    }
    true
}

/// An array of texts.
fn is_array_of_texts(value: &Value) -> bool
    ensures { result ≡ model.is_array_of model.is_string (view value.now) }
{
    match value {
        Value::Array(values) => are_texts(values),
        _ => false,
    }
}

/// Each of the values is a text.
fn are_texts(values: &[Value]) -> bool
    ensures { result ≡ all_items model.is_string (items_view values.now) }
{
    for value in values {
        if !is_string(value) {
            return false;
        }
    }
    true
}
