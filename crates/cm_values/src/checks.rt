// The faults of a row that are alike for all tables: its keys, and the kinds and ranges of its values.
ghost use Rattle.std.specs.Prelude.{◌≡◌, ◌≢◌, option_map, bytes_eq, map, [], ◌∷◌, ◌++◌, true, None, Ok, Err};
ghost use Rattle.std.specs.List.{list_all, list_any};
ghost use Rattle.cm_values.specs.Answers.{Gives};
ghost use Rattle.cm_values.specs.Keys.{kind_of, keys_of, need_of};
ghost use Rattle.model_text.specs.Keys as model;
ghost use Rattle.model_text.specs.Refusal.{Fault, first_standing, unless};
ghost use Rattle.model_text.specs.Toml.{has_only};
ghost use Rattle.toml.specs.Data.{get_member};
ghost use Rattle.toml.specs.View.{view, table_view};

use crate::kinds::is_of;
use crate::values::{has_key, value_at};
use crate::{Key, Kind, Need, RowError};
use cm_base::WorldFault;
use toml::Table;

/// The row's first fault of its keys, or of the kinds and ranges of its values. It takes no memory.
pub fn check_keys(row: &Table, keys: &[Key]) -> Result<(), RowError>
    ensures gives { Gives result (unless (first_standing (model.shape_checks (keys_of keys.now) (table_view row.now)
        ++ model.range_check (keys_of keys.now) (table_view row.now) ∷ [])) tt) }
    ensures no_memory { result ≢ Err RowError.NoMemory }
{
    if is_sound(row, keys) {
        return Ok(());
    }
    if let Some(fault) = shape_fault(row, keys) {
        return Err(RowError::Fault(fault));
    }
    match range_fault(row, keys) {
        Some(fault) => Err(RowError::Fault(fault)),
        None => Ok(()),
    }
}

/// The row has none of these faults. Its values are gone through once: numbers that are in their ranges are of their kinds.
fn is_sound(row: &Table, keys: &[Key]) -> bool
    ensures { result ≡ true → first_standing (model.key_checks (keys_of keys.now) (table_view row.now)) ≡ None }
{
    if !has_only_keys(row, keys) {
        return false;
    }
    if !has_needed(row, keys) {
        return false;
    }
    are_of_kinds(true, row, keys)
}

/// The row's first fault of its keys, or of the kinds of its values.
pub fn shape_fault(row: &Table, keys: &[Key]) -> Option<WorldFault>
    ensures { option_map (λ fault. Fault fault) result ≡ first_standing (model.shape_checks (keys_of keys.now) (table_view row.now)) }
{
    if !has_only_keys(row, keys) {
        return Some(WorldFault::UnknownKey);
    }
    if !has_needed(row, keys) {
        return Some(WorldFault::MissingKey);
    }
    if !are_of_kinds(false, row, keys) {
        return Some(WorldFault::WrongType);
    }
    None
}

/// The fault of a number that is out of its range, where each value is of its kind.
pub fn range_fault(row: &Table, keys: &[Key]) -> Option<WorldFault>
    ensures { option_map (λ fault. Fault fault) result ≡ first_standing (model.range_check (keys_of keys.now) (table_view row.now) ∷ []) }
{
    if are_of_kinds(true, row, keys) {
        None
    } else {
        Some(WorldFault::BadNumber)
    }
}

/// Each key of the row is one of these.
fn has_only_keys(row: &Table, keys: &[Key]) -> bool
    ensures { result ≡ has_only (map (λ k. k.name) (keys_of keys.now)) (table_view row.now) }
{
    row.keys().all(|name| is_key(name.as_str(), keys))
}

/// The name is that of one of these keys.
fn is_key(name: &str, keys: &[Key]) -> bool
    ensures { result ≡ list_any (bytes_eq name.now) (map (λ k. k.name) (keys_of keys.now)) }
{
    for key in keys {
        if name == key.0 {
            return true;
        }
    }
    false
}

/// The row has each key that it must have.
fn has_needed(row: &Table, keys: &[Key]) -> bool
    ensures { result ≡ list_all (model.has_as_needed (table_view row.now)) (keys_of keys.now) }
{
    for key in keys {
        if !has_key(row, key.0) && is_needed(row, key.2) {
            return false;
        }
    }
    true
}

/// A key of that need is one that the row must have.
fn is_needed(row: &Table, need: Need) -> bool
    ensures { result ≡ model.is_needed (need_of need) (table_view row.now) }
{
    match need {
        Need::Required => true,
        Need::Optional => false,
        Need::Beside(other) => has_key(row, other),
    }
}

/// The value at each key that the row has is of the key's kind, and in its range where ranges are asked for too.
fn are_of_kinds(ranged: bool, row: &Table, keys: &[Key]) -> bool
    ensures { result ≡ model.are_of_kinds ranged (keys_of keys.now) (table_view row.now) }
{
    for key in keys {
        if !fits(ranged, row, key.0, key.1) {
            return false;
        }
    }
    true
}

/// The value at the key, if there is one, is of the kind.
fn fits(ranged: bool, row: &Table, name: &str, kind: Kind) -> bool
    ensures { result ≡ model.fits ranged (kind_of kind) (get_member name.now (table_view row.now)) }
{
    match value_at(row, name) {
        Some(value) => is_of(ranged, kind, value),
        None => true,
    }
}
