// The filter of calls that a world's text declares.
ghost use Rattle.std.specs.Prelude.{◌≡◌, ◌≢◌, ◌++◌, ◌∷◌, [], Err, map, option_map};
ghost use Rattle.std.specs.String.{string_bytes};
ghost use Rattle.cm_base.specs.Outcome.{OrNoMemory};
ghost use Rattle.cm_base.specs.declared.faults.Table.TheVariants as table;
ghost use Rattle.cm_values.specs.Answers.{Gives};
ghost use Rattle.cm_values.specs.Keys.{keys_of};
ghost use Rattle.cm_world.specs.Answers.{Answers};
ghost use Rattle.cm_world.specs.RowChecks.{filter_excluding};
ghost use Rattle.model_text.specs.FilterText as model;
ghost use Rattle.model_text.specs.Refusal as refusal;
ghost use Rattle.model_text.specs.Toml.{table_of, texts_among};
ghost use Rattle.toml.specs.Data.{item, no_items};
ghost use Rattle.toml.specs.View.{items_view, table_view, view};

use crate::WorldError;
use crate::error::in_row;
use cm_base::{NoMemory, Table as TableName, WorldFault};
use cm_filter::Filter;
use cm_values::{Key, Kind, Need, RowError, items_at, shape_fault};
use std::alloc::Global;
use toml::{Table, Value};

static KEYS: [Key; 1] = [Key("exclude", Kind::Texts, Need::Optional)];

/// The keys of the filter.
fn filter_keys() -> &'static [Key]
    ensures { keys_of result.now ≡ model.filter_keys }
{
    &KEYS
}

/// The filter that a text declares by the value of its key `filter`, or the refusal, which is of row 0. Where there is
/// no value, or one that is no table, it excludes no call.
pub(crate) fn read_filter(alloc: Global, value: Option<&Value>) -> Result<Filter, WorldError>
    ensures { Answers result (refusal.in_row table.Filter 0
        (model.filter_row (table_of (option_map (λ v. view v.now) value.entry)))) }
{
    match value {
        Some(Value::Table(row)) => read_table(alloc, row),
        _ => Ok(Filter::none()),
    }
}

/// The filter that a table declares, or the refusal, of row 0.
fn read_table(alloc: Global, row: &Table) -> Result<Filter, WorldError>
    ensures { Answers result (refusal.in_row table.Filter 0 (model.filter_row (table_view row.now))) }
{
    match filter_of_row(alloc, row) {
        Ok(filter) => Ok(filter),
        Err(e) => Err(in_row(e, TableName::Filter, 0)),
    }
}

/// The filter that a table declares, or why it declares none.
fn filter_of_row(alloc: Global, row: &Table) -> Result<Filter, RowError>
    ensures { Gives result (model.filter_row (table_view row.now)) }
{
    match shape_fault(row, filter_keys()) {
        Some(fault) => Err(RowError::Fault(fault)),
        None => excluding(alloc, items_at(row, "exclude")),
    }
}

/// The filter that excludes the calls that the texts among these values name. NoSuchCall where one names none.
fn excluding(alloc: Global, values: &[Value]) -> Result<Filter, RowError>
    ensures { Gives result (filter_excluding (texts_among (items_view values.now))) }
{
    let names = texts_among(alloc, values)?;
    excluding_named(&names)
}

/// The filter that excludes the calls of these names. NoSuchCall where one names none. It takes no memory.
fn excluding_named(names: &[String]) -> Result<Filter, RowError>
    ensures gives { Gives result (filter_excluding (map string_bytes names.now)) }
    ensures no_memory { result ≢ Err RowError.NoMemory }
{
    match Filter::read(names) {
        Ok(filter) => Ok(filter),
        Err(_) => Err(RowError::Fault(WorldFault::NoSuchCall)),
    }
}

/// The texts among the values. It fails only where memory runs out.
fn texts_among(alloc: Global, values: &[Value]) -> Result<Vec<String>, NoMemory>
    ensures { OrNoMemory result (λ list. map string_bytes list.items ≡ texts_among (items_view values.now)) }
{
    let mut texts = Vec::new(alloc);
    for value in values {
        texts = with_value(alloc, texts, value)?;
    }
    Ok(texts)
}

/// The texts with the value, if it is one. It fails only where memory runs out.
#[tactic(auto, using(crate::proofs::Texts::and_nothing))]
fn with_value(alloc: Global, texts: Vec<String>, value: &Value) -> Result<Vec<String>, NoMemory>
    ensures { OrNoMemory result (λ list. map string_bytes list.items
        ≡ map string_bytes texts.items ++ texts_among (item (view value.now) no_items)) }
{
    match value {
        Value::String(text) => with_text(alloc, texts, text.as_str()),
        _ => Ok(texts),
    }
}

/// The texts with one more. It fails only where memory runs out.
fn with_text(alloc: Global, texts: Vec<String>, text: &str) -> Result<Vec<String>, NoMemory>
    ensures { OrNoMemory result (λ list. map string_bytes list.items
        ≡ map string_bytes texts.items ++ text.now ∷ []) }
{
    let mut texts = texts;
    let text = String::from_str(alloc, text)?;
    texts.push(text)?;
    Ok(texts)
}
