// Sets of ids as arrays of intervals, and intervals as arrays of two numbers.
ghost use Rattle.std.specs.Prelude.{◌≡◌, map, option_map};
ghost use Rattle.cm_base.specs.Outcome.{OrNoMemory};
ghost use Rattle.model_cert.specs.Json.{number_of};
ghost use Rattle.model_cert.specs.Sets.{interval_of, intervals_of, ids_of, two_ends};
ghost use Rattle.model_cert.specs.Written.{interval_data, ids_data};
ghost use Rattle.serde_json.specs.View.{view, items_view};

use cm_base::NoMemory;
use cm_idset::{IdSet, Interval};
use serde_json::Value;
use std::alloc::Global;

// A whole number from 0 to 4294967295 that is written in digits alone.
pub(crate) fn number_of(v: &Value) -> Option<u32>
    ensures { result ≡ number_of (view v.now) }
{
    let n = v.as_u64()?;
    u32::try_from(n).ok()
}

// An interval, whether its ends are in order or not.
fn interval_of(v: &Value) -> Option<Interval>
    ensures { result ≡ interval_of (view v.now) }
{
    two_ends(v.as_array()?)
}

// The interval with these two ends.
#[tactic(auto, using(crate::proofs::Items::not_two))]
fn two_ends(items: &[Value]) -> Option<Interval>
    ensures { result ≡ two_ends (items_view items.now) }
{
    match items {
        [first, last] => {
            let first = number_of(first)?;
            let last = number_of(last)?;
            Some(Interval { first, last })
        }
        _ => None,
    }
}

// The intervals of an array, in whatever order they are.
pub(crate) fn ids_of(alloc: Global, v: &Value) -> Result<Option<Vec<Interval>>, NoMemory>
    ensures { OrNoMemory result (λ o. option_map (λ list. list.items) o ≡ ids_of (view v.now)) }
{
    match v.as_array() {
        Some(items) => intervals_of(alloc, items),
        None => Ok(None),
    }
}

// The intervals that items stand for.
fn intervals_of(alloc: Global, items: &[Value]) -> Result<Option<Vec<Interval>>, NoMemory>
    ensures { OrNoMemory result (λ o. option_map (λ list. list.items) o ≡ intervals_of (items_view items.now)) }
{
    let mut list = Vec::with_capacity(alloc, items.len())?;
    for item in items {
        match interval_of(item) {
            Some(ids) => list.push(ids)?,
            None => return Ok(None),
        }
    }
    Ok(Some(list))
}

// A set of ids as a value. Its only error is out of memory.
pub(crate) fn ids_value(alloc: Global, set: &IdSet) -> Result<Value, NoMemory>
    ensures { OrNoMemory result (λ v. view v ≡ ids_data set.now) }
{
    let items = interval_values(alloc, set.intervals())?;
    Ok(Value::from(items))
}

// Each interval.
fn interval_values(alloc: Global, list: &[Interval]) -> Result<Vec<Value>, NoMemory>
    ensures { OrNoMemory result (λ items. map view items.items ≡ map interval_data list.now) }
{
    let mut items = Vec::with_capacity(alloc, list.len())?;
    for ids in list {
        let value = interval_value(alloc, ids)?;
        items.push(value)?;
    }
    Ok(items)
}

// One interval.
fn interval_value(alloc: Global, ids: &Interval) -> Result<Value, NoMemory>
    ensures { OrNoMemory result (λ v. view v ≡ interval_data ids.now) }
{
    let mut ends = Vec::with_capacity(alloc, 2)?;
    ends.push(Value::from(ids.first))?;
    ends.push(Value::from(ids.last))?;
    Ok(Value::from(ends))
}
