// The ids that a row declares: the four of a user or a group, and the supplementary groups (credentials(7)). Whether
// the four are of users or of groups shows where the credential is made.
ghost use Rattle.std.specs.Prelude.{◌≡◌, ◌<◌, codes};
ghost use Rattle.cm_base.specs.Limits.{id_count};
ghost use Rattle.cm_base.specs.Outcome.{OrNoMemory};
ghost use Rattle.model_cred.specs.Credential.{id_set};
ghost use Rattle.model_text.specs.ProcessText.{four_of, id_of, ids_listed, ids_of};
ghost use Rattle.model_text.specs.Toml.{array_items};
ghost use Rattle.toml.specs.Data.{get_member};
ghost use Rattle.toml.specs.View.{items_view, table_view, view};

use crate::{LAST_ID, items_at, number_from, value_at};
use cm_base::{Kgid, NoMemory};
use cm_state::{FourIds, Groups};
use std::alloc::Global;
use toml::{Table, Value};

/// The four ids that a row declares at the key: one id for all, or an array of four; 0 where it declares none.
pub fn ids_at(row: &Table, key: &str) -> FourIds
    ensures { result ≡ ids_of (get_member key.now (table_view row.now)) }
{
    match value_at(row, key) {
        None => FourIds::all(0),
        Some(Value::Array(ids)) => four_of(ids),
        Some(value) => FourIds::all(id_of(value)),
    }
}

/// The ids of an array of four; 0 where it is of another length.
fn four_of(ids: &[Value]) -> FourIds
    ensures { result ≡ four_of (items_view ids.now) }
{
    if ids.len() != 4 {
        return FourIds::all(0);
    }
    FourIds {
        real: id_of(&ids[0]),
        effective: id_of(&ids[1]),
        saved: id_of(&ids[2]),
        fs: id_of(&ids[3]),
    }
}

/// The set of the groups that a row declares. It fails only where memory runs out.
pub fn groups_of(alloc: Global, row: &Table) -> Result<Groups, NoMemory>
    ensures { OrNoMemory result (λ groups.
        groups ≡ id_set (ids_listed (array_items (get_member (codes "groups") (table_view row.now))))) }
{
    let list = groups_listed(alloc, items_at(row, "groups"))?;
    Groups::make(alloc, &list)
}

/// The groups of an array, one by one. It fails only where memory runs out.
fn groups_listed(alloc: Global, values: &[Value]) -> Result<Vec<Kgid>, NoMemory>
    ensures { OrNoMemory result (λ list. list.items ≡ ids_listed (items_view values.now)) }
{
    let mut list = Vec::with_capacity(alloc, values.len())?;
    for value in values {
        list.push(Kgid::of(id_of(value)))?;
    }
    Ok(list)
}

/// An id, 0 for a value that is none.
fn id_of(value: &Value) -> u32
    ensures value { result ≡ id_of (view value.now) }
    ensures range { result < id_count }
{
    match number_from(value, 0, LAST_ID) {
        Some(id) => id,
        None => 0,
    }
}
