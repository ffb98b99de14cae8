// The id maps that a row declares (user_namespaces(7)).
ghost use Rattle.std.specs.Prelude.{◌≡◌, false, true, Some, IfErr, IfOk, OnOk, is_none, option_map};
ghost use Rattle.cm_base.specs.declared.faults.WorldFault.TheVariants.{BadMap, NotMapped};
ghost use Rattle.cm_values.specs.Answers.{Refuses};
ghost use Rattle.model_text.specs.MapText.{is_bad_map, map_at, stored_under};
ghost use Rattle.model_text.specs.Refusal.{Fault};
ghost use Rattle.toml.specs.View.{table_view};

use crate::{RowError, extents_at};
use cm_base::WorldFault;
use cm_idmap::{BadMap, Extent, IdMap};
use std::alloc::Global;
use toml::Table;

/// The map that a row declares at the key, if it declares one. BadMap where the list is no map.
pub fn map_at(alloc: Global, row: &Table, key: &str) -> Result<Option<IdMap>, RowError>
    ensures map { IfOk result (λ m. m ≡ map_at key.now (table_view row.now)) }
    ensures good { OnOk result (is_bad_map (map_at key.now (table_view row.now)) ≡ false) }
    ensures bad { IfErr result (Refuses (Fault WorldFault.BadMap) (is_bad_map (map_at key.now (table_view row.now)))) }
{
    match extents_at(alloc, row, key)? {
        Some(list) => Ok(Some(map_of(alloc, &list)?)),
        None => Ok(None),
    }
}

/// The map of a list. BadMap where it is none.
fn map_of(alloc: Global, list: &[Extent]) -> Result<IdMap, RowError>
    ensures map { IfOk result (λ m. m ≡ list.now) }
    ensures good { OnOk result (is_bad_map (Some list.now) ≡ false) }
    ensures bad { IfErr result (Refuses (Fault WorldFault.BadMap) (is_bad_map (Some list.now))) }
{
    match IdMap::make(alloc, list) {
        Ok(map) => Ok(map),
        Err(fault) => match fault {
            BadMap::NoMemory => Err(RowError::NoMemory),
            _ => Err(RowError::Fault(WorldFault::BadMap)),
        },
    }
}

/// What is stored of the map that a space declares: it is taken down through its parent's. NotMapped where an extent doesn't
/// lie in one extent of that.
pub fn stored_under(
    alloc: Global,
    parent: Option<&IdMap>,
    map: Option<IdMap>,
) -> Result<Option<IdMap>, RowError>
    ensures stored { IfOk result (λ m. stored_under (option_map (λ p. p.now) parent.entry) map ≡ Some m) }
    ensures refused { IfErr result (Refuses (Fault WorldFault.NotMapped) (is_none (stored_under (option_map (λ p. p.now) parent.entry) map))) }
{
    match map {
        Some(map) => match map.under(alloc, parent)? {
            Some(stored) => Ok(Some(stored)),
            None => Err(RowError::Fault(WorldFault::NotMapped)),
        },
        None => Ok(None),
    }
}
