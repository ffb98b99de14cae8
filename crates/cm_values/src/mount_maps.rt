// The id maps that a mount's row declares: those of its filesystem, and its own (mount_setattr(2)).
ghost use Rattle.std.specs.Prelude.{◌≡◌, false, IfErr, IfOk, OnOk, unwrap_or};
ghost use Rattle.cm_base.specs.Outcome.{OrNoMemory};
ghost use Rattle.cm_base.specs.declared.faults.WorldFault.TheVariants as fault;
ghost use Rattle.cm_values.specs.Answers.{Refuses};
ghost use Rattle.cm_values.specs.MountMaps.{fs_maps, has_bad_map, own_maps};
ghost use Rattle.model_cred.specs.IdMap.{initial_map};
ghost use Rattle.model_text.specs.MountText.{both_maps};
ghost use Rattle.model_text.specs.Refusal.{Fault};
ghost use Rattle.toml.specs.View.{table_view};

use crate::RowError;
use crate::maps::map_at;
use cm_base::NoMemory;
use cm_files::MapPair;
use cm_idmap::IdMap;
use std::alloc::Global;
use toml::Table;

/// The maps of a mount: those of its filesystem, and its own where it has them.
#[derive(Drop)]
pub struct MountMaps {
    pub fs: MapPair,
    pub own: Option<MapPair>,
}

/// The maps that a row declares. BadMap where a list is no map.
pub fn maps_of_row(alloc: Global, row: &Table) -> Result<MountMaps, RowError>
    ensures fs { IfOk result (λ maps. maps.fs ≡ fs_maps (table_view row.now)) }
    ensures own { IfOk result (λ maps. maps.own ≡ own_maps (table_view row.now)) }
    ensures good { OnOk result (has_bad_map (table_view row.now) ≡ false) }
    ensures bad { IfErr result (Refuses (Fault fault.BadMap) (has_bad_map (table_view row.now))) }
{
    let fs_uids = map_at(alloc, row, "fs_uid_map")?;
    let fs_gids = map_at(alloc, row, "fs_gid_map")?;
    let uids = map_at(alloc, row, "uid_map")?;
    let gids = map_at(alloc, row, "gid_map")?;
    let fs = MapPair {
        uids: or_initial(alloc, fs_uids)?,
        gids: or_initial(alloc, fs_gids)?,
    };
    Ok(MountMaps {
        fs,
        own: both(uids, gids),
    })
}

/// The map, or that of the initial user namespace. It fails only where memory runs out.
fn or_initial(alloc: Global, map: Option<IdMap>) -> Result<IdMap, NoMemory>
    ensures { OrNoMemory result (λ made. made ≡ unwrap_or map initial_map) }
{
    match map {
        Some(map) => Ok(map),
        None => IdMap::initial(alloc),
    }
}

/// Two maps, where both are there.
fn both(uids: Option<IdMap>, gids: Option<IdMap>) -> Option<MapPair>
    ensures { result ≡ both_maps uids gids }
{
    let Some(uids) = uids else {
        return None;
    };
    let Some(gids) = gids else {
        return None;
    };
    Some(MapPair { uids, gids })
}
