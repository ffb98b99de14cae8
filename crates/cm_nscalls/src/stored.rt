// A list that is written, as a map.
ghost use Rattle.std.specs.Prelude.{◌≡◌, IfSome, is_some};
ghost use Rattle.cm_base.specs.Outcome.{OrNoMemory};
ghost use Rattle.model_cred.specs.MapFault.{is_map};

use cm_base::NoMemory;
use cm_idmap::{BadMap, Extent, IdMap};
use std::alloc::Global;

// The list as a map, None where it is none.
pub(crate) fn map_from(alloc: Global, list: &[Extent]) -> Result<Option<IdMap>, NoMemory>
    ensures map { OrNoMemory result (λ m. IfSome m (λ map. map ≡ list.now)) }
    ensures some { OrNoMemory result (λ m. is_some m ≡ is_map list.now) }
{
    match IdMap::make(alloc, list) {
        Ok(map) => Ok(Some(map)),
        Err(fault) => match fault {
            BadMap::NoMemory => Err(NoMemory),
            _ => Ok(None),
        },
    }
}
