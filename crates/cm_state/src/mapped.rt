// What the maps of a space make of ids (user_namespaces(7), "User and group ID mappings: uid_map and gid_map"). A map that
// isn't written maps nothing.
ghost use Rattle.std.specs.Prelude.{◌≡◌, ◌<◌, IfSome};
ghost use Rattle.cm_base.specs.Limits.{id_count};
ghost use Rattle.model_cred.specs.IdMap.{extents_of, is_outside as model_is_outside};
ghost use Rattle.model_rules.specs.Zero.{zero_of, is_zero};

use crate::Space;
use cm_base::{Kgid, Kuid};
use cm_idmap::IdMap;

impl Space {
    /// Inside 0: the user id to which the space's map takes 0, None where it takes it to none. It takes no memory.
    #[inline]
    pub fn zero(&self) -> Option<u32>
        ensures image { result ≡ zero_of self.now }
        ensures is_id { IfSome result (λ id. id < id_count) }
    {
        match &self.uids {
            Some(map) => map.down(0),
            None => None,
        }
    }

    /// The user id is inside 0. It takes no memory.
    #[inline]
    pub fn is_zero(&self, id: u32) -> bool
        ensures { result ≡ is_zero self.now id }
    {
        match self.zero() {
            Some(zero) => id == zero,
            None => false,
        }
    }

    /// The user id has a mapping in the space. It takes no memory.
    pub fn maps_uid(&self, id: Kuid) -> bool
        ensures { result ≡ model_is_outside (extents_of self.now.uids) id }
    {
        is_outside(&self.uids, id.number())
    }

    /// The group id has a mapping in the space. It takes no memory.
    pub fn maps_gid(&self, id: Kgid) -> bool
        ensures { result ≡ model_is_outside (extents_of self.now.gids) id }
    {
        is_outside(&self.gids, id.number())
    }
}

// The id is an outside id of the map, where it is written.
#[tactic(auto, using(crate::proofs::Outsides::up_outside))]
fn is_outside(map: &Option<IdMap>, id: u32) -> bool
    ensures { result ≡ model_is_outside (extents_of map.now) id }
{
    match map {
        Some(map) => map.up(id).is_some(),
        None => false,
    }
}
