// User namespaces (user_namespaces(7)), called spaces here. A space tells its parent, its owner, its two maps where they
// are written, and the word in its setgroups file; the spaces as a tree are left to others.
ghost use Rattle.std.specs.Prelude.{◌≡◌};
ghost use Rattle.cm_base.specs.Outcome.{OrNoMemory};

use cm_base::{Kuid, NoMemory, SpaceId};
use cm_idmap::IdMap;
use std::alloc::Global;
use std::marker::Model;

/// A space: its parent, which the initial space alone has not; its owner, the effective user id of the process that
/// made it; the maps of its user and group ids, None where that map isn't written; whether the word in its setgroups
/// file is "deny"; and whether the process that made it had CAP_SETFCAP.
#[derive(Debug, Drop)]
pub struct Space {
    pub parent: Option<SpaceId>,
    pub owner: Kuid,
    pub uids: Option<IdMap>,
    pub gids: Option<IdMap>,
    pub deny: bool,
    pub creator_setfcap: bool,
}

impl Model for Space {
    ghost use Rattle.std.specs.Prelude.{option_map};
    ghost use Rattle.cm_base.specs.declared.id.SpaceId.{SpaceId};
    ghost use Rattle.model_cred.specs.Space as model;

    ghost Value = { model.Space };

    ghost view = { λ s. record {
      parent = option_map (λ (p : SpaceId). p.0) s.parent;
      owner = s.owner;
      uids = s.uids;
      gids = s.gids;
      deny = s.deny;
      creator_setfcap = s.creator_setfcap;
    } };
}

impl Space {
    ghost use Rattle.model_cred.specs.Space.{initial_space};

    /// The initial space: no parent, owner 0, both maps taking each id to itself, setgroups allowed. It fails only
    /// where memory runs out.
    pub fn initial(alloc: Global) -> Result<Space, NoMemory>
        ensures { OrNoMemory result (λ s. s ≡ initial_space) }
    {
        let uids = IdMap::initial(alloc)?;
        let gids = IdMap::initial(alloc)?;
        Ok(Space {
            parent: None,
            owner: Kuid::of(0),
            uids: Some(uids),
            gids: Some(gids),
            deny: false,
            creator_setfcap: false,
        })
    }
    /// The same space. It fails only where memory runs out.
    pub fn copy(&self, alloc: Global) -> Result<Space, NoMemory>
        ensures { OrNoMemory result (λ s. s ≡ self.now) }
    {
        let uids = copy_map(alloc, &self.uids)?;
        let gids = copy_map(alloc, &self.gids)?;
        Ok(Space {
            parent: self.parent,
            owner: self.owner,
            uids,
            gids,
            deny: self.deny,
            creator_setfcap: self.creator_setfcap,
        })
    }
}

// The same map, where it is written.
fn copy_map(alloc: Global, map: &Option<IdMap>) -> Result<Option<IdMap>, NoMemory>
    ensures { OrNoMemory result (λ m. m ≡ map.now) }
{
    match map {
        None => Ok(None),
        Some(map) => {
            let copy = map.copy(alloc)?;
            Ok(Some(copy))
        }
    }
}
