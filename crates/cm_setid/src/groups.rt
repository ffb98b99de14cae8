// The call that sets the supplementary groups (setgroups(2)).
ghost use Rattle.std.specs.Prelude.{◌≡◌, option_map, Vec};
ghost use Rattle.cm_base.specs.Outcome.{OrNoMemory, UnchangedOnErr};
ghost use Rattle.cm_base.specs.declared.errno.Errno.{Errno};
ghost use Rattle.cm_base.specs.declared.res.Res.TheVariants.{Err};
ghost use Rattle.model_cred.specs.IdMap.{extents_of};
ghost use Rattle.model_rules.specs.SetGroups.{all_down as model_all_down, setgroups};

use crate::four::down_in;
use crate::gids::has_setgid;
use cm_base::{Errno, Kgid, NoMemory, Res};
use cm_idmap::IdMap;
use cm_state::{Cred, Groups, Space};
use std::alloc::Global;

// The most groups that a process has (setgroups(2), NGROUPS_MAX).
const MOST_GROUPS: usize = 65_536;

/// setgroups(2) in the caller's space: `Done`, and the groups are the set of what the ids are mapped to; or `EPERM`
/// without CAP_SETGID, a written map of group ids and the word "allow"; or then `EINVAL` for more than 65,536 ids, or
/// for one without a mapping (the order is a choice). Where it is refused or memory runs out, the credential is as it
/// was.
pub fn set_groups(alloc: Global, c: &mut Cred, s: &Space, ids: &[u32]) -> Result<Res, NoMemory>
    ensures res { OrNoMemory result (λ r. r ≡ (setgroups s.now c.old ids.now).res) }
    ensures cred { OrNoMemory result (λ _. c.new ≡ (setgroups s.now c.old ids.now).cred) }
    ensures refused { OrNoMemory result (λ r. (e : Errno) → r ≡ Err e → c.new ≡ c.old) }
    ensures unchanged { UnchangedOnErr result c.new c.old }
{
    if !has_setgid(c) || s.gids.is_none() || s.deny {
        return Ok(Res::Err(Errno::EPERM));
    }
    if ids.len() > MOST_GROUPS {
        return Ok(Res::Err(Errno::EINVAL));
    }
    let Some(ids) = all_down(alloc, &s.gids, ids)? else {
        return Ok(Res::Err(Errno::EINVAL));
    };
    c.groups = Groups::make(alloc, &ids)?;
    Ok(Res::Done)
}

// What all the ids are mapped to, None where one has no mapping.
fn all_down(alloc: Global, map: &Option<IdMap>, ids: &[u32]) -> Result<Option<Vec<Kgid>>, NoMemory>
    ensures { OrNoMemory result (λ all. option_map (λ (v : Vec Kgid Global). v.items) all ≡ model_all_down (extents_of map.now) ids.now) }
{
    let mut all = Vec::with_capacity(alloc, ids.len())?;
    for id in ids {
        match down_in(map, *id) {
            Some(id) => all.push(Kgid::of(id))?,
            None => return Ok(None),
        }
    }
    Ok(Some(all))
}
