// A declared mount (mount(2), mount_setattr(2)).
ghost use Rattle.std.specs.Prelude.{All, IfSome};
ghost use Rattle.model_cred.specs.Files.{KeepsMount, KeepsPair};

use crate::Text;
use cm_base::SpaceId;
use cm_idmap::IdMap;
use std::marker::Model;

/// A map of user ids and one of group ids.
#[derive(Debug, Drop)]
pub struct MapPair {
    pub uids: IdMap,
    pub gids: IdMap,
}

impl Model for MapPair {
    ghost use Rattle.model_cred.specs.Files as model;

    ghost Value = { model.MapPair };

    ghost view = { λ m. record { uids = m.uids; gids = m.gids } };
}

/// A mount: its name, the maps of its filesystem, its own maps where it is an idmapped mount, the user namespace that it
/// belongs to, and the flags nosuid and noexec.
#[derive(Debug, Drop)]
pub struct Mount {
    pub name: Text,
    pub fs: MapPair,
    pub map: Option<MapPair>,
    pub space: SpaceId,
    pub nosuid: bool,
    pub noexec: bool,
}

impl Model for Mount {
    ghost use Rattle.model_cred.specs.Files as model;

    ghost Value = { model.Mount };

    ghost view = { λ m. record { name = m.name; fs = m.fs; map = m.map; space = m.space.0; nosuid = m.nosuid; noexec = m.noexec } };
}

// Each mount keeps what a mount keeps. It does nothing but ask for the maps, of which a proof knows from there that they are
// maps.
pub(crate) fn see_mounts(mounts: &[Mount])
    ensures { All KeepsMount mounts.now }
{
    for m in mounts {
        see_mount(m);
    }
}

// The same of one mount.
fn see_mount(m: &Mount)
    ensures { KeepsMount m.now }
{
    see_pair(&m.fs);
    see_optional(&m.map);
}

// The same of the maps of a mount that is idmapped.
fn see_optional(pair: &Option<MapPair>)
    ensures { IfSome pair.now KeepsPair }
{
    if let Some(pair) = pair {
        see_pair(pair);
    }
}

// The same of two maps.
#[tactic(auto, using(model_rules::proofs::Downs::map_has_ids))]
fn see_pair(pair: &MapPair)
    ensures { KeepsPair pair.now }
{
    pair.uids.extents();
    pair.gids.extents();
}
