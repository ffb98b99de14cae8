// Which of the two maps of a space is written, and what is told apart by that.
ghost use Rattle.std.specs.Prelude.{◌≡◌, ◌<◌, length};
ghost use Rattle.cm_nscalls.specs.File.{file_of};
ghost use Rattle.model_cred.specs.Space.{put_space, space_of};
ghost use Rattle.model_rules.specs.Maps.{map_of as model_map_of, with_map, cap_for as model_cap_for, effective_id as model_effective_id};

use cm_base::{Cap, SpaceId};
use cm_idmap::IdMap;
use cm_state::{Cred, Space, Spaces};

/// The file that is written.
#[derive(Clone, Copy, Debug)]
pub enum MapFile {
    /// The file uid_map.
    UidMap,
    /// The file gid_map.
    GidMap,
}

// That map of a space, where it is written.
pub(crate) fn map_of(file: MapFile, s: &Space) -> &Option<IdMap>
    ensures { result.now ≡ model_map_of (file_of file) s.now }
{
    match file {
        MapFile::UidMap => &s.uids,
        MapFile::GidMap => &s.gids,
    }
}

// The capability that a writer needs.
pub(crate) fn cap_for(file: MapFile) -> Cap
    ensures { result ≡ model_cap_for (file_of file) }
{
    match file {
        MapFile::UidMap => Cap::SETUID,
        MapFile::GidMap => Cap::SETGID,
    }
}

// The writer's effective user or group id.
pub(crate) fn effective_id(file: MapFile, c: &Cred) -> u32
    ensures { result ≡ model_effective_id (file_of file) c.now }
{
    match file {
        MapFile::UidMap => c.euid.number(),
        MapFile::GidMap => c.egid.number(),
    }
}

/// Writes that map of a space that stands. It takes no memory.
pub fn set_map(file: MapFile, spaces: &mut Spaces, s: SpaceId, map: IdMap)
    requires { s.0 < length spaces.old }
    ensures { spaces.new ≡ put_space s.0 (with_map (file_of file) (space_of spaces.old s.0) map) spaces.old }
{
    match file {
        MapFile::UidMap => spaces.set_uids(s, map),
        MapFile::GidMap => spaces.set_gids(s, map),
    }
}
