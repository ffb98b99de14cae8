// Who may write a map, and which ids it may map (user_namespaces(7), "Defining user and group ID mappings: writing to
// uid_map and gid_map").
ghost use Rattle.std.specs.Prelude.{◌≡◌, ◌<◌, length, option_map};
ghost use Rattle.cm_nscalls.specs.File.{file_of};
ghost use Rattle.model_cred.specs.IdMap.{extents_of, lies_in};
ghost use Rattle.model_cred.specs.Space.{space_of};
ghost use Rattle.model_rules.specs.Maps as model;

use crate::file::{MapFile, cap_for, effective_id, map_of};
use cm_base::{Cap, SpaceId};
use cm_idmap::{Extent, IdMap};
use cm_state::{Cred, Space, Spaces};

/// A write: to which file of which space, by a process in the space `at`.
#[derive(Clone, Copy, Debug)]
pub struct Write {
    pub file: MapFile,
    pub at: SpaceId,
    pub target: SpaceId,
}

// The writer may write to the map at all: it isn't written, the writer sits in the target or in its parent, and it has the
// capability over the target.
pub(crate) fn may_write(w: Write, c: &Cred, spaces: &Spaces) -> bool
    requires { w.target.0 < length spaces.now }
    ensures { result ≡ model.may_write (file_of w.file) spaces.now w.at.0 c.now w.target.0 }
{
    let t = spaces.standing(w.target);
    map_of(w.file, t).is_none()
        && (w.at.0 == w.target.0 || t.has_parent(w.at))
        && spaces.over(w.at, c.eff, c.euid, cap_for(w.file), w.target)
}

// That map of the target's parent, None where it isn't written.
pub(crate) fn parent_map(w: Write, spaces: &Spaces) -> Option<&IdMap>
    requires { w.target.0 < length spaces.now }
    ensures { extents_of (option_map (λ m. m.now) result) ≡ model.parent_map (file_of w.file) spaces.now (space_of spaces.now w.target.0) }
{
    let parent = spaces.standing(w.target).parent?;
    map_of(w.file, spaces.get(parent)?).as_ref()
}

// A uid_map that maps the parent's id 0 needs CAP_SETFCAP: a writer in the parent has it over the parent; for one in the
// target its maker had it.
pub(crate) fn setfcap_allows(w: Write, c: &Cred, spaces: &Spaces, list: &[Extent]) -> bool
    requires { w.target.0 < length spaces.now }
    ensures { result ≡ model.setfcap_allows (file_of w.file) spaces.now w.at.0 c.now (space_of spaces.now w.target.0) list.now }
{
    let t = spaces.standing(w.target);
    match w.file {
        MapFile::GidMap => true,
        MapFile::UidMap => {
            if !maps_zero(list) {
                true
            } else if t.has_parent(w.at) {
                over_parent(w, c, spaces, Cap::SETFCAP)
            } else {
                t.creator_setfcap
            }
        }
    }
}

// The writer may map these ids: by its capability over the parent any, else its own alone.
pub(crate) fn may_map(w: Write, c: &Cred, spaces: &Spaces, stored: &[Extent]) -> bool
    requires { w.target.0 < length spaces.now }
    ensures { result ≡ model.may_map (file_of w.file) spaces.now w.at.0 c.now (space_of spaces.now w.target.0) stored.now }
{
    over_parent(w, c, spaces, cap_for(w.file))
        || is_own_map(w.file, c, spaces.standing(w.target), stored)
}

// The writer has the capability over the target's parent.
fn over_parent(w: Write, c: &Cred, spaces: &Spaces, cap: Cap) -> bool
    requires { w.target.0 < length spaces.now }
    ensures { result ≡ model.has_over_parent spaces.now w.at.0 c.now cap (space_of spaces.now w.target.0).parent }
{
    match spaces.standing(w.target).parent {
        Some(parent) => {
            if parent.0 < spaces.count() {
                spaces.over(w.at, c.eff, c.euid, cap, parent)
            } else {
                false
            }
        }
        None => false,
    }
}

// An outside range of the list holds id 0.
fn maps_zero(list: &[Extent]) -> bool
    ensures { result ≡ model.maps_zero list.now }
{
    list.iter().any(holds_zero)
}

// The outside range of the extent holds id 0.
fn holds_zero(e: &Extent) -> bool
    ensures { result ≡ lies_in e.now.outside e.now.length 0 }
{
    e.outside == 0 && e.length > 0
}

// The stored list is the writer's own id alone, its effective user id is the owner's, and the word allows it.
fn is_own_map(file: MapFile, c: &Cred, t: &Space, stored: &[Extent]) -> bool
    ensures { result ≡ model.is_own_map (file_of file) c.now t.now stored.now }
{
    is_single(stored, effective_id(file, c)) && t.owner == c.euid && word_allows(file, t)
}

// The list is one extent of one id, which outside is this one.
fn is_single(list: &[Extent], id: u32) -> bool
    ensures { result ≡ model.is_single list.now id }
{
    match list {
        [e] => e.length == 1 && e.outside == id,
        _ => false,
    }
}

// A gid_map of one id wants the word "deny" in the setgroups file.
fn word_allows(file: MapFile, t: &Space) -> bool
    ensures { result ≡ model.word_allows (file_of file) t.now }
{
    match file {
        MapFile::UidMap => true,
        MapFile::GidMap => t.deny,
    }
}
