// A file as its mount shows it ("Idmappings" of the kernel's documentation, mount_setattr(2)).
ghost use Rattle.std.specs.Prelude.{◌≡◌, ◌<◌, IfSome, option_map};
ghost use Rattle.cm_base.specs.Limits.{id_count};
ghost use Rattle.model_cred.specs.Files.{KeepsCaps, KeepsRow};
ghost use Rattle.model_rules.specs.FileView as model;

use crate::{FileRow, Mount};
use cm_base::{Kgid, Kuid, SpaceId};
use cm_idmap::IdMap;
use cm_vfscap::FileCaps;
use std::marker::Model;

/// What counts of a file and its mount: owner, group and the attribute's root id as the initial user namespace sees them,
/// each None where it has no image through the mount's maps; the mode bits; the attribute; the flags of the mount and the
/// namespace that it belongs to.
#[derive(Clone, Copy, Debug, PartialEq, Eq)]
pub struct FileView {
    pub owner: Option<Kuid>,
    pub group: Option<Kgid>,
    pub root: Option<Kuid>,
    pub mode: u32,
    pub caps: Option<FileCaps>,
    pub nosuid: bool,
    pub noexec: bool,
    pub space: SpaceId,
}

impl Model for FileView {
    ghost use Rattle.model_rules.specs.FileView as model;

    ghost Value = { model.FileView };

    ghost view = { λ v. record {
      owner = v.owner;
      group = v.group;
      root = v.root;
      mode = v.mode;
      caps = v.caps;
      nosuid = v.nosuid;
      noexec = v.noexec;
      space = v.space.0;
    } };

    ghost inverse = { λ v. record {
      owner = v.owner;
      group = v.group;
      root = v.root;
      mode = v.mode;
      caps = v.caps;
      nosuid = v.nosuid;
      noexec = v.noexec;
      space = record { 0 = v.space };
    } };
}

impl FileView {
    /// A file that isn't declared: no owner, no set-id bit, no attribute, executable by everyone (choice).
    pub fn plain() -> FileView
        ensures { result ≡ model.plain_view }
    {
        FileView {
            owner: None,
            group: None,
            root: None,
            mode: 0o111,
            caps: None,
            nosuid: false,
            noexec: false,
            space: SpaceId(0),
        }
    }

    /// One of these mode bits is set; of several, it needn't be all (inode(7)).
    pub fn has_bit(&self, bits: u32) -> bool
        ensures { result ≡ model.has_bit self.now bits }
    {
        self.mode & bits != 0
    }
}

// The row as its mount shows it.
pub(crate) fn view_on(m: &Mount, row: &FileRow) -> FileView
    ensures view { result ≡ model.view_on m.now row.now }
    ensures keeps { KeepsRow row.now }
{
    FileView {
        owner: user(id_on(&m.fs.uids, uids_of(m), row.uid.number())),
        group: group(id_on(&m.fs.gids, gids_of(m), row.gid.number())),
        root: user(attribute_root(m, &row.caps)),
        mode: row.mode,
        caps: row.caps,
        nosuid: m.nosuid,
        noexec: m.noexec,
        space: m.space,
    }
}

// The mount's own map of user ids, where it is idmapped.
fn uids_of(m: &Mount) -> Option<&IdMap>
    ensures { option_map (λ map. map.now) result ≡ model.mount_uids m.now }
{
    match &m.map {
        Some(map) => Some(&map.uids),
        None => None,
    }
}

// The mount's own map of group ids, where it is idmapped.
fn gids_of(m: &Mount) -> Option<&IdMap>
    ensures { option_map (λ map. map.now) result ≡ model.mount_gids m.now }
{
    match &m.map {
        Some(map) => Some(&map.gids),
        None => None,
    }
}

// An id of a file: that of the filesystem, or on an idmapped mount taken up through the filesystem's map and down through
// the mount's.
fn id_on(fs: &IdMap, map: Option<&IdMap>, id: u32) -> Option<u32>
    requires { id < id_count }
    ensures image { result ≡ model.id_on fs.now (option_map (λ m. m.now) map.entry) id }
    ensures is_id { IfSome result (λ id. id < id_count) }
{
    match map {
        Some(map) => map.down(fs.up(id)?),
        None => Some(id),
    }
}

// The attribute's root id: taken down through the filesystem's map, and on an idmapped mount through the mount's, if it has
// an image through the filesystem's too.
fn root_on(fs: &IdMap, map: Option<&IdMap>, id: u32) -> Option<u32>
    ensures image { result ≡ model.root_on fs.now (option_map (λ m. m.now) map.entry) id }
    ensures is_id { IfSome result (λ id. id < id_count) }
{
    let root = fs.down(id)?;
    match map {
        Some(map) => map.down(id),
        None => Some(root),
    }
}

// The root id of an optional attribute on a mount.
fn attribute_root(m: &Mount, caps: &Option<FileCaps>) -> Option<u32>
    ensures root { result ≡ model.attribute_root m.now caps.now }
    ensures is_id { IfSome result (λ id. id < id_count) }
    ensures keeps { IfSome caps.now KeepsCaps }
{
    match caps {
        Some(caps) => {
            see_sets(caps);
            root_on(&m.fs.uids, uids_of(m), caps.root)
        }
        None => None,
    }
}

// The sets of an attribute are sets of capabilities. It does nothing but ask for their bits, whose range a proof knows from
// there.
fn see_sets(caps: &FileCaps)
    ensures { KeepsCaps caps.now }
{
    caps.permitted.bits();
    caps.inheritable.bits();
}

// The user id of a number.
fn user(id: Option<u32>) -> Option<Kuid>
    requires { IfSome id (λ id. id < id_count) }
    ensures { result ≡ id }
{
    match id {
        Some(id) => Some(Kuid::of(id)),
        None => None,
    }
}

// The group id of a number.
fn group(id: Option<u32>) -> Option<Kgid>
    requires { IfSome id (λ id. id < id_count) }
    ensures { result ≡ id }
{
    match id {
        Some(id) => Some(Kgid::of(id)),
        None => None,
    }
}
