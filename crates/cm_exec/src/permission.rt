// Who may run a file (execve(2); path_resolution(7), "Permissions"; capabilities(7), CAP_DAC_OVERRIDE).
ghost use Rattle.std.specs.Prelude.{◌≡◌, ◌<◌, length};
ghost use Rattle.std.specs.List.{list_any};
ghost use Rattle.model_cred.specs.IdMap.{extents_of, is_the};
ghost use Rattle.model_cred.specs.Space.{space_of};
ghost use Rattle.model_rules.specs.Exec as model;
ghost use Rattle.model_rules.specs.FileView.{is_mapped_file as model_is_mapped_file, is_mapped_id};

use crate::program::{named_file, run_file};
use cm_base::{Cap, FileRef, Kgid, Kuid, SpaceId};
use cm_files::{FileTable, FileView};
use cm_state::{Cred, Groups, Space, Spaces};

/// A process in the space `at` may run the file, and for a script its interpreter too: the mount isn't noexec, and the mode
/// or CAP_DAC_OVERRIDE allows it. It takes no memory.
pub fn may_exec(c: &Cred, spaces: &Spaces, at: SpaceId, files: &FileTable, f: FileRef) -> bool
    requires stands { at.0 < length spaces.now }
    ensures { result ≡ model.may_exec (space_of spaces.now at.0) c.now files.now f }
{
    let s = spaces.standing(at);
    may_run(s, c, &named_file(files, f)) && may_run(s, c, &run_file(files, f))
}

// The caller may run the file.
fn may_run(s: &Space, c: &Cred, file: &FileView) -> bool
    ensures { result ≡ model.may_run s.now c.now file.now }
{
    !file.noexec && (file.has_bit(execute_bit(c, file)) || may_override(s, c, file))
}

// The bit of the mode that counts for the caller: the owner's for the owner, else the group's for a member of the group,
// else that of the others.
fn execute_bit(c: &Cred, file: &FileView) -> u32
    ensures { result ≡ model.execute_bit c.now file.now }
{
    if is_user(&file.owner, c.fsuid) {
        0o100
    } else if is_in_group(c, &file.group) {
        0o010
    } else {
        0o001
    }
}

// The owner is there and is this user.
fn is_user(owner: &Option<Kuid>, id: Kuid) -> bool
    ensures { result ≡ is_the owner.now id }
{
    match owner {
        Some(owner) => id == *owner,
        None => false,
    }
}

// The group is there and is this one.
fn is_group(group: &Option<Kgid>, id: Kgid) -> bool
    ensures { result ≡ is_the group.now id }
{
    match group {
        Some(group) => id == *group,
        None => false,
    }
}

// The group is the fs group id or a supplementary group.
fn is_in_group(c: &Cred, group: &Option<Kgid>) -> bool
    ensures { result ≡ model.is_in_group c.now group.now }
{
    is_group(group, c.fsgid) || has_group(&c.groups, group)
}

// The group is there and is one of these.
#[tactic(auto, using(crate::proofs::NoGroup::none_is))]
fn has_group(groups: &Groups, group: &Option<Kgid>) -> bool
    ensures { result ≡ list_any (is_the group.now) groups.now }
{
    match group {
        Some(group) => groups.has(*group),
        None => false,
    }
}

// CAP_DAC_OVERRIDE allows to run a file that has some execute bit, where owner and group are both mapped in the caller's
// space.
fn may_override(s: &Space, c: &Cred, file: &FileView) -> bool
    ensures { result ≡ model.may_override s.now c.now file.now }
{
    c.eff.holds(Cap::DAC_OVERRIDE) && file.has_bit(0o111) && is_mapped_file(s, file)
}

// Owner and group are both mapped in the space.
pub(crate) fn is_mapped_file(s: &Space, file: &FileView) -> bool
    ensures { result ≡ model_is_mapped_file s.now file.now }
{
    maps_owner(s, &file.owner) && maps_group(s, &file.group)
}

// The owner is there and is mapped in the space.
fn maps_owner(s: &Space, owner: &Option<Kuid>) -> bool
    ensures { result ≡ is_mapped_id (extents_of s.now.uids) owner.now }
{
    match owner {
        Some(id) => s.maps_uid(*id),
        None => false,
    }
}

// The group is there and is mapped in the space.
fn maps_group(s: &Space, group: &Option<Kgid>) -> bool
    ensures { result ≡ is_mapped_id (extents_of s.now.gids) group.now }
{
    match group {
        Some(id) => s.maps_gid(*id),
        None => false,
    }
}
