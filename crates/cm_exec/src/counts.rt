// What of a file counts for a caller: its set-id bits and its attribute (execve(2); user_namespaces(7), "Set-user-ID and
// set-group-ID programs"; capabilities(7), "Namespaced file capabilities").
ghost use Rattle.std.specs.Prelude.{◌≡◌, ◌<◌, ℕ, length};
ghost use Rattle.std.specs.List.{list_any};
ghost use Rattle.cm_exec.specs.Counts.{AreCounts};
ghost use Rattle.model_cred.specs.Credential.{Credential};
ghost use Rattle.model_cred.specs.Space.{Spaces as ModelSpaces, chain, space_of};
ghost use Rattle.model_rules.specs.Exec as exec;
ghost use Rattle.model_rules.specs.FileView as model;
ghost use Rattle.model_rules.specs.Zero.{zero_of};

use crate::permission::is_mapped_file;
use cm_base::{Kuid, SpaceId};
use cm_files::FileView;
use cm_state::{Cred, Spaces};

/// Whether the set-user-ID bit counts, the set-group-ID bit counts, and the attribute takes effect.
#[derive(Clone, Copy)]
pub(crate) struct FilePrivilege {
    pub setuid: bool,
    pub setgid: bool,
    pub attribute: bool,
}

// What counts for a caller in the space `at`.
pub(crate) fn counts_of(spaces: &Spaces, at: SpaceId, c: &Cred, file: &FileView) -> FilePrivilege
    requires { at.0 < length spaces.now }
    ensures { AreCounts spaces.now at.0 c.now file.now result }
{
    FilePrivilege {
        setuid: setuid_counts(spaces, at, c, file),
        setgid: setgid_counts(spaces, at, c, file),
        attribute: attribute_counts(spaces, at, c, file),
    }
}

// The set-user-ID bit counts, for a caller without no_new_privs.
fn setuid_counts(spaces: &Spaces, at: SpaceId, c: &Cred, file: &FileView) -> bool
    requires { at.0 < length spaces.now }
    ensures { result ≡ exec.setuid_counts spaces.now at.0 c.now file.now }
{
    !c.nnp && file.has_bit(0o4000) && allows_set_id(spaces, at, file)
}

// The set-group-ID bit counts alike, with the group execute bit alone (choice).
fn setgid_counts(spaces: &Spaces, at: SpaceId, c: &Cred, file: &FileView) -> bool
    requires { at.0 < length spaces.now }
    ensures { result ≡ exec.setgid_counts spaces.now at.0 c.now file.now }
{
    !c.nnp && file.has_bit(0o2000) && file.has_bit(0o010) && allows_set_id(spaces, at, file)
}

// The attribute takes effect, for a caller without no_new_privs.
fn attribute_counts(spaces: &Spaces, at: SpaceId, c: &Cred, file: &FileView) -> bool
    requires { at.0 < length spaces.now }
    ensures { result ≡ exec.attribute_counts spaces.now at.0 c.now file.now }
{
    !c.nnp && takes_attribute(spaces, at, file)
}

// The file is privileged: its attribute takes effect, or a set-id bit counts (that bits which don't count don't matter is a
// choice).
pub(crate) fn is_privileged(counts: FilePrivilege) -> bool
    ensures { (spaces : ModelSpaces) (at : ℕ) (c : Credential) (file : model.FileView) → AreCounts spaces at c file counts
        → result ≡ exec.is_privileged spaces at c file }
{
    counts.attribute || counts.setuid || counts.setgid
}

// Programs of the file's mount may raise privilege in the space: the mount isn't nosuid, and the space is the mount's or
// below it (choice).
fn may_raise_in(spaces: &Spaces, at: SpaceId, file: &FileView) -> bool
    requires { at.0 < length spaces.now }
    ensures { result ≡ model.may_raise_in spaces.now at.0 file.now }
{
    !file.nosuid && spaces.ancestor(file.space, at)
}

// Set-id bits count in the space: moreover owner and group are both mapped in it.
fn allows_set_id(spaces: &Spaces, at: SpaceId, file: &FileView) -> bool
    requires { at.0 < length spaces.now }
    ensures { result ≡ model.allows_set_id spaces.now at.0 file.now }
{
    may_raise_in(spaces, at, file) && is_mapped_file(spaces.standing(at), file)
}

// The attribute takes effect in the space: there is one, and the space or one above it has the attribute's root id as its
// inside 0.
fn takes_attribute(spaces: &Spaces, at: SpaceId, file: &FileView) -> bool
    requires { at.0 < length spaces.now }
    ensures { result ≡ model.takes_attribute spaces.now at.0 file.now }
{
    file.caps.is_some() && may_raise_in(spaces, at, file) && is_root_above(spaces, at, &file.root)
}

// The id is inside 0 of the space or of one above it: one walk up the chain of the space, from parent to parent.
fn is_root_above(spaces: &Spaces, at: SpaceId, root: &Option<Kuid>) -> bool
    requires { at.0 < length spaces.now }
    ensures { result ≡ list_any (λ m. model.is_same_id root.now (zero_of (space_of spaces.now m))) (chain spaces.now at.0) }
{
    let mut n = at;
    loop {
        let parent = spaces.parent(n);
        if is_same_id(root, spaces.standing(n).zero()) {
            return true;
        }
        match parent {
            Some(parent) => n = parent,
            None => return false,
        }
    }
}

// The two ids are there and are one.
fn is_same_id(root: &Option<Kuid>, zero: Option<u32>) -> bool
    ensures { result ≡ model.is_same_id root.now zero }
{
    match (root, zero) {
        (Some(root), Some(zero)) => root.number() == zero,
        _ => false,
    }
}
