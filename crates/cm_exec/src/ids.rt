// The ids after execve (execve(2), "Effect on process attributes"): a set-id bit that counts gives the file's owner or group,
// and the effective id is also the saved and the fs one.
ghost use Rattle.std.specs.Prelude.{◌≡◌, ◌<◌, ℕ};
ghost use Rattle.cm_base.specs.Limits.{id_count};
ghost use Rattle.cm_exec.specs.Counts.{AreCounts};
ghost use Rattle.model_cred.specs.Space.{Spaces};
ghost use Rattle.model_rules.specs.Exec as model;

use crate::counts::FilePrivilege;
use cm_files::FileView;
use cm_state::{Cred, FourIds};

// The user ids: the effective one becomes the file's owner where the set-user-ID bit counts.
pub(crate) fn uids_after(c: &Cred, file: &FileView, counts: FilePrivilege) -> FourIds
    ensures { (spaces : Spaces) (at : ℕ) → AreCounts spaces at c.now file.now counts → result ≡ model.uids_after spaces at c.now file.now }
{
    let effective = match file.owner {
        Some(owner) if counts.setuid => owner,
        _ => c.euid,
    };
    with_effective(c.user_ids(), effective.number())
}

// The group ids: the effective one becomes the file's group where the set-group-ID bit counts.
pub(crate) fn gids_after(c: &Cred, file: &FileView, counts: FilePrivilege) -> FourIds
    ensures { (spaces : Spaces) (at : ℕ) → AreCounts spaces at c.now file.now counts → result ≡ model.gids_after spaces at c.now file.now }
{
    let effective = match file.group {
        Some(group) if counts.setgid => group,
        _ => c.egid,
    };
    with_effective(c.group_ids(), effective.number())
}

// The real id stays, and the effective one is also the saved and the fs one.
fn with_effective(old: FourIds, id: u32) -> FourIds
    requires { id < id_count }
    ensures { result ≡ model.with_effective old id }
{
    FourIds {
        real: old.real,
        effective: id,
        saved: id,
        fs: id,
    }
}
