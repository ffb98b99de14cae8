// execve(2): what it answers, and the credential that it leaves.
ghost use Rattle.std.specs.Prelude.{◌≡◌, ◌<◌, ℕ, length};
ghost use Rattle.cm_base.specs.declared.errno.Errno.{Errno};
ghost use Rattle.cm_base.specs.declared.res.Res.TheVariants.{Err};
ghost use Rattle.cm_exec.specs.Counts.{AreCounts};
ghost use Rattle.model_cred.specs.Space.{Spaces as ModelSpaces, space_of};
ghost use Rattle.model_rules.specs.Exec as model;

use crate::counts::{FilePrivilege, counts_of, is_privileged};
use crate::ids::{gids_after, uids_after};
use crate::permission::may_exec;
use crate::program::run_file;
use crate::sets::{FileSets, own_sets, put_sets, sets_for, would_lack};
use cm_base::{Errno, FileRef, Res, SpaceId};
use cm_files::{FileTable, FileView};
use cm_state::{Cred, Space, Spaces};

/// execve(2) by a process in the space `at`: `Done`; or `EACCES` where it may not run the file, or then `EPERM` where the
/// program would lack what its file permits (capabilities(7), "Safety checking for capability-dumb binaries"). Done, the ids
/// and the sets are those of execve(2) and capabilities(7), and SECBIT_KEEP_CAPS is cleared; the groups, the other
/// securebits and no_new_privs stay. A refusal leaves the credential as it was. A row that isn't in the table is a plain
/// file, as a path that isn't declared (choice). It takes no memory.
pub fn exec(c: &mut Cred, spaces: &Spaces, at: SpaceId, files: &FileTable, f: FileRef) -> Res
    requires stands { at.0 < length spaces.now }
    ensures res { result ≡ (model.execve files.now spaces.now at.0 c.old f).res }
    ensures cred { c.new ≡ (model.execve files.now spaces.now at.0 c.old f).cred }
    ensures unchanged { (e : Errno) → result ≡ Err e → c.new ≡ c.old }
{
    if !may_exec(c, spaces, at, files, f) {
        return Res::Err(Errno::EACCES);
    }
    let file = run_file(files, f);
    let counts = counts_of(spaces, at, c, &file);
    let own = own_sets(&file, counts);
    if would_lack(c, own) {
        return Res::Err(Errno::EPERM);
    }
    leave(c, spaces.standing(at), &file, counts, own);
    Res::Done
}

// The credential after execve: the ids, the sets, and SECBIT_KEEP_CAPS cleared.
fn leave(c: &mut Cred, s: &Space, file: &FileView, counts: FilePrivilege, own: FileSets)
    ensures { (spaces : ModelSpaces) (at : ℕ) → s.now ≡ space_of spaces at → AreCounts spaces at c.old file.now counts
        → own ≡ model.own_sets spaces at c.old file.now → c.new ≡ model.cred_after spaces at c.old file.now }
{
    let uids = uids_after(c, file, counts);
    let gids = gids_after(c, file, counts);
    let sets = sets_for(s, c, uids, own, counts);
    put_sets(c, sets, is_privileged(counts));
    c.put_user_ids(uids);
    c.put_group_ids(gids);
    c.clear_keep_caps();
}
