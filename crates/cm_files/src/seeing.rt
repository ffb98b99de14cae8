// What each table of files keeps, handed out of the types that keep it.
ghost use Rattle.model_cred.specs.Files.{KeepsFiles};

use crate::FileTable;

/// What each table keeps, for proofs: its types keep it, so there is nothing to be done. It takes no memory.
pub fn see_files(files: &FileTable)
    ensures { KeepsFiles files.now }
{
    let _ = files.mounts();
}
