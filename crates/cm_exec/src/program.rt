// Which file runs (execve(2), "Interpreter scripts"). A row that isn't in the table is a plain file, as a path that isn't
// declared (choice).
ghost use Rattle.std.specs.Prelude.{◌≡◌, nat_lt, length};
ghost use Rattle.model_rules.specs.Exec.{named_file as model_named_file, run_file as model_run_file};

use cm_base::FileRef;
use cm_files::{FileTable, FileView};

// The file that is named.
pub(crate) fn named_file(files: &FileTable, f: FileRef) -> FileView
    ensures { result ≡ model_named_file files.now f }
{
    match f {
        FileRef::Row(row) if is_declared(files, row) => files.view(row),
        _ => FileView::plain(),
    }
}

// The file that runs: for a script its interpreter, whose own bits and attribute count; else the file that is named.
pub(crate) fn run_file(files: &FileTable, f: FileRef) -> FileView
    ensures { result ≡ model_run_file files.now f }
{
    match f {
        FileRef::Row(row) if is_declared(files, row) => files.view(files.program(row)),
        _ => FileView::plain(),
    }
}

// The row is in the table.
fn is_declared(files: &FileTable, row: u32) -> bool
    ensures { result ≡ nat_lt row (length files.now.rows) }
{
    (row as usize) < files.rows().len()
}
