// Files in script lines: a path, or `-` for the plain file.
ghost use Rattle.std.specs.Prelude.{◌≡◌, option_map, slice_get};
ghost use Rattle.cm_base.specs.Outcome.{OrNoMemory};
ghost use Rattle.cm_tokens.specs.Pieces.{Appends};
ghost use Rattle.cm_script.specs.Paths.{declared_path};
ghost use Rattle.model_text.specs.Token.{file_text, file_token};

use cm_base::{FileRef, NoMemory};
use cm_files::{FileRow, FileTable};
use cm_tokens::{is_path, put};

/// The file that a token stands for: the plain one for `-`, and for a path that isn't declared. None exactly where the token
/// is neither `-` nor a path.
pub(crate) fn read_file(token: &[u8], files: &FileTable) -> Option<FileRef>
    ensures { result ≡ file_token files.now token.now }
{
    if token == b"-".as_slice() {
        return Some(FileRef::Plain);
    }
    if is_path(token) {
        Some(files.find(token))
    } else {
        None
    }
}

/// The path of a file; `-` for the plain one, and for a row that the table doesn't have.
pub(crate) fn put_file(text: &mut Vec<u8>, file: FileRef, files: &FileTable) -> Result<(), NoMemory>
    ensures { OrNoMemory result (λ _. Appends text.old.items text.new.items (file_text files.now file)) }
{
    match path_of(files, file) {
        Some(path) => put(text, path),
        None => put(text, b"-"),
    }
}

// The path of a file that is in the table.
fn path_of(files: &FileTable, file: FileRef) -> Option<&[u8]>
    ensures { option_map (λ path. path.now) result ≡ declared_path files.now.rows file }
{
    match file {
        FileRef::Row(n) => path_at(files.rows(), n as usize),
        FileRef::Plain => None,
    }
}

// The path of the row at a place.
fn path_at(rows: &[FileRow], place: usize) -> Option<&[u8]>
    ensures { option_map (λ path. path.now) result ≡ option_map (λ row. row.path) (slice_get rows.now place) }
{
    if place < rows.len() {
        let row = &rows[place];
        Some(row.path.items())
    } else {
        None
    }
}
