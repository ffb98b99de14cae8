// The parts of a file's row: its mode (chmod(1)), its attribute security.capability (capabilities(7), "File
// capabilities"), and its interpreter (execve(2), "Interpreter scripts").
ghost use Rattle.std.specs.Prelude.{◌≡◌, ◌<◌, ℕ, Vec, codes, true, length, slice_get};
ghost use Rattle.std.specs.Prelude.{◌≢◌, Err, Some, IfErr, IfOk, IfSome, is_none, is_some, option_map};
ghost use Rattle.std.specs.Result.{result_ok};
ghost use Rattle.cm_base.specs.Outcome.{OrNoMemory};
ghost use Rattle.cm_base.specs.declared.faults.WorldFault.TheVariants as fault;
ghost use Rattle.cm_files.specs.Fault.{fits_interpreter, has_path as model_has_path, is_program as model_is_program};
ghost use Rattle.cm_values.specs.Answers.{Refuses};
ghost use Rattle.hex.specs.Hex.{decode_of};
ghost use Rattle.model_cred.specs.Attribute.{attribute_of};
ghost use Rattle.model_cred.specs.Files.{row_named};
ghost use Rattle.model_text.specs.FileText as model;
ghost use Rattle.model_text.specs.Refusal.{Fault};
ghost use Rattle.model_text.specs.Toml.{text_of};
ghost use Rattle.toml.specs.Data.{get_member};
ghost use Rattle.toml.specs.View.{table_view};

use crate::{RowError, text_at};
use cm_base::{NoMemory, WorldFault, read_octal};
use cm_files::{FileRow, FileRows};
use cm_vfscap::{FileCaps, read};
use hex::{FromHexError, decode};
use std::alloc::Global;
use toml::Table;

/// The mode that 1 to 4 octal digits spell.
#[tactic(auto, unfolding(model_text::specs::FileText::mode_of_text))]
pub fn mode_of_text(text: &[u8]) -> Option<u32>
    ensures { result ≡ model.mode_of_text text.now }
{
    if text.len() <= 4 {
        read_octal(text).ok()
    } else {
        None
    }
}

/// The attribute that a row declares, where it declares one. BadCaps where its text is none.
pub fn caps_of_row(alloc: Global, row: &Table) -> Result<Option<FileCaps>, RowError>
    ensures made { IfOk result
        (λ caps. model.attribute_declared (text_of (get_member (codes "caps") (table_view row.now))) ≡ Some caps) }
    ensures refused { IfErr result (Refuses (Fault fault.BadCaps)
        (is_none (model.attribute_declared (text_of (get_member (codes "caps") (table_view row.now)))))) }
{
    match text_at(row, "caps") {
        Some(text) => match attribute_of_text(alloc, text.as_bytes())? {
            Some(caps) => Ok(Some(caps)),
            None => Err(RowError::Fault(WorldFault::BadCaps)),
        },
        None => Ok(None),
    }
}

/// The attribute whose bytes hexadecimal digits spell, if the text is one. It fails only where memory runs out.
#[tactic(auto, unfolding(model_text::specs::FileText::attribute_of_text))]
fn attribute_of_text(alloc: Global, text: &[u8]) -> Result<Option<FileCaps>, NoMemory>
    ensures { OrNoMemory result (λ caps. caps ≡ model.attribute_of_text text.now) }
{
    match bytes_of_hex(alloc, text)? {
        Some(bytes) => Ok(caps_of_bytes(&bytes)),
        None => Ok(None),
    }
}

/// The bytes that hexadecimal digits spell, if the text is such digits. It fails only where memory runs out.
fn bytes_of_hex(alloc: Global, text: &[u8]) -> Result<Option<Vec<u8>>, NoMemory>
    ensures { OrNoMemory result
        (λ bytes. option_map (λ (v : Vec ℕ Global). v.items) bytes ≡ result_ok (decode_of text.now)) }
{
    match decode(alloc, text) {
        Ok(bytes) => Ok(Some(bytes)),
        Err(e) => match e {
            FromHexError::OutOfMemory => Err(NoMemory),
            _ => Ok(None),
        },
    }
}

/// The attribute that bytes are, if they are one.
fn caps_of_bytes(bytes: &[u8]) -> Option<FileCaps>
    ensures { result ≡ result_ok (attribute_of bytes.now) }
{
    match read(bytes) {
        Ok(caps) => Some(caps),
        Err(_) => None,
    }
}

/// The interpreter that a row names, where it names one. NoInterpreter where that is no earlier file without one. It takes
/// no memory.
pub fn interpreter_of_row(rows: &FileRows, row: &Table) -> Result<Option<u32>, RowError>
    ensures named { IfOk result
        (λ n. model.interpreter_of rows.now (text_of (get_member (codes "interpreter") (table_view row.now))) ≡ Some n) }
    ensures fits { IfOk result (λ n. fits_interpreter rows.now n ≡ true) }
    ensures refused { IfErr result (Refuses (Fault fault.NoInterpreter)
        (is_none (model.interpreter_of rows.now (text_of (get_member (codes "interpreter") (table_view row.now)))))) }
    ensures no_memory { result ≢ Err RowError.NoMemory }
{
    match text_at(row, "interpreter") {
        Some(path) => match program_at(rows, path.as_bytes()) {
            Some(n) => Ok(Some(n)),
            None => Err(RowError::Fault(WorldFault::NoInterpreter)),
        },
        None => Ok(None),
    }
}

/// The number of the file of that path, where that has no interpreter itself.
fn program_at(rows: &FileRows, path: &[u8]) -> Option<u32>
    ensures place { result ≡ model.program_at rows.now path.now }
    ensures program { IfSome result (λ n. model_is_program (slice_get rows.now n) ≡ true) }
{
    let n = rows.find(path)?;
    if is_program(rows.items(), n as usize) {
        Some(n)
    } else {
        None
    }
}

/// The row of that number has no interpreter.
fn is_program(rows: &[FileRow], n: usize) -> bool
    requires { n < length rows.now }
    ensures program { result ≡ model.is_program rows.now n }
    ensures fits { result ≡ model_is_program (slice_get rows.now n) }
{
    let row = &rows[n];
    row.interpreter.is_none()
}

/// One of the rows has that path.
pub fn has_path(rows: &FileRows, path: &[u8]) -> bool
    ensures named { result ≡ is_some (row_named rows.now path.now) }
    ensures path { result ≡ model_has_path path.now rows.now }
{
    rows.find(path).is_some()
}
