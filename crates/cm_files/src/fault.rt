// Why mounts and files are no table.
ghost use Rattle.std.specs.Prelude.{◌≡◌, ◌<◌, ◌^◌, length, slice_get};
ghost use Rattle.cm_files.specs.Fault.{fits_interpreter as model_fits_interpreter, is_program as model_is_program, link_fault as model_link_fault};
ghost use Rattle.cm_files.specs.declared.fault.BadFiles.TheVariants.{NoMemory};

use crate::{FileRow, Mount};
use std::alloc::{AllocError, AllocFailed};

/// Why mounts and files are no table. A row is named by its number, from 0 on.
#[derive(Clone, Copy, Debug, PartialEq, Eq)]
pub enum BadFiles {
    /// The row's path is that of an earlier one.
    Twice(u32),
    /// The row's mount isn't there.
    NoMount(u32),
    /// The row's interpreter isn't an earlier row without one.
    NoInterpreter(u32),
    /// There was no memory, which says nothing of the rows.
    NoMemory,
}

impl From<AllocError> for BadFiles {
    ghost from_gives = { λ _ e. e ≡ NoMemory };

    fn from(_: AllocError) -> BadFiles {
        BadFiles::NoMemory
    }
}

impl<T: Drop> From<AllocFailed<T>> for BadFiles {
    ghost from_gives = { λ _ e. e ≡ NoMemory };

    fn from(_: AllocFailed<T>) -> BadFiles {
        BadFiles::NoMemory
    }
}

// The fault of what a row names after those before it: its mount, then its interpreter. None where it has none.
pub(crate) fn link_fault(mounts: &[Mount], before: &[FileRow], row: &FileRow) -> Option<BadFiles>
    requires { length before.now < 2 ^ 32 }
    ensures { result ≡ model_link_fault (length mounts.now) before.now row.now }
{
    let n = before.len() as u32;
    if row.mount as usize >= mounts.len() {
        return Some(BadFiles::NoMount(n));
    }
    if !fits_interpreter(before, row.interpreter) {
        return Some(BadFiles::NoInterpreter(n));
    }
    None
}

// The interpreter, where there is one, is one of these rows and no script.
fn fits_interpreter(rows: &[FileRow], interpreter: Option<u32>) -> bool
    ensures { result ≡ model_fits_interpreter rows.now interpreter }
{
    match interpreter {
        Some(n) => is_program(rows, n as usize),
        None => true,
    }
}

// The row of that number is there and is no script.
fn is_program(rows: &[FileRow], n: usize) -> bool
    ensures { result ≡ model_is_program (slice_get rows.now n) }
{
    if n >= rows.len() {
        return false;
    }
    let row = &rows[n];
    row.interpreter.is_none()
}
