// execve(2) and execveat(2).
ghost use Rattle.std.specs.Prelude.{◌≡◌, ◌∷◌};
ghost use Rattle.cm_base.specs.Outcome.{OrNoMemory};
ghost use Rattle.cm_strace_calls.specs.Readers.{first_read};
ghost use Rattle.cm_strace_calls.specs.Told.{told_is};
ghost use Rattle.cm_strace_text.specs.Depths.{arguments_in};
ghost use Rattle.cm_strace_values.specs.Outcomes.{outcome_is};
ghost use Rattle.cm_declared.specs.World.{world_of};
ghost use Rattle.model_cred.specs.Call.{Exec};
ghost use Rattle.model_strace.specs.Calls.{execve_at, execveat_told, file_quoted, plain_call};

use crate::arguments::{lacking, needed};
use crate::told::Told;
use cm_base::{FileRef, LineFault, NoMemory};
use cm_declared::World;
use cm_state::Call;
use cm_strace_text::{next_argument, read_quote};
use cm_strace_values::Outcome;
use std::alloc::Global;

/// A line of execve, whose path is the next argument, which has that number.
pub(crate) fn read<'a>(
    alloc: Global,
    w: &World,
    number: u32,
    left: Option<&[u8]>,
    outcome: Outcome,
) -> Result<Told<'a>, NoMemory>
    ensures { OrNoMemory result (λ told. told_is told ≡ plain_call (outcome_is outcome)
        (first_read (file_quoted (world_of w.now)) number (arguments_in left.entry)) Exec) }
{
    let Some(res) = outcome.plain() else {
        return Ok(Told::Faulty(LineFault::Outcome));
    };
    let Some((text, _)) = next_argument(left) else {
        return Ok(Told::Faulty(LineFault::Argument(number)));
    };
    match file_quoted(alloc, w, text)? {
        Some(file) => Ok(Told::Does(Call::Exec(file), res)),
        None => Ok(Told::Faulty(LineFault::Argument(number))),
    }
}

// The file of a quoted path.
fn file_quoted(alloc: Global, w: &World, text: &[u8]) -> Result<Option<FileRef>, NoMemory>
    ensures { OrNoMemory result (λ file. file ≡ file_quoted (world_of w.now) text.now) }
{
    match read_quote(alloc, text)?.whole() {
        Some(path) => Ok(Some(w.files.find(&path))),
        None => Ok(None),
    }
}

/// A line of execveat: of the current folder it is execve; what another descriptor names isn't known.
pub(crate) fn read_at<'a>(
    alloc: Global,
    w: &World,
    arguments: Option<&[u8]>,
    outcome: Outcome,
) -> Result<Told<'a>, NoMemory>
    ensures { OrNoMemory result (λ told. told_is told
        ≡ execveat_told (world_of w.now) (arguments_in arguments.entry) (outcome_is outcome)) }
{
    match needed(arguments, lacking(outcome, 1)) {
        Ok((folder, left)) => in_folder(alloc, w, folder, left, outcome),
        Err(why) => Ok(Told::Faulty(why)),
    }
}

// The same of its folder, and the arguments after it.
fn in_folder<'a>(
    alloc: Global,
    w: &World,
    folder: &[u8],
    left: Option<&[u8]>,
    outcome: Outcome,
) -> Result<Told<'a>, NoMemory>
    ensures { OrNoMemory result (λ told. told_is told
        ≡ execve_at (world_of w.now) folder.now (folder.now ∷ arguments_in left.entry) (outcome_is outcome)) }
{
    if folder == b"AT_FDCWD".as_slice() {
        return read(alloc, w, 2, left, outcome);
    }
    match outcome.success() {
        Some(_) => Ok(Told::Faulty(LineFault::Descriptor)),
        None => Ok(Told::Nothing),
    }
}
