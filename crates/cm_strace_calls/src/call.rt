// What the text of a call tells: by its name, in one table of those that are read, in which each has one row; then by
// its shape, and then by its result and its arguments.
ghost use Rattle.std.specs.Prelude.{◌≡◌, ◌∷◌, ℕ, All, IsTrue, List, Some, option_map};
ghost use Rattle.std.specs.List.{list_all};
ghost use Rattle.cm_base.specs.Outcome.{OrNoMemory};
ghost use Rattle.cm_strace_calls.specs.Made.{is_fit};
ghost use Rattle.cm_strace_calls.specs.Names.{is_long, named_in};
ghost use Rattle.cm_strace_calls.specs.Told.{listed_is, read_for_is, told_is};
ghost use Rattle.cm_strace_text.specs.Depths.{arguments_in};
ghost use Rattle.cm_strace_values.specs.Outcomes.{outcome_is};
ghost use Rattle.cm_strace_values.specs.Tables.{rows_of};
ghost use Rattle.cm_declared.specs.World.{world_of};
ghost use Rattle.model_strace.specs.Calls.{call_told, listed_named, listed_told, returned};
ghost use Rattle.model_strace.specs.Written.{call_name};

use crate::births::{read_birth, read_setns, read_unshare};
use crate::files::{
    read_close, read_creat, read_dup, read_dup_to, read_fcntl, read_open, read_open_at, read_write,
};
use crate::listed::{Listed, ReadFor};
use crate::told::Told;
use crate::{caps, exec, groups, ids, prctl};
use cm_base::{LineFault, NoMemory, Pid};
use cm_declared::World;
use cm_filter::CallKind;
use cm_strace_text::{call_name, is_word, read_arguments, read_written};
use cm_strace_values::{Outcome, birth_flags, read_outcome};
use std::alloc::Global;

/// What the text of a call of a process tells.
pub fn read_call<'a>(
    alloc: Global,
    w: &World,
    pid: Pid,
    text: &'a [u8],
) -> Result<Told<'a>, NoMemory>
    ensures { OrNoMemory result (λ told. told_is told ≡ call_told (world_of w.now) pid text.now) }
{
    match named_call(text) {
        Some(call) => read_named(alloc, w, pid, call, text),
        None => Ok(Told::Nothing),
    }
}

// ---- the name

/// The call that a text names. None exactly where it isn't read. The calls that come most are told here, without their
/// rows.
#[inline]
#[tactic(auto, using(crate::proofs::Fronts::closes, crate::proofs::Fronts::writes, crate::proofs::Fronts::opens_at))]
pub fn named_call(text: &[u8]) -> Option<Listed>
    ensures { option_map listed_is result ≡ listed_named (call_name text.now) }
{
    match text {
        [b'c', b'l', b'o', b's', b'e', b'(', ..] => {
            return Some(Listed {
                read_for: ReadFor::Close,
            });
        }
        [b'w', b'r', b'i', b't', b'e', b'(', ..] => {
            return Some(Listed {
                read_for: ReadFor::Write,
            });
        }
        [b'o', b'p', b'e', b'n', b'a', b't', b'(', ..] => {
            return Some(Listed {
                read_for: ReadFor::OpenAt,
            });
        }
        _ => {}
    }
    match text {
        [first, second, ..] => row_named(begun(*first, *second), text),
        _ => None,
    }
}

// The table: the rows whose names begin with these two bytes. There is none for most texts of calls, which are so told
// before their names are cut.
#[inline]
fn begun(first: u8, second: u8) -> &'static [(&'static str, ReadFor)]
    ensures same { (name : List ℕ) → named_in (rows_of read_for_is result.now) (first ∷ second ∷ name)
        ≡ listed_named (first ∷ second ∷ name) }
    ensures long { IsTrue (list_all (λ call. is_long call.0) (rows_of read_for_is result.now)) }
    ensures fit { All (λ row. IsTrue (is_fit row.1)) result.now }
{
    match (first, second) {
        (b'c', b'a') => &[("capset", ReadFor::SetsCaps)],
        (b'c', b'l') => &[
            ("clone", ReadFor::Birth),
            ("clone3", ReadFor::Birth),
            ("close", ReadFor::Close),
        ],
        (b'c', b'r') => &[("creat", ReadFor::Creat)],
        (b'd', b'u') => &[
            ("dup", ReadFor::Dup),
            ("dup2", ReadFor::DupTo),
            ("dup3", ReadFor::DupTo),
        ],
        (b'e', b'x') => &[("execve", ReadFor::Execve), ("execveat", ReadFor::ExecveAt)],
        (b'f', b'c') => &[("fcntl", ReadFor::Fcntl)],
        (b'f', b'o') => &[("fork", ReadFor::Birth)],
        (b'o', b'p') => &[("open", ReadFor::OpenFile), ("openat", ReadFor::OpenAt)],
        (b'p', b'r') => &[("prctl", ReadFor::Prctl)],
        (b'p', b'w') => &[("pwrite64", ReadFor::Write)],
        (b's', b'e') => &[
            ("setuid", ReadFor::SetsIds(CallKind::SetUid)),
            ("setreuid", ReadFor::SetsIds(CallKind::SetReUid)),
            ("setresuid", ReadFor::SetsIds(CallKind::SetResUid)),
            ("setfsuid", ReadFor::SetsIds(CallKind::SetFsUid)),
            ("setgid", ReadFor::SetsIds(CallKind::SetGid)),
            ("setregid", ReadFor::SetsIds(CallKind::SetReGid)),
            ("setresgid", ReadFor::SetsIds(CallKind::SetResGid)),
            ("setfsgid", ReadFor::SetsIds(CallKind::SetFsGid)),
            ("setgroups", ReadFor::SetsGroups),
            ("setns", ReadFor::SetNs),
        ],
        (b'u', b'n') => &[("unshare", ReadFor::Unshare)],
        (b'v', b'f') => &[("vfork", ReadFor::Birth)],
        (b'w', b'r') => &[("write", ReadFor::Write)],
        _ => &[],
    }
}

// The call of the row that has the name of a text.
fn row_named(rows: &[(&str, ReadFor)], text: &[u8]) -> Option<Listed>
    requires { All (λ row. IsTrue (is_fit row.1)) rows.now }
    ensures { option_map listed_is result ≡ named_in (rows_of read_for_is rows.now) (call_name text.now) }
{
    if rows.is_empty() {
        return None;
    }
    let name = call_name(text);
    for row in rows {
        if is_word(name, row.0.as_bytes()) {
            return Some(Listed { read_for: row.1 });
        }
    }
    None
}

// ---- the shape, the result and the arguments

/// The same of a call whose name is read already.
pub fn read_named<'a>(
    alloc: Global,
    w: &World,
    pid: Pid,
    call: Listed,
    text: &'a [u8],
) -> Result<Told<'a>, NoMemory>
    ensures { OrNoMemory result (λ told. told_is told
        ≡ listed_told (world_of w.now) pid (Some (listed_is call)) text.now) }
{
    let Some(parts) = read_written(text) else {
        return Ok(Told::Faulty(LineFault::Shape));
    };
    match read_outcome(parts.result) {
        Outcome::NoReturn => Ok(Told::Nothing),
        outcome => {
            let arguments = read_arguments(parts.inside);
            returned(alloc, w, pid, call, arguments, outcome)
        }
    }
}

// The same of its arguments and its result: the calls that may need memory, and the others.
fn returned<'a>(
    alloc: Global,
    w: &World,
    pid: Pid,
    call: Listed,
    arguments: Option<&'a [u8]>,
    outcome: Outcome,
) -> Result<Told<'a>, NoMemory>
    ensures { OrNoMemory result (λ told. told_is told
        ≡ returned (world_of w.now) pid (listed_is call) (arguments_in arguments.entry) (outcome_is outcome)) }
{
    match call.read_for {
        ReadFor::SetsGroups => groups::read(alloc, arguments, outcome),
        ReadFor::Execve => exec::read(alloc, w, 1, arguments, outcome),
        ReadFor::ExecveAt => exec::read_at(alloc, w, arguments, outcome),
        ReadFor::SetsIds(kind) => Ok(ids::read(kind, arguments, outcome)),
        ReadFor::SetsCaps => Ok(caps::read(pid, arguments, outcome)),
        ReadFor::Prctl => Ok(prctl::read(arguments, outcome)),
        ReadFor::Birth => Ok(read_birth(birth_flags(arguments), outcome)),
        ReadFor::Unshare => Ok(read_unshare(arguments, outcome)),
        ReadFor::SetNs => Ok(read_setns(arguments, outcome)),
        ReadFor::OpenFile => Ok(read_open(arguments, outcome)),
        ReadFor::OpenAt => Ok(read_open_at(arguments, outcome)),
        ReadFor::Creat => Ok(read_creat(arguments, outcome)),
        ReadFor::Close => Ok(read_close(arguments, outcome)),
        ReadFor::Dup => Ok(read_dup(arguments, outcome)),
        ReadFor::DupTo => Ok(read_dup_to(arguments, outcome)),
        ReadFor::Fcntl => Ok(read_fcntl(arguments, outcome)),
        ReadFor::Write => Ok(read_write(arguments, outcome)),
    }
}
