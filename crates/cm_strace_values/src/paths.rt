// Paths of the files that a log is followed on: a process's id maps, its setgroups word, its user namespace (proc(5)).
ghost use Rattle.std.specs.Prelude.{◌≡◌, ◌&&◌, ◌∷◌, [], codes, bytes_eq, reverse, option_map};
ghost use Rattle.cm_strace_values.specs.Paths.{followed_is, named_is};
ghost use Rattle.model_strace.specs.Files.{named, path_names, map_named, space_named, file_of, process_named};
ghost use Rattle.model_strace.specs.Files.{is_process, thread_file, proc_file, file_at, last_file, relative_file};
ghost use Rattle.model_strace.specs.Files.{is_followed, is_space};

use cm_base::Pid;
use cm_strace_text::{after_mark, is_word};
use cm_tokens::{first_piece, read_pid};

/// A file that is followed.
#[derive(Clone, Copy, Debug, PartialEq, Eq)]
pub enum Followed {
    UidMap,
    GidMap,
    SetgroupsWord,
    UserSpace,
}

/// A file that a path names, and the process whose it is.
#[derive(Clone, Copy, Debug)]
pub struct Named {
    pub process: Pid,
    pub file: Followed,
}

impl Followed {
    /// The file is a user namespace.
    pub fn is_space(self) -> bool
        ensures { result ≡ is_space (followed_is self) }
    {
        match self {
            Followed::UserSpace => true,
            _ => false,
        }
    }

    /// An open, for writing or not, is followed.
    pub fn is_followed(self, writes: bool) -> bool
        ensures { result ≡ is_followed writes (followed_is self) }
    {
        match self {
            Followed::UserSpace => true,
            _ => writes,
        }
    }
}

/// The file that an absolute path names, where that process opens it.
#[tactic(auto, using(crate::proofs::PathNames::in_proc, crate::proofs::PathNames::not_proc))]
pub fn file_at(own: Pid, path: &[u8]) -> Option<Named>
    ensures { option_map named_is result ≡ file_at own path.now }
{
    let (root, rest) = first_piece(path, b'/')?;
    let (proc, names) = first_piece(rest, b'/')?;
    if begins_proc(root, proc) {
        folder_file(own, names)
    } else {
        None
    }
}

// These are the first two names of an absolute path in /proc.
fn begins_proc(root: &[u8], proc: &[u8]) -> bool
    ensures { result ≡ (bytes_eq root.now [] && bytes_eq proc.now (codes "proc")) }
{
    root.is_empty() && is_word(b"proc", proc)
}

// The file of names, the first of which is a folder of /proc.
fn folder_file(own: Pid, names: &[u8]) -> Option<Named>
    ensures { option_map named_is result ≡ proc_file own ([] ∷ codes "proc" ∷ path_names names.now) }
{
    let (folder, inside) = first_piece(names, b'/')?;
    match process_file(own, folder, inside) {
        Some(named) => Some(named),
        None => thread_file(folder, inside),
    }
}

// The file in the folder of a process.
fn process_file(own: Pid, folder: &[u8], names: &[u8]) -> Option<Named>
    ensures { option_map named_is result ≡ named (process_named own folder.now) (file_of (path_names names.now)) }
{
    let process = process_named(own, folder)?;
    let file = file_of(names)?;
    Some(Named { process, file })
}

// The process that a name in /proc stands for, where that process opens it (proc(5)).
fn process_named(own: Pid, name: &[u8]) -> Option<Pid>
    ensures { result ≡ process_named own name.now }
{
    if is_word(b"self", name) || is_word(b"thread-self", name) {
        Some(own)
    } else {
        read_pid(name)
    }
}

// The file of a thread in the folder of a process: task/PID/FILE.
fn thread_file(process: &[u8], names: &[u8]) -> Option<Named>
    ensures { option_map named_is result ≡ thread_file process.now (path_names names.now) }
{
    let (task, rest) = first_piece(names, b'/')?;
    let (thread, inside) = first_piece(rest, b'/')?;
    if !is_process(process) || !is_word(b"task", task) {
        return None;
    }
    let process = read_pid(thread)?;
    let file = file_of(inside)?;
    Some(Named { process, file })
}

// A pid, or `self`.
fn is_process(name: &[u8]) -> bool
    ensures { result ≡ is_process name.now }
{
    is_word(b"self", name) || read_pid(name).is_some()
}

// The file of these names in a process's folder.
fn file_of(names: &[u8]) -> Option<Followed>
    ensures { option_map followed_is result ≡ file_of (path_names names.now) }
{
    match first_piece(names, b'/') {
        Some((folder, rest)) => file_in(folder, rest),
        None => map_named(names),
    }
}

// The file of these names in a folder of it.
#[tactic(auto, using(crate::proofs::PathNames::deep_is_none))]
fn file_in(folder: &[u8], names: &[u8]) -> Option<Followed>
    ensures { option_map followed_is result ≡ file_of (folder.now ∷ path_names names.now) }
{
    match first_piece(names, b'/') {
        Some(_) => None,
        None => space_named(folder, names),
    }
}

// The map file, or the word's, of that name.
fn map_named(name: &[u8]) -> Option<Followed>
    ensures { option_map followed_is result ≡ map_named name.now }
{
    if is_word(b"uid_map", name) {
        Some(Followed::UidMap)
    } else if is_word(b"gid_map", name) {
        Some(Followed::GidMap)
    } else if is_word(b"setgroups", name) {
        Some(Followed::SetgroupsWord)
    } else {
        None
    }
}

// The user namespace, by a name after its folder's.
fn space_named(folder: &[u8], name: &[u8]) -> Option<Followed>
    ensures { option_map followed_is result ≡ space_named folder.now name.now }
{
    if is_word(b"ns", folder) && is_word(b"user", name) {
        Some(Followed::UserSpace)
    } else {
        None
    }
}

/// The file that a relative path may name, whatever it is relative to.
pub fn relative_file(path: &[u8]) -> Option<Followed>
    ensures { option_map followed_is result ≡ relative_file path.now }
{
    if after_mark(b"/", path).is_some() {
        return None;
    }
    last_file(path)
}

// The file of a path's last names.
#[tactic(auto, using(crate::proofs::PathNames::step_name))]
fn last_file(path: &[u8]) -> Option<Followed>
    ensures { option_map followed_is result ≡ last_file (reverse (path_names path.now)) }
{
    let mut folder: &[u8] = b"";
    let mut rest = path;
    while let Some((name, more)) = first_piece(rest, b'/') {
        folder = name;
        rest = more;
    }
    file_after(folder, rest)
}

// The file of a name after its folder's, or in no folder that is told.
fn file_after(folder: &[u8], name: &[u8]) -> Option<Followed>
    ensures { option_map followed_is result ≡ last_file (name.now ∷ folder.now ∷ []) }
{
    match map_named(name) {
        Some(file) => Some(file),
        None => space_named(folder, name),
    }
}
