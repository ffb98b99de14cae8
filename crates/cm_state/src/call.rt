// The calls, with the arguments that the caller gave.
ghost use Rattle.std.specs.Prelude.{◌≡◌};
ghost use Rattle.cm_state.specs.Call.{call_of};
ghost use Rattle.model_cred.specs.Call.{kind_of};

use crate::{Extents, Ids};
use cm_base::{CapWord, FileRef, SpaceId};
use cm_filter::{CallKind, Filter};

/// A call with its arguments: ids as the caller's user namespace sees them, or -1.
#[derive(Debug, Drop)]
pub enum Call {
    /// setuid(2): the effective id, or with CAP_SETUID the real, effective and saved id.
    SetUid(u32),
    /// setreuid(2): the real and effective id.
    SetReUid(u32, u32),
    /// setresuid(2): the real, effective and saved id.
    SetResUid(u32, u32, u32),
    /// setfsuid(2): the fs id.
    SetFsUid(u32),
    /// setgid(2): the effective group id, or with CAP_SETGID the real, effective and saved one.
    SetGid(u32),
    /// setregid(2), on the page of setreuid(2): the real and effective group id.
    SetReGid(u32, u32),
    /// setresgid(2), on the page of setresuid(2): the real, effective and saved group id.
    SetResGid(u32, u32, u32),
    /// setfsgid(2): the fs group id.
    SetFsGid(u32),
    /// setgroups(2), on the page of getgroups(2): the supplementary groups.
    SetGroups(Ids),
    /// capset(2): the effective, permitted and inheritable set.
    CapSet {
        eff: CapWord,
        prm: CapWord,
        inh: CapWord,
    },
    /// PR_CAPBSET_DROP of prctl(2): the capability of that number goes from the bounding set.
    BsetDrop(u32),
    /// PR_CAP_AMBIENT_RAISE of PR_CAP_AMBIENT, prctl(2): the capability of that number comes to the ambient set.
    AmbRaise(u32),
    /// PR_CAP_AMBIENT_LOWER of PR_CAP_AMBIENT, prctl(2): the capability of that number goes from the ambient set.
    AmbLower(u32),
    /// PR_CAP_AMBIENT_CLEAR_ALL of PR_CAP_AMBIENT, prctl(2): the ambient set becomes empty.
    AmbClear,
    /// PR_SET_SECUREBITS of prctl(2): the securebits, as they are given.
    SecureBits(u32),
    /// PR_SET_KEEPCAPS of prctl(2): 1 sets SECBIT_KEEP_CAPS, 0 clears it.
    KeepCaps(u32),
    /// PR_SET_NO_NEW_PRIVS of prctl(2): 1 sets it.
    NoNewPrivs(u32),
    /// fork(2), or clone(2) without CLONE_NEWUSER: a child with a copy of the caller's credentials.
    Fork,
    /// clone(2) with CLONE_NEWUSER: a child in a new user namespace.
    CloneUser,
    /// unshare(2) with CLONE_NEWUSER: a new user namespace, which the caller enters.
    Unshare,
    /// setns(2) with CLONE_NEWUSER: the caller enters the user namespace.
    SetNs(SpaceId),
    /// A write to the file uid_map of the user namespace (user_namespaces(7)): the list, as it is given.
    WriteUidMap(SpaceId, Extents),
    /// A write to the file gid_map of the user namespace (user_namespaces(7)): the list, as it is given.
    WriteGidMap(SpaceId, Extents),
    /// A write to the file setgroups of the user namespace (user_namespaces(7)): the word "deny", or "allow".
    WriteSetgroups {
        space: SpaceId,
        deny: bool,
    },
    /// execve(2) of the file.
    Exec(FileRef),
    /// _exit(2): the caller lives no longer.
    Exit,
    /// The installing of a filter (seccomp(2)): the kinds that it excludes.
    Install(Filter),
}

impl Call {
    /// Its kind, which has its name.
    pub fn kind(&self) -> CallKind
        ensures { result ≡ kind_of (call_of self.now) }
    {
        match self {
            Call::SetUid(_) => CallKind::SetUid,
            Call::SetReUid(_, _) => CallKind::SetReUid,
            Call::SetResUid(_, _, _) => CallKind::SetResUid,
            Call::SetFsUid(_) => CallKind::SetFsUid,
            Call::SetGid(_) => CallKind::SetGid,
            Call::SetReGid(_, _) => CallKind::SetReGid,
            Call::SetResGid(_, _, _) => CallKind::SetResGid,
            Call::SetFsGid(_) => CallKind::SetFsGid,
            Call::SetGroups(_) => CallKind::SetGroups,
            Call::CapSet { .. } => CallKind::CapSet,
            Call::BsetDrop(_) => CallKind::BsetDrop,
            Call::AmbRaise(_) => CallKind::AmbRaise,
            Call::AmbLower(_) => CallKind::AmbLower,
            Call::AmbClear => CallKind::AmbClear,
            Call::SecureBits(_) => CallKind::SecureBits,
            Call::KeepCaps(_) => CallKind::KeepCaps,
            Call::NoNewPrivs(_) => CallKind::NoNewPrivs,
            Call::Fork => CallKind::Fork,
            Call::CloneUser => CallKind::CloneUser,
            Call::Unshare => CallKind::Unshare,
            Call::SetNs(_) => CallKind::SetNs,
            Call::WriteUidMap(_, _) => CallKind::WriteUidMap,
            Call::WriteGidMap(_, _) => CallKind::WriteGidMap,
            Call::WriteSetgroups { .. } => CallKind::WriteSetgroups,
            Call::Exec(_) => CallKind::Exec,
            Call::Exit => CallKind::Exit,
            Call::Install(_) => CallKind::Install,
        }
    }
}
