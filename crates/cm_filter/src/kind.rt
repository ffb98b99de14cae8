// The kinds of calls and their names in script lines, one table.
ghost use Rattle.std.specs.Prelude.{◌≡◌, ◌==◌, ◌<◌, filter, find, length};
ghost use Rattle.cm_filter.specs.Kinds.{call_kinds, call_name, has_name, kind_count, kind_named, kind_number};
ghost use Rattle.cm_filter.specs.Shapes.{shape_of};

use crate::Shape;

/// A kind of call: the call without its arguments. Their order is that of the table.
#[derive(Clone, Copy, Debug, PartialEq, Eq)]
pub enum CallKind {
    SetUid,
    SetReUid,
    SetResUid,
    SetFsUid,
    SetGid,
    SetReGid,
    SetResGid,
    SetFsGid,
    SetGroups,
    CapSet,
    BsetDrop,
    AmbRaise,
    AmbLower,
    AmbClear,
    SecureBits,
    KeepCaps,
    NoNewPrivs,
    Fork,
    CloneUser,
    Unshare,
    SetNs,
    WriteUidMap,
    WriteGidMap,
    WriteSetgroups,
    Exec,
    Exit,
    Install,
}

/// How many kinds there are.
pub(crate) const KIND_COUNT: u32 = 27;

impl CallKind {
    /// Its name, as `setresuid`.
    #[inline]
    pub fn name(self) -> &'static str
        ensures { result.now ≡ call_name self }
    {
        self.row().0
    }

    /// Which arguments a call of the kind has.
    #[inline]
    pub fn shape(self) -> Shape
        ensures { result ≡ shape_of self }
    {
        self.row().1
    }

    // Its name, and which arguments a call of the kind has: one table.
    #[inline]
    fn row(self) -> (&'static str, Shape)
        ensures name { result.0.now ≡ call_name self }
        ensures shape { result.1 ≡ shape_of self }
    {
        match self {
            CallKind::SetUid => ("setuid", Shape::OneId),
            CallKind::SetReUid => ("setreuid", Shape::TwoIds),
            CallKind::SetResUid => ("setresuid", Shape::ThreeIds),
            CallKind::SetFsUid => ("setfsuid", Shape::OneId),
            CallKind::SetGid => ("setgid", Shape::OneId),
            CallKind::SetReGid => ("setregid", Shape::TwoIds),
            CallKind::SetResGid => ("setresgid", Shape::ThreeIds),
            CallKind::SetFsGid => ("setfsgid", Shape::OneId),
            CallKind::SetGroups => ("setgroups", Shape::ManyIds),
            CallKind::CapSet => ("capset", Shape::ThreeSets),
            CallKind::BsetDrop => ("bset_drop", Shape::OneCap),
            CallKind::AmbRaise => ("amb_raise", Shape::OneCap),
            CallKind::AmbLower => ("amb_lower", Shape::OneCap),
            CallKind::AmbClear => ("amb_clear", Shape::Bare),
            CallKind::SecureBits => ("securebits", Shape::OneNumber),
            CallKind::KeepCaps => ("keepcaps", Shape::OneNumber),
            CallKind::NoNewPrivs => ("no_new_privs", Shape::OneNumber),
            CallKind::Fork => ("fork", Shape::Bare),
            CallKind::CloneUser => ("clone_user", Shape::Bare),
            CallKind::Unshare => ("unshare", Shape::Bare),
            CallKind::SetNs => ("setns", Shape::OneSpace),
            CallKind::WriteUidMap => ("write_uid_map", Shape::SpaceAndMap),
            CallKind::WriteGidMap => ("write_gid_map", Shape::SpaceAndMap),
            CallKind::WriteSetgroups => ("write_setgroups", Shape::SpaceAndWord),
            CallKind::Exec => ("execve", Shape::OneFile),
            CallKind::Exit => ("exit", Shape::Bare),
            CallKind::Install => ("install", Shape::ManyKinds),
        }
    }

    /// All kinds, in their order.
    pub fn all() -> &'static [CallKind]
        ensures { result.now ≡ call_kinds }
    {
        &[
            CallKind::SetUid,
            CallKind::SetReUid,
            CallKind::SetResUid,
            CallKind::SetFsUid,
            CallKind::SetGid,
            CallKind::SetReGid,
            CallKind::SetResGid,
            CallKind::SetFsGid,
            CallKind::SetGroups,
            CallKind::CapSet,
            CallKind::BsetDrop,
            CallKind::AmbRaise,
            CallKind::AmbLower,
            CallKind::AmbClear,
            CallKind::SecureBits,
            CallKind::KeepCaps,
            CallKind::NoNewPrivs,
            CallKind::Fork,
            CallKind::CloneUser,
            CallKind::Unshare,
            CallKind::SetNs,
            CallKind::WriteUidMap,
            CallKind::WriteGidMap,
            CallKind::WriteSetgroups,
            CallKind::Exec,
            CallKind::Exit,
            CallKind::Install,
        ]
    }

    /// Its number, from 0 on: its place in the order of the kinds.
    pub(crate) fn number(self) -> u32
        ensures place { result ≡ kind_number self }
        ensures range { result < kind_count }
    {
        self as u32
    }

    /// The kind of that name. None exactly where it is none of the 27 names.
    pub fn from_name(name: &[u8]) -> Option<CallKind>
        ensures { result ≡ kind_named name.now }
    {
        named(of_length(name.len()), name)
    }
}

/// The first of these kinds that has the name.
fn named(kinds: &[CallKind], name: &[u8]) -> Option<CallKind>
    ensures { result ≡ find (has_name name.now) kinds.now }
{
    kinds
        .iter()
        .copied()
        .find(|kind| kind.name().as_bytes() == name)
}

/// The kinds whose names have so many bytes, in their order, so that a name is held against few.
fn of_length(size: usize) -> &'static [CallKind]
    ensures { result.now ≡ filter (λ kind. length (call_name kind) == size) call_kinds }
{
    match size {
        4 => &[CallKind::Fork, CallKind::Exit],
        5 => &[CallKind::SetNs],
        6 => &[
            CallKind::SetUid,
            CallKind::SetGid,
            CallKind::CapSet,
            CallKind::Exec,
        ],
        7 => &[CallKind::Unshare, CallKind::Install],
        8 => &[
            CallKind::SetReUid,
            CallKind::SetFsUid,
            CallKind::SetReGid,
            CallKind::SetFsGid,
            CallKind::KeepCaps,
        ],
        9 => &[
            CallKind::SetResUid,
            CallKind::SetResGid,
            CallKind::SetGroups,
            CallKind::BsetDrop,
            CallKind::AmbRaise,
            CallKind::AmbLower,
            CallKind::AmbClear,
        ],
        10 => &[CallKind::SecureBits, CallKind::CloneUser],
        12 => &[CallKind::NoNewPrivs],
        13 => &[CallKind::WriteUidMap, CallKind::WriteGidMap],
        15 => &[CallKind::WriteSetgroups],
        _ => &[],
    }
}
