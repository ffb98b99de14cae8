use crate::{CallKind, Filter, NoSuchCall, Shape};
use std::test::Fail;

// The names of the manual pages, but for prctl(2), clone(2), the files of user_namespaces(7), _exit(2) and seccomp(2);
// and which arguments these pages give the calls, of prctl(2) those after the operation.
const NAMES: [(CallKind, &str, Shape); 27] = [
    (CallKind::SetUid, "setuid", Shape::OneId),
    (CallKind::SetReUid, "setreuid", Shape::TwoIds),
    (CallKind::SetResUid, "setresuid", Shape::ThreeIds),
    (CallKind::SetFsUid, "setfsuid", Shape::OneId),
    (CallKind::SetGid, "setgid", Shape::OneId),
    (CallKind::SetReGid, "setregid", Shape::TwoIds),
    (CallKind::SetResGid, "setresgid", Shape::ThreeIds),
    (CallKind::SetFsGid, "setfsgid", Shape::OneId),
    (CallKind::SetGroups, "setgroups", Shape::ManyIds),
    (CallKind::CapSet, "capset", Shape::ThreeSets),
    (CallKind::BsetDrop, "bset_drop", Shape::OneCap),
    (CallKind::AmbRaise, "amb_raise", Shape::OneCap),
    (CallKind::AmbLower, "amb_lower", Shape::OneCap),
    (CallKind::AmbClear, "amb_clear", Shape::Bare),
    (CallKind::SecureBits, "securebits", Shape::OneNumber),
    (CallKind::KeepCaps, "keepcaps", Shape::OneNumber),
    (CallKind::NoNewPrivs, "no_new_privs", Shape::OneNumber),
    (CallKind::Fork, "fork", Shape::Bare),
    (CallKind::CloneUser, "clone_user", Shape::Bare),
    (CallKind::Unshare, "unshare", Shape::Bare),
    (CallKind::SetNs, "setns", Shape::OneSpace),
    (CallKind::WriteUidMap, "write_uid_map", Shape::SpaceAndMap),
    (CallKind::WriteGidMap, "write_gid_map", Shape::SpaceAndMap),
    (
        CallKind::WriteSetgroups,
        "write_setgroups",
        Shape::SpaceAndWord,
    ),
    (CallKind::Exec, "execve", Shape::OneFile),
    (CallKind::Exit, "exit", Shape::Bare),
    (CallKind::Install, "install", Shape::ManyKinds),
];

#[test]
fn kinds_have_their_names_and_shapes(rt: HostRuntime) {
    for (kind, name, shape) in NAMES {
        assert_eq!(rt; kind.name(), name);
        assert_eq!(rt; kind.shape(), shape);
        assert_eq!(rt; CallKind::from_name(name.as_bytes()), Some(kind));
    }
}

#[test]
fn other_names_are_none(rt: HostRuntime) {
    for other in [
        "",
        "set",
        "setuid ",
        "SETUID",
        "setuid32",
        "exec",
        "exit_group",
        "clone",
    ] {
        assert_eq!(rt; CallKind::from_name(other.as_bytes()), None, "{other}");
    }
}

// Two calls are excluded, one of them named twice; all others are permitted.
#[test]
fn filters_exclude_the_calls_that_they_name(rt: HostRuntime) -> Result<(), Fail> {
    let alloc = rt.alloc();
    let mut names = Vec::new(alloc);
    for name in ["unshare", "exit", "unshare"] {
        names.push(String::from_str(alloc, name)?)?;
    }
    let filter = Filter::read(&names);
    for (kind, _, _) in NAMES {
        let excluded = kind == CallKind::Unshare || kind == CallKind::Exit;
        match filter {
            Ok(filter) => assert_eq!(rt; filter.permits(kind), !excluded),
            Err(_) => assert!(rt; false),
        }
        assert!(rt; Filter::none().permits(kind));
    }
    Ok(())
}

#[test]
fn the_first_name_of_no_call_is_told(rt: HostRuntime) -> Result<(), Fail> {
    let alloc = rt.alloc();
    let mut names = Vec::new(alloc);
    for name in ["setuid", "set", "exit", ""] {
        names.push(String::from_str(alloc, name)?)?;
    }
    assert_eq!(rt; Filter::read(&names), Err(NoSuchCall(1)));
    Ok(())
}
