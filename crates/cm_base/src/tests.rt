use crate::{
    BadNumber, Cap, CapWord, Errno, Kgid, Kuid, Limited, LineFault, Pid, SecBits, Table,
    WorldFault, read_octal, read_u32,
};

// The numbers of linux/capability.h.
const CAPABILITIES: [(&str, u8); 41] = [
    ("CAP_CHOWN", 0),
    ("CAP_DAC_OVERRIDE", 1),
    ("CAP_DAC_READ_SEARCH", 2),
    ("CAP_FOWNER", 3),
    ("CAP_FSETID", 4),
    ("CAP_KILL", 5),
    ("CAP_SETGID", 6),
    ("CAP_SETUID", 7),
    ("CAP_SETPCAP", 8),
    ("CAP_LINUX_IMMUTABLE", 9),
    ("CAP_NET_BIND_SERVICE", 10),
    ("CAP_NET_BROADCAST", 11),
    ("CAP_NET_ADMIN", 12),
    ("CAP_NET_RAW", 13),
    ("CAP_IPC_LOCK", 14),
    ("CAP_IPC_OWNER", 15),
    ("CAP_SYS_MODULE", 16),
    ("CAP_SYS_RAWIO", 17),
    ("CAP_SYS_CHROOT", 18),
    ("CAP_SYS_PTRACE", 19),
    ("CAP_SYS_PACCT", 20),
    ("CAP_SYS_ADMIN", 21),
    ("CAP_SYS_BOOT", 22),
    ("CAP_SYS_NICE", 23),
    ("CAP_SYS_RESOURCE", 24),
    ("CAP_SYS_TIME", 25),
    ("CAP_SYS_TTY_CONFIG", 26),
    ("CAP_MKNOD", 27),
    ("CAP_LEASE", 28),
    ("CAP_AUDIT_WRITE", 29),
    ("CAP_AUDIT_CONTROL", 30),
    ("CAP_SETFCAP", 31),
    ("CAP_MAC_OVERRIDE", 32),
    ("CAP_MAC_ADMIN", 33),
    ("CAP_SYSLOG", 34),
    ("CAP_WAKE_ALARM", 35),
    ("CAP_BLOCK_SUSPEND", 36),
    ("CAP_AUDIT_READ", 37),
    ("CAP_PERFMON", 38),
    ("CAP_BPF", 39),
    ("CAP_CHECKPOINT_RESTORE", 40),
];

#[test]
fn capabilities_have_their_names(rt: HostRuntime) {
    for (name, number) in CAPABILITIES {
        let cap = Cap::new(number).expect(&rt, "there are 41");
        assert!(rt; cap.name() == name, "{number}");
        assert_eq!(rt;
            Cap::from_name(name.as_bytes()),
            Cap::new(number),
            "{number}"
        );
    }
    for other in ["", "CAP_", "CHOWN", "cap_chown", "CAP_CHOWN ", "CAP_NONE"] {
        assert_eq!(rt; Cap::from_name(other.as_bytes()), None, "{other}");
    }
}

#[test]
fn errors_have_their_names(rt: HostRuntime) {
    let names = [
        (Errno::EPERM, "EPERM"),
        (Errno::EINVAL, "EINVAL"),
        (Errno::ENOSPC, "ENOSPC"),
        (Errno::ENOMEM, "ENOMEM"),
        (Errno::EAGAIN, "EAGAIN"),
        (Errno::EINTR, "EINTR"),
        (Errno::EFAULT, "EFAULT"),
        (Errno::EIO, "EIO"),
        (Errno::ENOENT, "ENOENT"),
        (Errno::EACCES, "EACCES"),
        (Errno::ENOTDIR, "ENOTDIR"),
        (Errno::ELOOP, "ELOOP"),
        (Errno::ENAMETOOLONG, "ENAMETOOLONG"),
        (Errno::E2BIG, "E2BIG"),
        (Errno::ENOEXEC, "ENOEXEC"),
        (Errno::ETXTBSY, "ETXTBSY"),
        (Errno::ELIBBAD, "ELIBBAD"),
    ];
    for (error, name) in names {
        assert_eq!(rt; error.name(), name);
        assert_eq!(rt; Errno::from_name(name.as_bytes()), Some(error));
    }
    assert_eq!(rt; Errno::from_name(b"ENOSYS".as_slice()), None);
}

#[test]
fn texts_spell_numbers(rt: HostRuntime) {
    let decimal = [
        ("", Err(BadNumber::NotNumber)),
        ("0", Ok(0)),
        ("007", Ok(7)),
        ("1000", Ok(1000)),
        ("4294967295", Ok(4_294_967_295)),
        ("4294967296", Err(BadNumber::TooLarge)),
        ("99999999999999999999999999", Err(BadNumber::TooLarge)),
        ("99999999999999999999999999x", Err(BadNumber::NotNumber)),
        ("1x", Err(BadNumber::NotNumber)),
        ("-1", Err(BadNumber::NotNumber)),
        ("+1", Err(BadNumber::NotNumber)),
        (" 1", Err(BadNumber::NotNumber)),
    ];
    for (text, number) in decimal {
        assert_eq!(rt; read_u32(text.as_bytes()), number, "{text}");
    }
    let octal = [
        ("0", Ok(0)),
        ("4755", Ok(2541)),
        ("8", Err(BadNumber::NotNumber)),
        ("37777777777", Ok(4_294_967_295)),
        ("40000000000", Err(BadNumber::TooLarge)),
    ];
    for (text, number) in octal {
        assert_eq!(rt; read_octal(text.as_bytes()), number, "{text}");
    }
}

#[test]
fn ids_end_where_they_end(rt: HostRuntime) {
    assert!(rt; Kuid::new(4_294_967_294).is_some() && Kuid::new(4_294_967_295).is_none());
    assert!(rt; Kgid::new(4_294_967_294).is_some() && Kgid::new(4_294_967_295).is_none());
    assert_eq!(rt; Some(Kuid::of(4_294_967_294)), Kuid::new(4_294_967_294));
    assert_eq!(rt; Some(Kgid::of(0)), Kgid::new(0));
    assert!(rt; Pid::new(0).is_none() && Pid::new(1).is_some());
    assert!(rt; Pid::new(4_194_304).is_some() && Pid::new(4_194_305).is_none());
    assert!(rt; Cap::new(40).is_some() && Cap::new(41).is_none());
}

#[test]
fn words_are_sets(rt: HostRuntime) {
    assert_eq!(rt; CapWord::from_bits(u64::MAX).bits(), 0x1ff_ffff_ffff);
    assert_eq!(rt; CapWord::from_bits(0x600_0000_0001).bits(), 1);
    let kill = Cap::new(5).expect(&rt, "CAP_KILL");
    let word = CapWord::from_bits(0x21);
    assert!(rt; word.holds(kill) && !CapWord::empty().holds(kill));
    assert_eq!(rt; word.without(kill).bits(), 1);
    assert_eq!(rt; CapWord::empty().with(kill).bits(), 0x20);
    assert!(rt; word.within(CapWord::full()) && !CapWord::full().within(word));
    assert!(rt; SecBits(0x2f).has(0x20) && !SecBits(0x2f).has(0x10));
    // The bits of linux/securebits.h.
    assert_eq!(rt;
        [SecBits::NO_SETUID_FIXUP, SecBits::KEEP_CAPS],
        [1 << 2, 1 << 4]
    );
    assert_eq!(rt;
        [SecBits::KEEP_CAPS_LOCKED, SecBits::NO_CAP_AMBIENT_RAISE],
        [1 << 5, 1 << 6]
    );
}

// The words and numbers that are printed.
#[test]
fn faults_tables_and_limits_have_their_words(rt: HostRuntime) {
    for (table, name) in [
        (Table::Whole, "whole"),
        (Table::Space, "space"),
        (Table::Mount, "mount"),
        (Table::File, "file"),
        (Table::Process, "process"),
        (Table::Filter, "filter"),
    ] {
        assert_eq!(rt; table.name(), name);
    }
    for (fault, word) in [(WorldFault::Toml, "Toml"), (WorldFault::TooDeep, "TooDeep")] {
        assert_eq!(rt; fault.word(), word);
    }
    for (fault, word) in [
        (LineFault::Pid, "pid"),
        (LineFault::Argument(3), "argument"),
        (LineFault::Outcome, "result"),
        (LineFault::Descriptor, "descriptor"),
    ] {
        assert_eq!(rt; fault.word(), word);
    }
    for (limit, name, number) in [
        (Limited::World, "world", 1_048_576),
        (Limited::Log, "log", 1_099_511_627_776),
        (Limited::Line, "line", 1_048_576),
        (Limited::Processes, "processes", 4096),
        (Limited::Spaces, "spaces", 256),
        (Limited::Mounts, "mounts", 64),
        (Limited::Files, "files", 4096),
        (Limited::Groups, "groups", 1024),
        (Limited::Held, "held", 4096),
        (Limited::Descriptors, "descriptors", 65_536),
        (Limited::Family, "family", 256),
        (Limited::Certificate, "certificate", 67_108_864),
        (Limited::Run, "run", 67_108_864),
    ] {
        assert_eq!(rt; limit.name(), name);
        assert_eq!(rt; limit.number(), number);
    }
}
