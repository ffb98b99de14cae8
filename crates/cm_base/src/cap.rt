// A capability and its name (capabilities(7)).
ghost use Rattle.std.specs.Prelude.{◌≡◌, ◌==◌, ◌<◌, All, SomeIff, bytes_eq, filter, find, length, map, slice_get};
ghost use Rattle.std.specs.List.{range_with_len};
ghost use Rattle.cm_base.specs.CapSet.{cap_count};
ghost use Rattle.cm_base.specs.Names.{cap_name, cap_name_or, cap_of};

use crate::limits::CAP_COUNT;
use std::marker::Model;

// The names in the order of their numbers (linux/capability.h).
const NAMES: [&str; 41] = [
    "CAP_CHOWN",
    "CAP_DAC_OVERRIDE",
    "CAP_DAC_READ_SEARCH",
    "CAP_FOWNER",
    "CAP_FSETID",
    "CAP_KILL",
    "CAP_SETGID",
    "CAP_SETUID",
    "CAP_SETPCAP",
    "CAP_LINUX_IMMUTABLE",
    "CAP_NET_BIND_SERVICE",
    "CAP_NET_BROADCAST",
    "CAP_NET_ADMIN",
    "CAP_NET_RAW",
    "CAP_IPC_LOCK",
    "CAP_IPC_OWNER",
    "CAP_SYS_MODULE",
    "CAP_SYS_RAWIO",
    "CAP_SYS_CHROOT",
    "CAP_SYS_PTRACE",
    "CAP_SYS_PACCT",
    "CAP_SYS_ADMIN",
    "CAP_SYS_BOOT",
    "CAP_SYS_NICE",
    "CAP_SYS_RESOURCE",
    "CAP_SYS_TIME",
    "CAP_SYS_TTY_CONFIG",
    "CAP_MKNOD",
    "CAP_LEASE",
    "CAP_AUDIT_WRITE",
    "CAP_AUDIT_CONTROL",
    "CAP_SETFCAP",
    "CAP_MAC_OVERRIDE",
    "CAP_MAC_ADMIN",
    "CAP_SYSLOG",
    "CAP_WAKE_ALARM",
    "CAP_BLOCK_SUSPEND",
    "CAP_AUDIT_READ",
    "CAP_PERFMON",
    "CAP_BPF",
    "CAP_CHECKPOINT_RESTORE",
];

/// A capability: 0 (CAP_CHOWN) to 40 (CAP_CHECKPOINT_RESTORE).
#[derive(Clone, Copy, Debug, PartialEq, Eq, PartialOrd, Ord)]
pub struct Cap(u8);

impl Model for Cap {
    ghost use Rattle.std.specs.Prelude.{ℕ, ◌<◌};
    ghost use Rattle.cm_base.specs.CapSet.{cap_count};

    ghost Value = { ℕ };

    ghost view = { λ c. c.0 };

    ghost invariant = { λ c. c.0 < cap_count };

    ghost inverse = { λ n. record { 0 = n } };
}

impl Cap {
    /// CAP_DAC_OVERRIDE: to pass over the permissions of files (capabilities(7)).
    pub const DAC_OVERRIDE: Cap = Cap(1);

    /// CAP_SETGID: to make arbitrary changes of group ids and the group list (capabilities(7)).
    pub const SETGID: Cap = Cap(6);

    /// CAP_SETUID: to make arbitrary changes of user ids (capabilities(7)).
    pub const SETUID: Cap = Cap(7);

    /// CAP_SETPCAP: to add to the inheritable set from the bounding one, to drop from the bounding set, and to change the
    /// securebits (capabilities(7)).
    pub const SETPCAP: Cap = Cap(8);

    /// CAP_SYS_ADMIN: the administration of the system, here of a user namespace (capabilities(7)).
    pub const SYS_ADMIN: Cap = Cap(21);

    /// CAP_SETFCAP: to set capabilities on a file, and to map user id 0 in a new user namespace (capabilities(7)).
    pub const SETFCAP: Cap = Cap(31);

    /// The capability of that name. None exactly where it is none of the 41 names.
    pub fn from_name(name: &[u8]) -> Option<Cap>
        ensures { result ≡ cap_of name.now }
    {
        named(of_length(name.len()), name)
    }

    /// Its name, as `CAP_CHOWN`.
    pub fn name(self) -> &'static str
        ensures { cap_name self ≡ Some result.now }
    {
        name_at(&NAMES, self.0 as usize)
    }

    /// The capability of that number. None exactly above 40.
    pub fn new(n: u8) -> Option<Cap>
        ensures { SomeIff result (n < cap_count) n }
    {
        if n < CAP_COUNT { Some(Cap(n)) } else { None }
    }

    /// Its number.
    pub fn number(self) -> u8
        ensures value { result ≡ self }
        ensures range { result < cap_count }
    {
        self.0
    }
}

// The numbers of the capabilities whose names have so many bytes, in their order, so that a name is held against few.
fn of_length(size: usize) -> &'static [u8]
    ensures within { All (λ cap. cap < cap_count) result.now }
    ensures numbers { result.now ≡ filter (λ cap. length (cap_name_or cap) == size) (range_with_len 0 cap_count) }
{
    match size {
        7 => &[39],
        8 => &[5],
        9 => &[0, 27, 28],
        10 => &[3, 4, 6, 7, 34],
        11 => &[8, 13, 31, 38],
        12 => &[14, 22, 23, 25],
        13 => &[12, 15, 17, 20, 21, 33],
        14 => &[16, 18, 19, 35, 37],
        15 => &[29],
        16 => &[1, 24, 32],
        17 => &[11, 30, 36],
        18 => &[26],
        19 => &[2, 9],
        20 => &[10],
        22 => &[40],
        _ => &[],
    }
}

// The first of the capabilities of these numbers that has the name.
fn named(numbers: &[u8], name: &[u8]) -> Option<Cap>
    requires { All (λ cap. cap < cap_count) numbers.now }
    ensures { result ≡ find (λ cap. bytes_eq (cap_name_or cap) name.now) numbers.now }
{
    for number in numbers {
        if has_name(Cap(*number), name) {
            return Some(Cap(*number));
        }
    }
    None
}

// The capability has the name.
fn has_name(cap: Cap, name: &[u8]) -> bool
    ensures { result ≡ bytes_eq (cap_name_or cap) name.now }
{
    cap.name().as_bytes() == name
}

// The name at a place of a table.
#[tactic(auto, using(crate::proofs::Tables::name_at))]
fn name_at<'a>(table: &[&'a str], place: usize) -> &'a str
    requires { place < length table.now }
    ensures { slice_get (map (λ name. name.now) table.now) place ≡ Some result.now }
{
    table[place]
}
