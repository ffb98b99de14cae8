// Ids of users and groups as the initial user namespace sees them, ids of processes, and numbers of user namespaces.
// Each type keeps its range, so that no value stands for "no id".
ghost use Rattle.std.specs.Prelude.{◌≡◌, ◌<◌, ◌≤◌, SomeIff};
ghost use Rattle.cm_base.specs.Limits.{id_count, last_pid};

use crate::limits::MINUS_ONE;
use std::marker::Model;

/// A user id as the initial user namespace sees it: 0 to 4294967294 (credentials(7), user_namespaces(7)).
#[derive(Clone, Copy, Debug, PartialEq, Eq, PartialOrd, Ord)]
pub struct Kuid(u32);

impl Model for Kuid {
    ghost use Rattle.std.specs.Prelude.{ℕ, ◌<◌};
    ghost use Rattle.cm_base.specs.Limits.{id_count};

    ghost Value = { ℕ };

    ghost view = { λ k. k.0 };

    ghost invariant = { λ k. k.0 < id_count };

    ghost inverse = { λ n. record { 0 = n } };
}

impl Kuid {
    /// The user id of that number. None exactly for -1, which stands for no id.
    pub fn new(n: u32) -> Option<Kuid>
        ensures { SomeIff result (n < id_count) n }
    {
        if n < MINUS_ONE { Some(Kuid(n)) } else { None }
    }

    /// The user id of a number that isn't -1.
    pub fn of(n: u32) -> Kuid
        requires { n < id_count }
        ensures { result ≡ n }
    {
        Kuid(n)
    }

    /// Its number.
    pub fn number(self) -> u32
        ensures value { result ≡ self }
        ensures range { result < id_count }
    {
        self.0
    }
}

/// A group id as the initial user namespace sees it: 0 to 4294967294.
#[derive(Clone, Copy, Debug, PartialEq, Eq, PartialOrd, Ord)]
pub struct Kgid(u32);

impl Model for Kgid {
    ghost use Rattle.std.specs.Prelude.{ℕ, ◌<◌};
    ghost use Rattle.cm_base.specs.Limits.{id_count};

    ghost Value = { ℕ };

    ghost view = { λ k. k.0 };

    ghost invariant = { λ k. k.0 < id_count };

    ghost inverse = { λ n. record { 0 = n } };
}

impl Kgid {
    /// The group id of that number. None exactly for -1, which stands for no id.
    pub fn new(n: u32) -> Option<Kgid>
        ensures { SomeIff result (n < id_count) n }
    {
        if n < MINUS_ONE { Some(Kgid(n)) } else { None }
    }

    /// The group id of a number that isn't -1.
    pub fn of(n: u32) -> Kgid
        requires { n < id_count }
        ensures { result ≡ n }
    {
        Kgid(n)
    }

    /// Its number.
    pub fn number(self) -> u32
        ensures value { result ≡ self }
        ensures range { result < id_count }
    {
        self.0
    }
}

/// The number of a user namespace: 0 is the initial one, the others count on in the order of their creation (choice).
#[derive(Clone, Copy, Debug, PartialEq, Eq, PartialOrd, Ord)]
pub struct SpaceId(pub u32);

/// The last pid (proc(5), pid_max; that it is one is a choice).
pub const LAST_PID: u32 = 4_194_304;

/// A process id: 1 to 4194304.
#[derive(Clone, Copy, Debug, PartialEq, Eq, PartialOrd, Ord)]
pub struct Pid(u32);

impl Model for Pid {
    ghost use Rattle.std.specs.Prelude.{ℕ, ◌<◌, ◌≤◌};
    ghost use Rattle.cm_base.specs.Limits.{last_pid};

    ghost Value = { ℕ };

    ghost view = { λ p. p.0 };

    ghost invariant = { λ p. (1 ≤ p.0) × (p.0 ≤ last_pid) };

    ghost inverse = { λ n. record { 0 = n } };
}

impl Pid {
    /// The process id of that number. None exactly out of 1 to 4194304.
    pub fn new(n: u32) -> Option<Pid>
        ensures { SomeIff result ((1 ≤ n) × (n ≤ last_pid)) n }
    {
        if 1 <= n && n <= LAST_PID {
            Some(Pid(n))
        } else {
            None
        }
    }

    /// Its number.
    pub fn number(self) -> u32
        ensures value { result ≡ self }
        ensures positive { 1 ≤ result }
        ensures limit { result ≤ last_pid }
    {
        self.0
    }
}
