// A range of ids, both ends in it, and how two of them lie to each other.
ghost use Rattle.std.specs.Prelude.{◌≡◌, nat_lt, nat_le, ◌&&◌, ◌+◌, ◌-◌, ◌≤◌};
ghost use Rattle.cm_idset.specs.Pairs.{in_common, reaches, joined};

use std::cmp::{max, min};
use std::marker::Model;

/// The ids from `first` to `last`, both of them too.
#[derive(Clone, Copy, Debug, PartialEq, Eq)]
pub struct Interval {
    pub first: u32,
    pub last: u32,
}

impl Model for Interval {
    ghost use Rattle.model_cred.specs.Intervals as model;

    ghost Value = { model.Interval };

    ghost view = { λ i. record { first = i.first; last = i.last } };

    ghost inverse = { λ i. record { first = i.first; last = i.last } };
}

impl Interval {
    // It begins where the other does, or before.
    pub(crate) fn begins_first(&self, other: &Interval) -> bool
        ensures { result ≡ nat_le self.now.first other.now.first }
    {
        self.first <= other.first
    }

    // It ends where the other does, or before.
    pub(crate) fn ends_first(&self, other: &Interval) -> bool
        ensures { result ≡ nat_le self.now.last other.now.last }
    {
        self.last <= other.last
    }

    // It ends before the other begins.
    pub(crate) fn is_before(&self, other: &Interval) -> bool
        ensures { result ≡ nat_lt self.now.last other.now.first }
    {
        self.last < other.first
    }

    // Each id of it is one of the other.
    pub(crate) fn is_inside(&self, other: &Interval) -> bool
        ensures { result ≡ (nat_le other.now.first self.now.first && nat_le self.now.last other.now.last) }
    {
        other.first <= self.first && self.last <= other.last
    }

    // The ids that both have, None where there are none.
    pub(crate) fn common(&self, other: &Interval) -> Option<Interval>
        ensures { result ≡ in_common self.now other.now }
    {
        let ids = Interval {
            first: max(self.first, other.first),
            last: min(self.last, other.last),
        };
        if ids.first <= ids.last {
            Some(ids)
        } else {
            None
        }
    }

    // No id lies between its end and where the next begins.
    pub(crate) fn reaches(&self, next: &Interval) -> bool
        ensures { result ≡ reaches self.now next.now }
    {
        u64::from(next.first) <= u64::from(self.last) + 1
    }

    // It goes on to where the next ends, if that is later.
    pub(crate) fn joined(&self, next: &Interval) -> Interval
        ensures { result ≡ joined self.now next.now }
    {
        Interval {
            first: self.first,
            last: max(self.last, next.last),
        }
    }

    // How many ids it has.
    pub(crate) fn count(&self) -> u64
        requires { self.now.first ≤ self.now.last }
        ensures { result ≡ self.now.last - self.now.first + 1 }
    {
        u64::from(self.last - self.first) + 1
    }
}
