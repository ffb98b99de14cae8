// Sets of capabilities in one word, and the securebits in one byte.
ghost use Rattle.std.specs.Prelude.{◌≡◌, ◌≢◌, bit_and, IsTrue, ◌↔◌};
ghost use Rattle.cm_base.specs.CapSet.{IsCapSet, holds, union, meet, is_within, with as with_cap, without as without_cap, none, full, minus as less};

use crate::Cap;
use crate::limits::ALL_CAPS;
use std::marker::Model;

/// A set of capabilities (capabilities(7), "Thread capability sets"), of which only 0 to 40 are ever held.
#[derive(Clone, Copy, Debug, PartialEq, Eq)]
pub struct CapWord(u64);

impl Model for CapWord {
    ghost use Rattle.std.specs.Prelude.{ℕ};
    ghost use Rattle.cm_base.specs.CapSet.{IsCapSet};

    ghost Value = { ℕ };

    ghost view = { λ w. w.0 };

    ghost invariant = { λ w. IsCapSet w.0 };

    ghost inverse = { λ n. record { 0 = n } };
}

#[tactic(auto, using(crate::proofs::CapSets::kept_sets))]
impl CapWord {
    /// The set of the bits 0 to 40; the other bits are dropped.
    pub fn from_bits(bits: u64) -> CapWord
        ensures { result ≡ meet bits full }
    {
        CapWord(bits & ALL_CAPS)
    }

    /// The set as a word, bit k for capability k.
    pub fn bits(self) -> u64
        ensures value { result ≡ self }
        ensures range { IsCapSet result }
    {
        self.0
    }

    /// The set of none.
    pub fn empty() -> CapWord
        ensures { result ≡ none }
    {
        CapWord(0)
    }

    /// The set of all 41.
    pub fn full() -> CapWord
        ensures { result ≡ full }
    {
        CapWord(ALL_CAPS)
    }

    /// What is in both.
    pub fn meet(self, other: CapWord) -> CapWord
        ensures { result ≡ meet self other }
    {
        CapWord(self.0 & other.0)
    }

    /// What is in the one or in the other.
    pub fn union(self, other: CapWord) -> CapWord
        ensures { result ≡ union self other }
    {
        CapWord(self.0 | other.0)
    }

    /// What is in this set and not in the other.
    pub fn minus(self, other: CapWord) -> CapWord
        ensures { result ≡ less self other }
    {
        CapWord(self.0 ^ (self.0 & other.0))
    }

    /// Each member is a member of the other.
    pub fn within(self, other: CapWord) -> bool
        ensures { result ≡ is_within self other }
    {
        self.0 & other.0 == self.0
    }

    /// The capability is in the set.
    pub fn holds(self, c: Cap) -> bool
        ensures { result ≡ holds self c }
    {
        self.0 >> c.number() & 1 == 1
    }

    /// The set and the capability.
    pub fn with(self, c: Cap) -> CapWord
        ensures { result ≡ with_cap self c }
    {
        CapWord(self.0 | 1 << c.number())
    }

    /// The set less the capability; the set itself where it isn't a member.
    pub fn without(self, c: Cap) -> CapWord
        ensures { result ≡ without_cap self c }
    {
        CapWord(self.0 ^ (self.0 & 1 << c.number()))
    }
}

/// The securebits flags of a process (capabilities(7), "The securebits flags"); each byte is one.
#[derive(Clone, Copy, Debug, PartialEq, Eq)]
pub struct SecBits(pub u8);

impl SecBits {
    /// SECBIT_NOROOT (capabilities(7), "The securebits flags").
    pub const NOROOT: u8 = 0x01;

    /// SECBIT_NO_SETUID_FIXUP (capabilities(7), "The securebits flags").
    pub const NO_SETUID_FIXUP: u8 = 0x04;

    /// SECBIT_KEEP_CAPS (capabilities(7), "The securebits flags").
    pub const KEEP_CAPS: u8 = 0x10;

    /// SECBIT_KEEP_CAPS_LOCKED (capabilities(7), "The securebits flags").
    pub const KEEP_CAPS_LOCKED: u8 = 0x20;

    /// SECBIT_NO_CAP_AMBIENT_RAISE (capabilities(7), "The securebits flags").
    pub const NO_CAP_AMBIENT_RAISE: u8 = 0x40;

    /// One of these bits is set; of several, it needn't be all.
    pub fn has(self, bit: u8) -> bool
        ensures { IsTrue result ↔ (bit_and self.0 bit ≢ 0) }
    {
        self.0 & bit != 0
    }

    /// The flags as a byte.
    pub fn bits(self) -> u8
        ensures { result ≡ self.0 }
    {
        self.0
    }
}
