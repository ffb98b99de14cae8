// The four ids that a process has of users, and of groups (credentials(7), "User and group identifiers"), as numbers: what
// holds for both is written once, and where a credential's ids are taken out or put back it shows which they are.
ghost use Rattle.std.specs.Prelude.{◌≡◌};
ghost use Rattle.model_cred.specs.Credential.{IsId, is_one_of_three, all_four};

use crate::Cred;
use cm_base::{Kgid, Kuid};
use std::marker::Model;

/// The real, effective, saved and fs id of a process, as the initial user namespace sees them: 0 to 4294967294.
#[derive(Clone, Copy, Debug, PartialEq, Eq)]
pub struct FourIds {
    pub real: u32,
    pub effective: u32,
    pub saved: u32,
    pub fs: u32,
}

impl Model for FourIds {
    ghost use Rattle.model_cred.specs.Credential.{FourIds, AreIds};

    ghost Value = { FourIds };

    ghost view = { λ ids. record { real = ids.real; effective = ids.effective; saved = ids.saved; fs = ids.fs } };

    ghost invariant = { λ ids. AreIds (record { real = ids.real; effective = ids.effective; saved = ids.saved; fs = ids.fs }) };

    ghost inverse = { λ ids. record { real = ids.real; effective = ids.effective; saved = ids.saved; fs = ids.fs } };
}

impl FourIds {
    /// Four times the one id.
    pub fn all(id: u32) -> FourIds
        requires { IsId id }
        ensures { result ≡ all_four id }
    {
        FourIds {
            real: id,
            effective: id,
            saved: id,
            fs: id,
        }
    }

    /// The id is the real, the effective or the saved one.
    #[inline]
    pub fn has(self, id: u32) -> bool
        ensures { result ≡ is_one_of_three self id }
    {
        id == self.real || id == self.effective || id == self.saved
    }
}

impl Cred {
    /// The four user ids.
    #[inline]
    pub fn user_ids(&self) -> FourIds
        ensures { result ≡ self.now.uid }
    {
        FourIds {
            real: self.ruid.number(),
            effective: self.euid.number(),
            saved: self.suid.number(),
            fs: self.fsuid.number(),
        }
    }

    /// Makes these the four user ids; all else stays.
    #[inline]
    pub fn put_user_ids(&mut self, ids: FourIds)
        ensures { self.new ≡ record self.old { uid = ids } }
    {
        self.ruid = Kuid::of(ids.real);
        self.euid = Kuid::of(ids.effective);
        self.suid = Kuid::of(ids.saved);
        self.fsuid = Kuid::of(ids.fs);
    }

    /// The four group ids.
    #[inline]
    pub fn group_ids(&self) -> FourIds
        ensures { result ≡ self.now.gid }
    {
        FourIds {
            real: self.rgid.number(),
            effective: self.egid.number(),
            saved: self.sgid.number(),
            fs: self.fsgid.number(),
        }
    }

    /// Makes these the four group ids; all else stays.
    #[inline]
    pub fn put_group_ids(&mut self, ids: FourIds)
        ensures { self.new ≡ record self.old { gid = ids } }
    {
        self.rgid = Kgid::of(ids.real);
        self.egid = Kgid::of(ids.effective);
        self.sgid = Kgid::of(ids.saved);
        self.fsgid = Kgid::of(ids.fs);
    }
}
