// The credentials of a process (credentials(7), capabilities(7)).
use crate::Groups;
use cm_base::{CapWord, Kgid, Kuid, NoMemory, SecBits};
use std::alloc::Global;
use std::marker::Model;

/// The credentials of a process: real, effective, saved and fs ids of user and group, the supplementary groups, the
/// inheritable, permitted, effective, bounding and ambient set, the securebits, and whether no_new_privs is set.
/// The effective set is within the permitted one, the ambient set within the permitted and the inheritable one.
#[derive(Debug, Drop)]
pub struct Cred {
    pub ruid: Kuid,
    pub euid: Kuid,
    pub suid: Kuid,
    pub fsuid: Kuid,
    pub rgid: Kgid,
    pub egid: Kgid,
    pub sgid: Kgid,
    pub fsgid: Kgid,
    pub groups: Groups,
    pub inh: CapWord,
    pub prm: CapWord,
    pub eff: CapWord,
    pub bnd: CapWord,
    pub amb: CapWord,
    pub sec: SecBits,
    pub nnp: bool,
}

impl Model for Cred {
    ghost use Rattle.std.specs.Prelude.{◌≡◌, true};
    ghost use Rattle.cm_base.specs.CapSet.{is_within};
    ghost use Rattle.model_cred.specs.Credential.{Credential};

    ghost Value = { Credential };

    ghost view = { λ c. record {
      uid = record { real = c.ruid; effective = c.euid; saved = c.suid; fs = c.fsuid };
      gid = record { real = c.rgid; effective = c.egid; saved = c.sgid; fs = c.fsgid };
      groups = c.groups;
      inheritable = c.inh;
      permitted = c.prm;
      effective = c.eff;
      bounding = c.bnd;
      ambient = c.amb;
      securebits = c.sec.0;
      no_new_privs = c.nnp;
    } };

    ghost invariant = { λ c. (is_within c.eff c.prm ≡ true) × (is_within c.amb c.prm ≡ true) × (is_within c.amb c.inh ≡ true) };
}

impl Cred {
    ghost use Rattle.std.specs.Prelude.{◌≡◌, []};
    ghost use Rattle.cm_base.specs.Outcome.{OrNoMemory};
    ghost use Rattle.model_rules.specs.CapCalls.{without_keep_caps};

    /// The same credentials. It fails only where memory runs out.
    pub fn copy(&self, alloc: Global) -> Result<Cred, NoMemory>
        ensures { OrNoMemory result (λ c. c ≡ self.now) }
    {
        let groups = self.groups.copy(alloc)?;
        let mut c = self.without_groups(alloc);
        c.groups = groups;
        Ok(c)
    }

    /// The same credentials but with no supplementary group. It takes no memory.
    #[inline]
    pub fn without_groups(&self, alloc: Global) -> Cred
        ensures { result ≡ record self.now { groups = [] } }
    {
        Cred {
            ruid: self.ruid,
            euid: self.euid,
            suid: self.suid,
            fsuid: self.fsuid,
            rgid: self.rgid,
            egid: self.egid,
            sgid: self.sgid,
            fsgid: self.fsgid,
            groups: Groups::empty(alloc),
            inh: self.inh,
            prm: self.prm,
            eff: self.eff,
            bnd: self.bnd,
            amb: self.amb,
            sec: self.sec,
            nnp: self.nnp,
        }
    }

    /// Clears SECBIT_KEEP_CAPS; all else stays. It takes no memory.
    pub fn clear_keep_caps(&mut self)
        ensures { self.new ≡ without_keep_caps self.old }
    {
        let old = self.sec.bits();
        self.sec = SecBits(old ^ (old & SecBits::KEEP_CAPS));
    }
}
