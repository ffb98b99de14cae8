// The call that sets the effective, permitted and inheritable sets (capset(2); capabilities(7), "Programmatically
// adjusting capability sets"). What is no longer permitted or inheritable is no longer ambient.
ghost use Rattle.std.specs.Prelude.{◌≡◌, true};
ghost use Rattle.cm_base.specs.CapSet.{is_within};
ghost use Rattle.cm_base.specs.declared.errno.Errno.{Errno};
ghost use Rattle.cm_base.specs.declared.res.Res.TheVariants.{Err};
ghost use Rattle.model_rules.specs.CapCalls.{has_setpcap as setpcap, may_capset as allowed, with_capset, capset};

use cm_base::{Cap, CapWord, Errno, Res};
use cm_state::Cred;

/// capset(2) with these effective, permitted and inheritable sets: `Done`, or `EPERM` where without CAP_SETPCAP the
/// inheritable set isn't within the old inheritable and permitted ones, where it isn't within the old inheritable and
/// bounding ones, where the permitted set isn't within the old one, or the effective set not within the permitted one.
/// Done, the three sets are these, and the ambient set has lost what is no longer permitted or inheritable; nothing else
/// changes. A refusal leaves the credential as it was.
pub fn cap_set(c: &mut Cred, eff: CapWord, prm: CapWord, inh: CapWord) -> Res
    ensures res { result ≡ (capset c.old eff prm inh).res }
    ensures cred { c.new ≡ (capset c.old eff prm inh).cred }
    ensures unchanged { (e : Errno) → result ≡ Err e → c.new ≡ c.old }
{
    if !may_set(c, eff, prm, inh) {
        return Res::Err(Errno::EPERM);
    }
    put_sets(c, eff, prm, inh);
    Res::Done
}

// The caller has CAP_SETPCAP.
#[inline]
pub(crate) fn has_setpcap(c: &Cred) -> bool
    ensures { result ≡ setpcap c.now }
{
    c.eff.holds(Cap::SETPCAP)
}

// The new sets are allowed.
fn may_set(c: &Cred, eff: CapWord, prm: CapWord, inh: CapWord) -> bool
    ensures { result ≡ allowed c.now eff prm inh }
{
    (has_setpcap(c) || inh.within(c.inh.union(c.prm)))
        && inh.within(c.inh.union(c.bnd))
        && prm.within(c.prm)
        && eff.within(prm)
}

// The three sets become these, and the ambient set loses what they don't hold.
#[tactic(auto, using(crate::proofs::AmbientSets::cut_within_first, cm_base::proofs::CapSets::meet_within_second))]
fn put_sets(c: &mut Cred, eff: CapWord, prm: CapWord, inh: CapWord)
    requires { is_within eff prm ≡ true }
    ensures { c.new ≡ with_capset c.old eff prm inh }
{
    c.eff = eff;
    c.prm = prm;
    c.inh = inh;
    c.amb = c.amb.meet(prm).meet(inh);
}
