// The calls that change the ambient set (prctl(2), PR_CAP_AMBIENT), which stays within the permitted and the inheritable
// set (capabilities(7), "Thread capability sets").
ghost use Rattle.std.specs.Prelude.{◌≡◌};
ghost use Rattle.cm_base.specs.declared.errno.Errno.{Errno};
ghost use Rattle.cm_base.specs.declared.res.Res.TheVariants.{Err};
ghost use Rattle.model_rules.specs.CapCalls as model;

use crate::numbers::capability;
use cm_base::{Cap, CapWord, Errno, Res, SecBits};
use cm_state::Cred;

/// PR_CAP_AMBIENT_RAISE of prctl(2) on the capability of that number: `Done`, or `EINVAL` past 40, then `EPERM` where it
/// isn't permitted, isn't inheritable, or SECBIT_NO_CAP_AMBIENT_RAISE is set (the order is a choice). Done, the capability
/// is ambient, and nothing else changes. A refusal leaves the credential as it was.
#[tactic(auto, using(crate::proofs::AmbientSets::with_within))]
pub fn amb_raise(c: &mut Cred, n: u32) -> Res
    ensures res { result ≡ (model.amb_raise c.old n).res }
    ensures cred { c.new ≡ (model.amb_raise c.old n).cred }
    ensures unchanged { (e : Errno) → result ≡ Err e → c.new ≡ c.old }
{
    let Some(cap) = capability(n) else {
        return Res::Err(Errno::EINVAL);
    };
    if !may_raise(c, cap) {
        return Res::Err(Errno::EPERM);
    }
    c.amb = c.amb.with(cap);
    Res::Done
}

/// PR_CAP_AMBIENT_LOWER of prctl(2) on the capability of that number: `Done`, also where it isn't ambient, or `EINVAL`
/// past 40. Done, the capability isn't ambient, and nothing else changes. A refusal leaves the credential as it was.
#[tactic(auto, using(crate::proofs::AmbientSets::without_within))]
pub fn amb_lower(c: &mut Cred, n: u32) -> Res
    ensures res { result ≡ (model.amb_lower c.old n).res }
    ensures cred { c.new ≡ (model.amb_lower c.old n).cred }
    ensures unchanged { (e : Errno) → result ≡ Err e → c.new ≡ c.old }
{
    let Some(cap) = capability(n) else {
        return Res::Err(Errno::EINVAL);
    };
    c.amb = c.amb.without(cap);
    Res::Done
}

/// PR_CAP_AMBIENT_CLEAR_ALL of prctl(2): `Done`, and no capability is ambient; nothing else changes.
pub fn amb_clear(c: &mut Cred) -> Res
    ensures res { result ≡ (model.amb_clear c.old).res }
    ensures cred { c.new ≡ (model.amb_clear c.old).cred }
{
    c.amb = CapWord::empty();
    Res::Done
}

// The capability may be made ambient.
fn may_raise(c: &Cred, cap: Cap) -> bool
    ensures { result ≡ model.may_raise c.now cap }
{
    c.prm.holds(cap) && c.inh.holds(cap) && !c.sec.has(SecBits::NO_CAP_AMBIENT_RAISE)
}
