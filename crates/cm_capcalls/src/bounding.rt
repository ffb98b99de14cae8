// The call that drops a capability from the bounding set (prctl(2), PR_CAPBSET_DROP; capabilities(7), "Capability bounding
// set"). The inheritable and the permitted set keep it.
ghost use Rattle.std.specs.Prelude.{◌≡◌};
ghost use Rattle.cm_base.specs.declared.errno.Errno.{Errno};
ghost use Rattle.cm_base.specs.declared.res.Res.TheVariants.{Err};
ghost use Rattle.model_rules.specs.CapCalls as model;

use crate::capset::has_setpcap;
use crate::numbers::capability;
use cm_base::{Errno, Res};
use cm_state::Cred;

/// PR_CAPBSET_DROP of prctl(2) on the capability of that number: `Done`, or `EPERM` without CAP_SETPCAP, then `EINVAL`
/// past 40 (the order is a choice). Done, the bounding set has lost the capability, and nothing else changes. A refusal
/// leaves the credential as it was.
pub fn bset_drop(c: &mut Cred, n: u32) -> Res
    ensures res { result ≡ (model.bset_drop c.old n).res }
    ensures cred { c.new ≡ (model.bset_drop c.old n).cred }
    ensures unchanged { (e : Errno) → result ≡ Err e → c.new ≡ c.old }
{
    if !has_setpcap(c) {
        return Res::Err(Errno::EPERM);
    }
    let Some(cap) = capability(n) else {
        return Res::Err(Errno::EINVAL);
    };
    c.bnd = c.bnd.without(cap);
    Res::Done
}
