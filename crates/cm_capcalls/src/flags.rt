// The calls that set one flag: SECBIT_KEEP_CAPS by its older name (prctl(2), PR_SET_KEEPCAPS), and no_new_privs (prctl(2),
// PR_SET_NO_NEW_PRIVS).
ghost use Rattle.std.specs.Prelude.{◌≡◌};
ghost use Rattle.cm_base.specs.declared.errno.Errno.{Errno};
ghost use Rattle.cm_base.specs.declared.res.Res.TheVariants.{Err};
ghost use Rattle.model_rules.specs.CapCalls.{with_keep_caps, set_keep_caps, set_no_new_privs};

use cm_base::{Errno, Res, SecBits};
use cm_state::Cred;

/// PR_SET_KEEPCAPS of prctl(2), 0 to clear SECBIT_KEEP_CAPS and 1 to set it: `Done`, or `EINVAL` for another argument, then
/// `EPERM` where SECBIT_KEEP_CAPS_LOCKED is set (the order is a choice). Nothing but this flag changes. A refusal leaves
/// the credential as it was.
pub fn keep_caps(c: &mut Cred, v: u32) -> Res
    ensures res { result ≡ (set_keep_caps c.old v).res }
    ensures cred { c.new ≡ (set_keep_caps c.old v).cred }
    ensures unchanged { (e : Errno) → result ≡ Err e → c.new ≡ c.old }
{
    if v > 1 {
        return Res::Err(Errno::EINVAL);
    }
    if c.sec.has(SecBits::KEEP_CAPS_LOCKED) {
        return Res::Err(Errno::EPERM);
    }
    if v == 0 {
        c.clear_keep_caps()
    } else {
        put_keep_caps(c)
    }
    Res::Done
}

/// PR_SET_NO_NEW_PRIVS of prctl(2): `Done`, and no_new_privs is set, or `EINVAL` for another argument than 1, so that this
/// call never clears it. Nothing else changes. A refusal leaves the credential as it was.
pub fn no_new_privs(c: &mut Cred, v: u32) -> Res
    ensures res { result ≡ (set_no_new_privs c.old v).res }
    ensures cred { c.new ≡ (set_no_new_privs c.old v).cred }
    ensures unchanged { (e : Errno) → result ≡ Err e → c.new ≡ c.old }
{
    if v != 1 {
        return Res::Err(Errno::EINVAL);
    }
    c.nnp = true;
    Res::Done
}

fn put_keep_caps(c: &mut Cred)
    ensures { c.new ≡ with_keep_caps c.old }
{
    c.sec = SecBits(c.sec.bits() | SecBits::KEEP_CAPS);
}
