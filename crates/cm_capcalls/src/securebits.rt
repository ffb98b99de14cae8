// The call that sets all securebits (prctl(2), PR_SET_SECUREBITS; capabilities(7), "The securebits flags").
// Each of the four flags has a lock, the bit above it: a lock that is set stays set, and its flag stays as it is.
ghost use Rattle.std.specs.Prelude.{◌≡◌, ◌==◌, bit_and, bit_xor};
ghost use Rattle.cm_base.specs.CapSet.{is_within};
ghost use Rattle.cm_base.specs.declared.errno.Errno.{Errno};
ghost use Rattle.cm_base.specs.declared.res.Res.TheVariants.{Err};
ghost use Rattle.model_rules.specs.CapCalls as model;
ghost use Rattle.model_rules.specs.Securebits.{locks, locked_flags};

use crate::capset::has_setpcap;
use cm_base::{Errno, Res, SecBits};
use cm_state::Cred;

// SECBIT_NOROOT_LOCKED, SECBIT_NO_SETUID_FIXUP_LOCKED, SECBIT_KEEP_CAPS_LOCKED and SECBIT_NO_CAP_AMBIENT_RAISE_LOCKED.
const LOCKS: u32 = 0xaa;

// The four flags and their locks.
const ALL: u32 = 0xff;

/// PR_SET_SECUREBITS of prctl(2): `Done`, or `EPERM` without CAP_SETPCAP, where a locked flag would change, where a lock
/// would be cleared, or for a bit above 0xff (choice). Done, the securebits are these, and nothing else changes. A
/// refusal leaves the credential as it was.
pub fn secure_bits(c: &mut Cred, bits: u32) -> Res
    ensures res { result ≡ (model.secure_bits c.old bits).res }
    ensures cred { c.new ≡ (model.secure_bits c.old bits).cred }
    ensures unchanged { (e : Errno) → result ≡ Err e → c.new ≡ c.old }
{
    if !may_secure(c, bits) {
        return Res::Err(Errno::EPERM);
    }
    c.sec = SecBits(bits as u8);
    Res::Done
}

// The new securebits are allowed.
fn may_secure(c: &Cred, bits: u32) -> bool
    ensures { result ≡ model.may_secure c.now bits }
{
    let old = u32::from(c.sec.bits());
    has_setpcap(c) && keeps_locked(old, bits) && keeps_locks(old, bits) && bits <= ALL
}

// No flag changes whose lock is set.
fn keeps_locked(old: u32, new: u32) -> bool
    ensures { result ≡ (bit_and (bit_xor old new) (locked_flags old) == 0) }
{
    (old ^ new) & (old & LOCKS) / 2 == 0
}

// No lock is cleared.
fn keeps_locks(old: u32, new: u32) -> bool
    ensures { result ≡ is_within (bit_and old locks) new }
{
    old & LOCKS & new == old & LOCKS
}
