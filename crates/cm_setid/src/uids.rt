// The calls that set user ids: the rules of the four ids, with CAP_SETUID and the caller's map of user ids, and then the
// fixups of the sets.
ghost use Rattle.std.specs.Prelude.{◌≡◌, Result};
ghost use Rattle.cm_base.specs.declared.errno.Errno.{Errno};
ghost use Rattle.cm_base.specs.declared.res.Res.TheVariants.{Err};
ghost use Rattle.model_rules.specs.SetId.{has_setuid as model_has_setuid, with_uids, setresuid, setreuid, setuid, setfsuid};

use crate::fixups::{fix_up, fix_up_fs};
use crate::four::{seen, set_fsid, set_id, set_reid, set_resid};
use cm_base::{Cap, Errno, Res};
use cm_state::{Cred, FourIds, Space};

/// setuid(2) in the caller's space: `Done`, or `EINVAL` for an id without a mapping, as -1, or `EPERM` where without
/// CAP_SETUID the id is neither the real nor the saved one. A refusal leaves the credential as it was.
pub fn set_uid(c: &mut Cred, s: &Space, uid: u32) -> Res
    ensures res { result ≡ (setuid s.now c.old uid).res }
    ensures cred { c.new ≡ (setuid s.now c.old uid).cred }
    ensures unchanged { (e : Errno) → result ≡ Err e → c.new ≡ c.old }
{
    let new = set_id(&s.uids, has_setuid(c), c.user_ids(), uid);
    leave(c, s, new)
}

/// setreuid(2) in the caller's space; -1 leaves an id: `Done`, or `EINVAL` for a given id without a
/// mapping, or `EPERM` where without CAP_SETUID the real id is neither the real nor the effective one, or the effective
/// id none of the real, effective and saved one. A refusal leaves the credential as it was.
pub fn set_reuid(c: &mut Cred, s: &Space, r: u32, e: u32) -> Res
    ensures res { result ≡ (setreuid s.now c.old r e).res }
    ensures cred { c.new ≡ (setreuid s.now c.old r e).cred }
    ensures unchanged { (e : Errno) → result ≡ Err e → c.new ≡ c.old }
{
    let new = set_reid(&s.uids, has_setuid(c), c.user_ids(), r, e);
    leave(c, s, new)
}

/// setresuid(2) in the caller's space; -1 leaves an id: `Done`, or `EINVAL` for a given id without
/// a mapping, or `EPERM` where without CAP_SETUID one is none of the real, effective and saved id. A refusal leaves the
/// credential as it was.
pub fn set_resuid(c: &mut Cred, s: &Space, r: u32, e: u32, v: u32) -> Res
    ensures res { result ≡ (setresuid s.now c.old r e v).res }
    ensures cred { c.new ≡ (setresuid s.now c.old r e v).cred }
    ensures unchanged { (e : Errno) → result ≡ Err e → c.new ≡ c.old }
{
    let new = set_resid(&s.uids, has_setuid(c), c.user_ids(), r, e, v);
    leave(c, s, new)
}

/// setfsuid(2) in the caller's space: the fs id from before as the space sees it, 65534 where it has no mapping. It has
/// no error: an id that isn't mapped, or that is none of the four where the caller lacks CAP_SETUID, changes nothing.
pub fn set_fsuid(c: &mut Cred, s: &Space, f: u32) -> Res
    ensures res { result ≡ (setfsuid s.now c.old f).res }
    ensures cred { c.new ≡ (setfsuid s.now c.old f).cred }
{
    let old = c.user_ids();
    let new = set_fsid(&s.uids, has_setuid(c), old, f);
    c.put_user_ids(new);
    fix_up_fs(c, s, old.fs);
    Res::Id(seen(&s.uids, old.fs))
}

// The caller may set user ids as it likes.
#[inline]
fn has_setuid(c: &Cred) -> bool
    ensures { result ≡ model_has_setuid c.now }
{
    c.eff.holds(Cap::SETUID)
}

// What the call leaves: the new ids and the fixups, or everything as it was.
fn leave(c: &mut Cred, s: &Space, new: Result<FourIds, Errno>) -> Res
    ensures res { result ≡ (with_uids s.now c.old new).res }
    ensures cred { c.new ≡ (with_uids s.now c.old new).cred }
    ensures unchanged { (e : Errno) → result ≡ Err e → c.new ≡ c.old }
{
    match new {
        Ok(ids) => {
            let old = c.user_ids();
            c.put_user_ids(ids);
            fix_up(c, s, old);
            Res::Done
        }
        Err(e) => Res::Err(e),
    }
}
