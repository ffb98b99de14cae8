// The calls that set group ids: the rules of the four ids, with CAP_SETGID and the caller's map of group ids. The sets
// stay as they are.
ghost use Rattle.std.specs.Prelude.{◌≡◌, Result};
ghost use Rattle.cm_base.specs.declared.errno.Errno.{Errno};
ghost use Rattle.cm_base.specs.declared.res.Res.TheVariants.{Err};
ghost use Rattle.model_rules.specs.SetId.{has_setgid as model_has_setgid, with_gids, setresgid, setregid, setgid, setfsgid};

use crate::four::{seen, set_fsid, set_id, set_reid, set_resid};
use cm_base::{Cap, Errno, Res};
use cm_state::{Cred, FourIds, Space};

/// setgid(2) in the caller's space: `Done`, or `EINVAL` for an id without a mapping, as -1, or `EPERM` where without
/// CAP_SETGID the id is neither the real nor the saved one. A refusal leaves the credential as it was.
pub fn set_gid(c: &mut Cred, s: &Space, gid: u32) -> Res
    ensures res { result ≡ (setgid s.now c.old gid).res }
    ensures cred { c.new ≡ (setgid s.now c.old gid).cred }
    ensures unchanged { (e : Errno) → result ≡ Err e → c.new ≡ c.old }
{
    let new = set_id(&s.gids, has_setgid(c), c.group_ids(), gid);
    leave(c, new)
}

/// setregid(2) in the caller's space; -1 leaves an id: `Done`, or `EINVAL` for a given id without a
/// mapping, or `EPERM` where without CAP_SETGID the real id is neither the real nor the effective one, or the effective
/// id none of the real, effective and saved one. A refusal leaves the credential as it was.
pub fn set_regid(c: &mut Cred, s: &Space, r: u32, e: u32) -> Res
    ensures res { result ≡ (setregid s.now c.old r e).res }
    ensures cred { c.new ≡ (setregid s.now c.old r e).cred }
    ensures unchanged { (e : Errno) → result ≡ Err e → c.new ≡ c.old }
{
    let new = set_reid(&s.gids, has_setgid(c), c.group_ids(), r, e);
    leave(c, new)
}

/// setresgid(2) in the caller's space; -1 leaves an id: `Done`, or `EINVAL` for a given id without
/// a mapping, or `EPERM` where without CAP_SETGID one is none of the real, effective and saved id. A refusal leaves the
/// credential as it was.
pub fn set_resgid(c: &mut Cred, s: &Space, r: u32, e: u32, v: u32) -> Res
    ensures res { result ≡ (setresgid s.now c.old r e v).res }
    ensures cred { c.new ≡ (setresgid s.now c.old r e v).cred }
    ensures unchanged { (e : Errno) → result ≡ Err e → c.new ≡ c.old }
{
    let new = set_resid(&s.gids, has_setgid(c), c.group_ids(), r, e, v);
    leave(c, new)
}

/// setfsgid(2) in the caller's space: the fs id from before as the space sees it, 65534 where it has no mapping. It has
/// no error: an id that isn't mapped, or that is none of the four where the caller lacks CAP_SETGID, changes nothing.
pub fn set_fsgid(c: &mut Cred, s: &Space, f: u32) -> Res
    ensures res { result ≡ (setfsgid s.now c.old f).res }
    ensures cred { c.new ≡ (setfsgid s.now c.old f).cred }
{
    let old = c.group_ids();
    let new = set_fsid(&s.gids, has_setgid(c), old, f);
    c.put_group_ids(new);
    Res::Id(seen(&s.gids, old.fs))
}

// The caller may set group ids and the groups as it likes.
#[inline]
pub(crate) fn has_setgid(c: &Cred) -> bool
    ensures { result ≡ model_has_setgid c.now }
{
    c.eff.holds(Cap::SETGID)
}

// What the call leaves: the new ids, or everything as it was.
fn leave(c: &mut Cred, new: Result<FourIds, Errno>) -> Res
    ensures res { result ≡ (with_gids c.old new).res }
    ensures cred { c.new ≡ (with_gids c.old new).cred }
    ensures unchanged { (e : Errno) → result ≡ Err e → c.new ≡ c.old }
{
    match new {
        Ok(ids) => {
            c.put_group_ids(ids);
            Res::Done
        }
        Err(e) => Res::Err(e),
    }
}
