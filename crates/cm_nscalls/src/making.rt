// Making a space (unshare(2) and clone(2) with CLONE_NEWUSER).
ghost use Rattle.std.specs.Prelude.{◌≡◌, ◌<◌, length};
ghost use Rattle.cm_base.specs.Limits.{greatest_number};
ghost use Rattle.cm_base.specs.Outcome.{OrNoMemory, UnchangedOnErr};
ghost use Rattle.cm_base.specs.declared.errno.Errno.{Errno};
ghost use Rattle.cm_base.specs.declared.res.Res.TheVariants.{Done, Err};
ghost use Rattle.cm_nscalls.specs.Answers.{res_of};
ghost use Rattle.model_cred.specs.Call.{Unshare};
ghost use Rattle.model_rules.specs.Namespaces.{unshare, clone_user, created_by as model_created_by, is_mapped_in as model_is_mapped_in};
ghost use Rattle.model_rules.specs.Reply.{spaces_after};

use crate::newcomer::come_in;
use cm_base::{Cap, Errno, NoMemory, Res, SpaceId};
use cm_state::{Cred, Space, Spaces};

// How deep spaces may be nested (user_namespaces(7); that 32 is the deepest level is a choice).
const DEEPEST: u32 = 32;

/// Whether a process in the space `at` may make a space: or `ENOSPC` where its space is at the deepest level, or then
/// `EPERM` where its effective user or group id isn't mapped in it (the order is a choice). It takes no memory.
pub fn may_make(c: &Cred, spaces: &Spaces, at: SpaceId) -> Result<(), Errno>
    requires { at.0 < length spaces.now }
    ensures { res_of result ≡ clone_user spaces.now at.0 c.now }
{
    if spaces.level(at) >= DEEPEST {
        return Err(Errno::ENOSPC);
    }
    if !is_mapped_in(spaces.standing(at), c) {
        return Err(Errno::EPERM);
    }
    Ok(())
}

/// unshare(2) with CLONE_NEWUSER by a process in the space `at`: `Done`, and it has come into the new space, which is the
/// last; or the refusal of `may_make`. Where it is refused or memory runs out, credential and spaces are as they were.
pub fn new_space(c: &mut Cred, spaces: &mut Spaces, at: SpaceId) -> Result<Res, NoMemory>
    requires stands { at.0 < length spaces.old }
    requires room { length spaces.old < greatest_number }
    ensures res { OrNoMemory result (λ r. r ≡ (unshare spaces.old at.0 c.old).res) }
    ensures cred { OrNoMemory result (λ _. c.new ≡ (unshare spaces.old at.0 c.old).cred) }
    ensures spaces { OrNoMemory result (λ _. spaces.new ≡ spaces_after spaces.old at.0 c.old Unshare) }
    ensures refused { OrNoMemory result (λ r. (e : Errno) → r ≡ Err e → (c.new ≡ c.old) × (spaces.new ≡ spaces.old)) }
    ensures unchanged { UnchangedOnErr result c.new c.old }
    ensures same_spaces { UnchangedOnErr result spaces.new spaces.old }
{
    if let Err(why) = may_make(c, spaces, at) {
        return Ok(Res::Err(why));
    }
    let made = created_by(spaces, at, c);
    spaces.add(made)?;
    come_in(c);
    Ok(Res::Done)
}

/// The space that a process in the space `at` makes: that is its parent, the effective user id its owner; it has no maps
/// yet, the setgroups word of the parent, and whether its maker has CAP_SETFCAP. It takes no memory.
pub fn created_by(spaces: &Spaces, at: SpaceId, c: &Cred) -> Space
    requires { at.0 < length spaces.now }
    ensures { result ≡ model_created_by spaces.now at.0 c.now }
{
    Space {
        parent: Some(at),
        owner: c.euid,
        uids: None,
        gids: None,
        deny: spaces.standing(at).deny,
        creator_setfcap: c.eff.holds(Cap::SETFCAP),
    }
}

// The effective user and group id have a mapping in the space.
fn is_mapped_in(s: &Space, c: &Cred) -> bool
    ensures { result ≡ model_is_mapped_in s.now c.now }
{
    s.maps_uid(c.euid) && s.maps_gid(c.egid)
}
