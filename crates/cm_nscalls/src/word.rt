// Writing the setgroups word of a space (user_namespaces(7), "The /proc/pid/setgroups file").
ghost use Rattle.std.specs.Prelude.{◌≡◌, ◌<◌, length};
ghost use Rattle.cm_base.specs.declared.errno.Errno.{Errno};
ghost use Rattle.cm_base.specs.declared.res.Res.TheVariants.{Err};
ghost use Rattle.cm_nscalls.specs.Answers.{res_of};
ghost use Rattle.model_rules.specs.Maps.{write_setgroups as model_write_setgroups, may_say};

use cm_base::{Cap, Errno, Res, SpaceId};
use cm_state::{Cred, Space, Spaces};

/// Whether a process in the space `at` may write the setgroups word of the target: or `EPERM` without CAP_SYS_ADMIN over
/// the target, for "deny" once gid_map is written, and for "allow" once the word is "deny". It takes no memory.
pub fn may_write_word(
    c: &Cred,
    spaces: &Spaces,
    at: SpaceId,
    target: SpaceId,
    deny: bool,
) -> Result<(), Errno>
    requires { target.0 < length spaces.now }
    ensures { res_of result ≡ (model_write_setgroups spaces.now at.0 c.now target.0 deny).res }
{
    if spaces.over(at, c.eff, c.euid, Cap::SYS_ADMIN, target)
        && is_open_to(spaces.standing(target), deny)
    {
        Ok(())
    } else {
        Err(Errno::EPERM)
    }
}

/// A process in the space `at` writes the setgroups word of the target: `Done`, or the refusal of `may_write_word`, which
/// leaves the spaces as they were. It takes no memory.
pub fn write_setgroups(
    c: &Cred,
    spaces: &mut Spaces,
    at: SpaceId,
    target: SpaceId,
    deny: bool,
) -> Res
    requires { target.0 < length spaces.old }
    ensures res { result ≡ (model_write_setgroups spaces.old at.0 c.now target.0 deny).res }
    ensures spaces { spaces.new ≡ (model_write_setgroups spaces.old at.0 c.now target.0 deny).spaces }
    ensures unchanged { (e : Errno) → result ≡ Err e → spaces.new ≡ spaces.old }
{
    match may_write_word(c, spaces, at, target, deny) {
        Ok(()) => {
            spaces.set_deny(target, deny);
            Res::Done
        }
        Err(why) => Res::Err(why),
    }
}

// The space still takes the word.
fn is_open_to(t: &Space, deny: bool) -> bool
    ensures { result ≡ may_say t.now deny }
{
    if deny { t.gids.is_none() } else { !t.deny }
}
