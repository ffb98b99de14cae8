// Joining a space (setns(2)).
ghost use Rattle.std.specs.Prelude.{◌≡◌, ◌<◌, length};
ghost use Rattle.cm_base.specs.declared.errno.Errno.{Errno};
ghost use Rattle.cm_base.specs.declared.res.Res.TheVariants.{Err};
ghost use Rattle.cm_nscalls.specs.Answers.{res_of};
ghost use Rattle.model_rules.specs.Namespaces.{join};

use crate::newcomer::come_in;
use cm_base::{Cap, Errno, Res, SpaceId};
use cm_state::{Cred, Spaces};

/// Whether a process in the space `at` may come into the target by setns(2): or `EINVAL` for its own space, or then
/// `EPERM` without CAP_SYS_ADMIN over the target. It takes no memory.
pub fn may_join(c: &Cred, spaces: &Spaces, at: SpaceId, target: SpaceId) -> Result<(), Errno>
    requires { target.0 < length spaces.now }
    ensures { res_of result ≡ (join spaces.now at.0 c.now target.0).res }
{
    if target.0 == at.0 {
        return Err(Errno::EINVAL);
    }
    if !spaces.over(at, c.eff, c.euid, Cap::SYS_ADMIN, target) {
        return Err(Errno::EPERM);
    }
    Ok(())
}

/// setns(2) by a process in the space `at`: `Done`, and it has come into the target; or the refusal of `may_join`, which
/// leaves the credential as it was. It takes no memory.
pub fn join_space(c: &mut Cred, spaces: &Spaces, at: SpaceId, target: SpaceId) -> Res
    requires { target.0 < length spaces.now }
    ensures res { result ≡ (join spaces.now at.0 c.old target.0).res }
    ensures cred { c.new ≡ (join spaces.now at.0 c.old target.0).cred }
    ensures unchanged { (e : Errno) → result ≡ Err e → c.new ≡ c.old }
{
    match may_join(c, spaces, at, target) {
        Ok(()) => {
            come_in(c);
            Res::Done
        }
        Err(why) => Res::Err(why),
    }
}
