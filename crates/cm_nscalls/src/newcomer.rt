// Who comes into a space by making or joining it (user_namespaces(7), "Capabilities").
ghost use Rattle.std.specs.Prelude.{◌≡◌};
ghost use Rattle.model_rules.specs.Namespaces.{as_newcomer};

use cm_base::{CapWord, SecBits};
use cm_state::Cred;

/// All capabilities, and no securebits; the ids, the groups and no_new_privs stay. It takes no memory.
pub fn come_in(c: &mut Cred)
    ensures { c.new ≡ as_newcomer c.old }
{
    c.prm = CapWord::full();
    c.eff = CapWord::full();
    c.bnd = CapWord::full();
    c.amb = CapWord::empty();
    c.inh = CapWord::empty();
    c.sec = SecBits(0);
}
