// The spaces as a tree: how deep a space is nested, which spaces are above it, and the power of a member over it. Each
// walks up the chain of a space once, from parent to parent.
ghost use Rattle.std.specs.Prelude.{◌≡◌, ◌<◌, length};
ghost use Rattle.model_cred.specs.Space.{is_at_or_above, level as nested};
ghost use Rattle.model_cred.specs.IdMap.{is_the};
ghost use Rattle.model_rules.specs.Power.{gives_power, over as has_power};

use crate::{Space, Spaces};
use cm_base::{Cap, CapWord, Kuid, SpaceId};

impl Spaces {
    /// How deep a space that stands is nested: 0 for the initial one (user_namespaces(7)). It takes no memory.
    pub fn level(&self, s: SpaceId) -> u32
        requires { s.0 < length self.now }
        ensures { result ≡ nested self.now s.0 }
    {
        let mut above = 0;
        let mut at = s;
        loop {
            match self.parent(at) {
                Some(parent) => {
                    above += 1;
                    at = parent;
                }
                None => return above,
            }
        }
    }

    /// The first space is the second, which stands, or above it. It takes no memory.
    pub fn ancestor(&self, a: SpaceId, s: SpaceId) -> bool
        requires { s.0 < length self.now }
        ensures { result ≡ is_at_or_above self.now a.0 s.0 }
    {
        let mut at = s;
        loop {
            let parent = self.parent(at);
            if at.0 == a.0 {
                return true;
            }
            match parent {
                Some(parent) => at = parent,
                None => return false,
            }
        }
    }

    /// A process in the space `member` with that effective set and effective user id has the capability over the target,
    /// which stands (user_namespaces(7), "Capabilities"). It takes no memory.
    pub fn over(&self, member: SpaceId, eff: CapWord, euid: Kuid, c: Cap, target: SpaceId) -> bool
        requires { target.0 < length self.now }
        ensures { result ≡ has_power self.now member.0 eff euid c target.0 }
    {
        let mut at = target;
        loop {
            let parent = self.parent(at);
            if self.gives(member, eff, euid, c, at) {
                return true;
            }
            match parent {
                Some(parent) => at = parent,
                None => return false,
            }
        }
    }

    // The space is the member's own, where the capability is effective, or the member owns it.
    fn gives(&self, member: SpaceId, eff: CapWord, euid: Kuid, c: Cap, at: SpaceId) -> bool
        requires { at.0 < length self.now }
        ensures { result ≡ gives_power self.now member.0 eff euid c at.0 }
    {
        if at.0 == member.0 && eff.holds(c) {
            return true;
        }
        match self.get(at) {
            Some(space) => space.has_parent(member) && space.owner == euid,
            None => false,
        }
    }
}

impl Space {
    /// The space has a parent, and it is that one. It takes no memory.
    pub fn has_parent(&self, of: SpaceId) -> bool
        ensures { result ≡ is_the self.now.parent of.0 }
    {
        match self.parent {
            Some(p) => p.0 == of.0,
            None => false,
        }
    }
}
