// The rights that a process may hold, and that an audit asks for.
use cm_base::{Cap, Kgid, Kuid, SpaceId};

/// A right that a process may hold: a capability over a space, an effective user id, or a group id.
#[derive(Clone, Copy, Debug, PartialEq, Eq)]
pub enum Right {
    Cap(Cap, SpaceId),
    Uid(Kuid),
    Gid(Kgid),
}
