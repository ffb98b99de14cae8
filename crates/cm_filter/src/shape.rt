// The shapes of calls: what a call has as its arguments.

/// Which arguments a call has.
#[derive(Clone, Copy, Debug, PartialEq, Eq)]
pub enum Shape {
    /// None.
    Bare,
    /// An id.
    OneId,
    TwoIds,
    ThreeIds,
    /// Any number of ids.
    ManyIds,
    /// Three sets of capabilities: the effective, the permitted, the inheritable one.
    ThreeSets,
    /// A capability.
    OneCap,
    /// A number.
    OneNumber,
    /// A user namespace.
    OneSpace,
    /// A user namespace, and a word of a setgroups file.
    SpaceAndWord,
    /// A user namespace, and the extents of a map.
    SpaceAndMap,
    /// A file.
    OneFile,
    /// Any number of kinds of calls.
    ManyKinds,
}
