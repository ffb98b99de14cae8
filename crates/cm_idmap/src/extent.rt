// One line of an id map (user_namespaces(7), "User and group ID mappings: uid_map and gid_map"). Whether a list of lines
// is a map is left to `BadMap`.
use std::marker::Model;

/// The ids of a user namespace from `inside` on, `length` many, stand for those from `outside` on.
#[derive(Clone, Copy, Debug, PartialEq, Eq)]
pub struct Extent {
    pub inside: u32,
    pub outside: u32,
    pub length: u32,
}

impl Model for Extent {
    ghost use Rattle.model_cred.specs.IdMap as model;

    ghost Value = { model.Extent };

    ghost view = { λ e. record { inside = e.inside; outside = e.outside; length = e.length } };

    ghost inverse = { λ e. record { inside = e.inside; outside = e.outside; length = e.length } };
}
