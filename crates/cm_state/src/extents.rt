// A list of extents as a caller writes it to uid_map or gid_map (user_namespaces(7)). Whether it is a map is left to
// `IdMap`.
use cm_idmap::Extent;
use std::marker::Model;

/// A list of extents as it was given, in its order.
#[derive(Debug, Drop)]
pub struct Extents {
    list: Vec<Extent>,
}

impl Model for Extents {
    ghost use Rattle.std.specs.Prelude.{List};
    ghost use Rattle.model_cred.specs.IdMap as model;

    ghost Value = { List model.Extent };

    ghost view = { λ extents. extents.list.items };
}

impl Extents {
    ghost use Rattle.std.specs.Prelude.{◌≡◌};

    /// These extents, as they stand in the list. It takes no memory.
    pub fn from_vec(list: Vec<Extent>) -> Extents
        ensures { result ≡ list.items }
    {
        Extents { list }
    }

    /// The extents, as they were given. It takes no memory.
    pub fn items(&self) -> &[Extent]
        ensures { result.now ≡ self.now }
    {
        &self.list
    }
}
