// A list of ids as a caller hands it to setgroups(2). It keeps what was given, order and repeats too; `Groups` is the
// set that the machine makes of it.
use std::marker::Model;

/// A list of ids as the caller's user namespace sees them, or -1: the list as given.
#[derive(Debug, Drop)]
pub struct Ids {
    list: Vec<u32>,
}

impl Model for Ids {
    ghost use Rattle.std.specs.Prelude.{ℕ, List};

    ghost Value = { List ℕ };

    ghost view = { λ ids. ids.list.items };
}

impl Ids {
    ghost use Rattle.std.specs.Prelude.{◌≡◌};

    /// These ids, as they stand in the list. It takes no memory.
    pub fn from_vec(list: Vec<u32>) -> Ids
        ensures { result ≡ list.items }
    {
        Ids { list }
    }

    /// The ids, as they were given. It takes no memory.
    pub fn items(&self) -> &[u32]
        ensures { result.now ≡ self.now }
    {
        &self.list
    }
}
