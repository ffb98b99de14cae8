// The supplementary groups of a process (credentials(7)): ascending, each once.
ghost use Rattle.std.specs.Prelude.{◌≡◌, ◌==◌, [], All};
ghost use Rattle.std.specs.List.{list_any};
ghost use Rattle.cm_base.specs.Outcome.{OrNoMemory};
ghost use Rattle.model_cred.specs.Credential.{AscendFrom, IsId, id_set};

use cm_base::{Kgid, NoMemory};
use std::alloc::Global;
use std::marker::Model;

/// A set of group ids, kept ascending and without repeats.
#[derive(Debug, Drop)]
pub struct Groups {
    items: Vec<Kgid>,
}

impl Model for Groups {
    ghost use Rattle.std.specs.Prelude.{ℕ, List};
    ghost use Rattle.model_cred.specs.Credential.{AscendFrom};

    ghost Value = { List ℕ };

    ghost view = { λ g. g.items.items };

    ghost invariant = { λ g. ∥ AscendFrom 0 g.items.items ∥₁ };
}

// Each of the list is an id. It does nothing but ask each for its number, whose range a proof knows from there.
fn see_ids(list: &[Kgid])
    ensures { All IsId list.now }
{
    for id in list {
        id.number();
    }
}

// Sorts the ids and drops the repeats: what is left is their set.
fn sort_once(ids: &mut Vec<Kgid>)
    ensures set { ids.new.items ≡ id_set ids.old.items }
    ensures ascends { ∥ AscendFrom 0 ids.new.items ∥₁ }
{
    see_ids(ids);
    ids.sort_unstable();
    ids.dedup();
}

impl Groups {
    /// No group.
    pub fn empty(alloc: Global) -> Groups
        ensures { result ≡ [] }
    {
        Groups {
            items: Vec::new(alloc),
        }
    }

    /// The set of just the ids of the list, in whatever order they stand there and however often. It fails only where
    /// memory runs out.
    pub fn make(alloc: Global, list: &[Kgid]) -> Result<Groups, NoMemory>
        ensures { OrNoMemory result (λ g. g ≡ id_set list.now) }
    {
        let mut items = Vec::from_slice(alloc, list)?;
        sort_once(&mut items);
        Ok(Groups { items })
    }

    /// The same groups. It fails only where memory runs out.
    pub fn copy(&self, alloc: Global) -> Result<Groups, NoMemory>
        ensures { OrNoMemory result (λ g. g ≡ self.now) }
    {
        let list = Vec::from_slice(alloc, self.items.as_slice())?;
        Ok(Groups { items: list })
    }

    /// The group is one of these. It is looked for by halves, and takes no memory.
    pub fn has(&self, id: Kgid) -> bool
        ensures { result ≡ list_any (λ group. group == id) self.now }
    {
        self.items.binary_search(&id).is_ok()
    }

    // The ids are ids, and ascend. It does nothing but look at them.
    pub(crate) fn see(&self)
        ensures { AscendFrom 0 self.now }
    {
        let _ = &self.items;
    }

    /// The ids, ascending.
    pub fn items(&self) -> &[Kgid]
        ensures { result.now ≡ self.now }
    {
        &self.items
    }
}
