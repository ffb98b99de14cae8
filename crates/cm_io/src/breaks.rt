// From which places on files in memory are broken.
ghost use Rattle.std.specs.Prelude.{◌≡◌, ◌++◌, ◌∷◌, [], IfOk, OnErr};

use crate::NoMemory;
use std::alloc::Global;

/// Names, each with a place: a read of the name at that place or past it is to fail.
#[derive(Drop)]
pub(crate) struct Breaks {
    rows: Vec<Break>,
}

#[derive(Drop)]
pub(crate) struct Break {
    name: String,
    place: u64,
}

impl Break {
    ghost use Rattle.std.specs.Prelude.{string_bytes, nat_le, ◌&&◌};
    ghost use Rattle.std.specs.Str.{bytes_eq};

    fn meets(&self, name: &str, at: u64) -> bool
        ensures { result ≡ (bytes_eq (string_bytes self.now.name) name.now && nat_le self.now.place at) }
    {
        self.name.as_str() == name && self.place <= at
    }
}

impl Breaks {
    ghost use Rattle.cm_io.specs.Breaks.{breaks_of, is_broken};

    pub(crate) fn none(alloc: Global) -> Breaks
        ensures { breaks_of result ≡ [] }
    {
        Breaks {
            rows: Vec::new(alloc),
        }
    }

    /// Whether a read of this name at this place is to fail.
    pub(crate) fn has(&self, name: &str, at: u64) -> bool
        ensures { result ≡ is_broken (breaks_of self.now) name.now at }
    {
        self.rows.iter().any(|row| row.meets(name, at))
    }

    /// From now on each read of this name at this place or past it is to fail. Where memory runs out nothing changes.
    pub(crate) fn add(&mut self, alloc: Global, name: &str, place: u64) -> Result<(), NoMemory>
        ensures done { IfOk result (λ _. breaks_of self.new ≡ breaks_of self.old ++ (name.now, place) ∷ []) }
        ensures err { OnErr result (breaks_of self.new ≡ breaks_of self.old) }
    {
        let name = String::from_str(alloc, name)?;
        self.rows.push(Break { name, place })?;
        Ok(())
    }
}
