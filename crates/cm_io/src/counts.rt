// What a shelf counts under the names of files: how often a read failed, how many reads there were, and how
// many bytes they gave.
ghost use Rattle.std.specs.Prelude.{◌≡◌, ◌≤◌, length, map, string_bytes, is_ok, IfOk};
ghost use Rattle.cm_io.specs.Counts.{tally_of};
ghost use Rattle.cm_io.specs.Names.{place_of};

use crate::{NoMemory, Outside};
use std::alloc::Global;

/// What a shelf in memory counts of the reads of a name: those that failed, all that were made, and the bytes that they
/// gave. Each count stays at its last value, 2^64 - 1.
#[derive(Clone, Copy, Debug, PartialEq, Eq)]
pub struct Tally {
    pub faults: u64,
    pub reads: u64,
    pub taken: u64,
}

/// A name, and what is counted under it. A count stays at its last value, 2^64 - 1.
#[derive(Drop)]
pub(crate) struct Count {
    pub(crate) name: String,
    pub(crate) faults: u64,
    pub(crate) reads: u64,
    pub(crate) taken: u64,
}

impl Count {
    ghost use Rattle.cm_io.specs.Counts.{with_read, NoneFalls};

    // Nothing is counted yet.
    fn new(name: String) -> Count
        ensures { result ≡ record { name = name; faults = 0; reads = 0; taken = 0 } }
    {
        Count {
            name,
            faults: 0,
            reads: 0,
            taken: 0,
        }
    }

    // What is counted.
    fn tally(&self) -> Tally
        ensures { result ≡ record { faults = self.now.faults; reads = self.now.reads; taken = self.now.taken } }
    {
        Tally {
            faults: self.faults,
            reads: self.reads,
            taken: self.taken,
        }
    }

    // Counts a read by what came of it: the read itself, the bytes that it gave, and the fault where it failed.
    // Where memory runs out nothing is counted.
    fn count(&mut self, read: &Result<usize, Outside>)
        ensures counts { self.new ≡ with_read self.old read.now }
        ensures later { NoneFalls self.old self.new }
    {
        match read {
            Ok(n) => {
                self.reads = self.reads.saturating_add(1);
                self.taken = self.taken.saturating_add(*n as u64);
            }
            Err(Outside::Failed) => {
                self.reads = self.reads.saturating_add(1);
                self.faults = self.faults.saturating_add(1);
            }
            Err(Outside::NoMemory) => {}
        }
    }
}

/// Names with their counts. Where a name stands twice, the first serves.
#[derive(Drop)]
pub(crate) struct Counts {
    pub(crate) rows: Vec<Count>,
}

impl Counts {
    ghost use Rattle.cm_io.specs.Counts.{names_of, StartsCounts, NotesName, CountsRead};

    /// All counts of these names are 0.
    pub(crate) fn new(alloc: Global, names: Vec<String>) -> Result<Counts, NoMemory>
        ensures names { IfOk result (λ c. names_of c ≡ map string_bytes names.items) }
        ensures zero { IfOk result (λ c. StartsCounts c) }
    {
        let mut rows = Vec::new(alloc);
        for name in names {
            rows.push(Count::new(name))?;
        }
        Ok(Counts { rows })
    }

    /// How many names have counts.
    pub(crate) fn len(&self) -> usize
        ensures { result ≡ length (names_of self.now) }
    {
        self.rows.len()
    }

    /// The place of the first of the names that is equal to `name`, and their number where none is.
    pub(crate) fn place_of(&self, name: &str) -> usize
        ensures place { result ≡ place_of (names_of self.now) name.now }
        ensures within { result ≤ length (names_of self.now) }
    {
        for (i, row) in self.rows.iter().enumerate() {
            if row.name.as_str() == name {
                return i;
            }
        }
        self.rows.len()
    }

    /// What is counted under a name. None exactly where it has no counts.
    pub(crate) fn tally(&self, name: &str) -> Option<Tally>
        ensures { result ≡ tally_of self.now name.now }
    {
        let place = self.place_of(name);
        if place < self.rows.len() {
            Some(self.rows[place].tally())
        } else {
            None
        }
    }

    /// Gives a name that has no counts yet counts of its own, after all others. Where memory runs out nothing changes.
    pub(crate) fn note(&mut self, alloc: Global, name: &str) -> Result<(), NoMemory>
        ensures { NotesName self.old self.new name.now (is_ok result) }
    {
        if self.place_of(name) < self.len() {
            return Ok(());
        }
        let name = String::from_str(alloc, name)?;
        self.rows.push(Count::new(name))?;
        Ok(())
    }

    /// Counts a read under its name, where that has counts.
    pub(crate) fn count(&mut self, name: &str, read: &Result<usize, Outside>)
        ensures { CountsRead self.old self.new name.now read.now }
    {
        let place = self.place_of(name);
        if place < self.rows.len() {
            self.rows[place].count(read);
        }
    }
}
