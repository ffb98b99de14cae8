// A shelf and a sink in memory whose device never fails.
ghost use Rattle.std.specs.Prelude.{◌≡◌, vec_len};

use crate::counts::Tally;
use crate::held::{Held, copy_part};
use crate::{NoMemory, Outside, Shelf, Sink};
use std::alloc::Global;

/// Files in memory, of which each read gives what is there. It counts the reads of every name, and the bytes. A name
/// that isn't held is noted at its first read.
#[derive(Drop)]
pub struct SureShelf {
    files: Held,
}

impl SureShelf {
    ghost use Rattle.std.specs.Prelude.{ℕ, List, Some, IfOk, IsTrue, true, map, string_bytes};
    ghost use Rattle.cm_io.specs.Names.{are_distinct};
    ghost use Rattle.cm_io.specs.Held.{files_of};
    ghost use Rattle.cm_io.specs.Counts.{names_of, tally_of};
    ghost use Rattle.cm_io.specs.Sure.{sure_counts};

    /// A shelf that holds `texts` under `names`. It takes and gives what `MemShelf::new` does, but for the
    /// reads that are to fail.
    pub fn new(
        alloc: Global,
        names: Vec<String>,
        texts: Vec<Vec<u8>>,
    ) -> Result<SureShelf, NoMemory>
        requires distinct { IsTrue (are_distinct names.items) }
        requires one_text_each { vec_len texts ≡ vec_len names }
        ensures held { IfOk result (λ s.
            ⟦<SureShelf as Shelf>⟧.held s ≡ Some (files_of (map string_bytes names.items) texts.items)) }
        ensures noted { IfOk result (λ s. names_of (sure_counts s) ≡ map string_bytes names.items) }
        ensures counted { IfOk result (λ s. (n : List ℕ) → ⟦<SureShelf as Shelf>⟧.counted s n ≡ true) }
        ensures reads { IfOk result (λ s. (n : List ℕ) → ⟦<SureShelf as Shelf>⟧.reads s n ≡ 0) }
        ensures taken { IfOk result (λ s. (n : List ℕ) → ⟦<SureShelf as Shelf>⟧.taken s n ≡ 0) }
    {
        Ok(SureShelf {
            files: Held::new(alloc, names, texts)?,
        })
    }

    /// What is counted under a name; None exactly where it wasn't noted.
    pub fn tally(&self, name: &str) -> Option<Tally>
        ensures { result ≡ tally_of (sure_counts self.now) name.now }
    {
        self.files.tally(name)
    }
}

impl Shelf for SureShelf {
    ghost use Rattle.std.specs.Prelude.{◌≢◌, ◌≤◌, ℕ, List, length, max, Some, IfOk, IsTrue, true};
    ghost use Rattle.cm_io.specs.Shelf.{ReadsHeld, ReadFaults, CountsOn, OthersStay, bytes_at, reads_made, bytes_given};
    ghost use Rattle.cm_io.specs.Counts.{reads_of, taken_of, counts_name, names_of, noted, SameCounts};
    ghost use Rattle.cm_io.specs.Held.{held_files, GivesAll};
    ghost use Rattle.cm_io.specs.Sure.{sure_counts};

    ghost held = { λ s. Some (held_files s.files) };

    ghost faults = { λ _ _. 0 };

    ghost counted = { λ _ _. true };

    ghost reads = { λ s name. reads_of s.files.counts name };

    ghost taken = { λ s name. taken_of s.files.counts name };

    ghost widest = { λ _. 0 };

    ghost told_end = { λ s name at. length (bytes_at (held_files s.files) name) ≤ at };

    /// Gives as much as there is and fits, and 0 where no file has the name. It never fails.
    ///
    /// `NoMemory` means that there was no memory to note a name that is neither held nor was read before. Then the read
    /// wasn't made, and nothing changed.
    fn read_at(&mut self, name: &str, at: u64, buf: &mut [u8]) -> Result<usize, Outside>
        ensures sure { result ≢ Err Outside.Failed }
        ensures no_want { IsTrue (counts_name (sure_counts self.old) name.now) → result ≢ Err Outside.NoMemory }
        ensures gives { GivesAll (⟦<SureShelf as Shelf>⟧.held self.old) name.now at buf.new result }
        ensures noted { result ≢ Err Outside.NoMemory →
            names_of (sure_counts self.new) ≡ noted (names_of (sure_counts self.old)) name.now }
        ensures same { result ≡ Err Outside.NoMemory → SameCounts (sure_counts self.old) (sure_counts self.new) }

        ensures count { IfOk result (λ n. n ≤ length buf.new) }
        ensures read { ReadsHeld (⟦<SureShelf as Shelf>⟧.held self.old) name.now at buf.new result }
        ensures held { ⟦<SureShelf as Shelf>⟧.held self.new ≡ ⟦<SureShelf as Shelf>⟧.held self.old }
        ensures cause { ReadFaults (⟦<SureShelf as Shelf>⟧.faults self.old)
            (⟦<SureShelf as Shelf>⟧.faults self.new) name.now result }
        ensures apart { IsTrue (⟦<SureShelf as Shelf>⟧.counted self.old name.now) →
            OthersStay (⟦<SureShelf as Shelf>⟧.faults self.old) (⟦<SureShelf as Shelf>⟧.faults self.new) name.now }
        ensures counted { (n : List ℕ) →
            ⟦<SureShelf as Shelf>⟧.counted self.new n ≡ ⟦<SureShelf as Shelf>⟧.counted self.old n }
        ensures reads { CountsOn (⟦<SureShelf as Shelf>⟧.counted self.old) (⟦<SureShelf as Shelf>⟧.reads self.old)
            (⟦<SureShelf as Shelf>⟧.reads self.new) name.now (reads_made result) }
        ensures taken { CountsOn (⟦<SureShelf as Shelf>⟧.counted self.old) (⟦<SureShelf as Shelf>⟧.taken self.old)
            (⟦<SureShelf as Shelf>⟧.taken self.new) name.now (bytes_given result) }
        ensures widest { ⟦<SureShelf as Shelf>⟧.widest self.new ≤ max (⟦<SureShelf as Shelf>⟧.widest self.old) (length buf.new) }
        ensures told { IfOk result (λ n. n ≡ 0 → length buf.new ≢ 0 →
            ⟦<SureShelf as Shelf>⟧.told_end self.new name.now at) }
    {
        self.files.note(name)?;
        let n = match self.files.text(name) {
            Some(text) => copy_part(text, at, buf),
            None => 0,
        };
        self.files.count(name, &Ok(n));
        Ok(n)
    }
}

/// Keeps in memory what is written. It can only run out of memory.
#[derive(Drop)]
pub struct SureSink {
    bytes: Vec<u8>,
}

impl SureSink {
    ghost use Rattle.std.specs.Prelude.{[], Some};

    /// A sink to which nothing was written.
    pub fn new(alloc: Global) -> SureSink
        ensures { ⟦<SureSink as Sink>⟧.written result ≡ Some [] }
    {
        SureSink {
            bytes: Vec::new(alloc),
        }
    }

    /// What was written.
    pub fn bytes(&self) -> &[u8]
        ensures { ⟦<SureSink as Sink>⟧.written self.now ≡ Some result.now }
    {
        &self.bytes
    }
}

impl Sink for SureSink {
    ghost use Rattle.std.specs.Prelude.{◌≢◌, ◌≤◌, length, Some, IfOk};
    ghost use Rattle.cm_io.specs.Sink.{then_written, sent, WriteFaults};

    ghost written = { λ s. Some s.bytes.items };

    ghost faults = { λ _. 0 };

    /// Takes the whole piece, or runs out of memory for it.
    fn write(&mut self, piece: &[u8]) -> Result<usize, Outside>
        ensures count { IfOk result (λ n. n ≤ length piece.now) }
        ensures some { IfOk result (λ n. n ≡ 0 → length piece.now ≡ 0) }
        ensures written { ⟦<SureSink as Sink>⟧.written self.new
            ≡ then_written (⟦<SureSink as Sink>⟧.written self.old) (sent piece.now result) }
        ensures cause { WriteFaults (⟦<SureSink as Sink>⟧.faults self.old)
            (⟦<SureSink as Sink>⟧.faults self.new) result }

        // It takes the whole piece or nothing, and never fails.
        ensures whole { IfOk result (λ n. n ≡ length piece.now) }
        ensures sure { result ≢ Err Outside.Failed }
    {
        self.bytes.extend_from_slice(piece)?;
        Ok(piece.len())
    }
}
