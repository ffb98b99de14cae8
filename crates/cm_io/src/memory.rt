// A shelf and a sink in memory, of which the calls that are to fail are known beforehand: with them
// one can try what a program does when the outside fails.
ghost use Rattle.std.specs.Prelude.{◌≡◌, vec_len};

use crate::breaks::Breaks;
use crate::counts::Tally;
use crate::held::{Held, copy_part};
use crate::turns::Turns;
use crate::{NoMemory, Outside, Shelf, Sink};
use std::alloc::Global;

/// Files in memory. Reads are counted from 1, and those with given numbers fail; so does each read of a name that isn't
/// held, and each at a place from which on a file is broken. The number of reads stays at 2^64 - 1.
///
/// It counts the reads of every name, and the bytes. A name that isn't held is noted at its first read.
#[derive(Drop)]
pub struct MemShelf {
    files: Held,
    turns: Turns,
    breaks: Breaks,
    widest: usize,
}

impl MemShelf {
    ghost use Rattle.std.specs.Prelude.{◌++◌, ◌∷◌, [], ℕ, List, Some, IfOk, OnErr, IsTrue, true, map, string_bytes};
    ghost use Rattle.cm_io.specs.Names.{are_distinct};
    ghost use Rattle.cm_io.specs.Held.{files_of};
    ghost use Rattle.cm_io.specs.Counts.{names_of, tally_of};
    ghost use Rattle.cm_io.specs.Turns.{StartsTurns};
    ghost use Rattle.cm_io.specs.Memory.{shelf_turns, shelf_counts, shelf_breaks, shelf_widest};

    /// A shelf that holds `texts` under `names`, of which the reads with the numbers `fail` fail. No read was made yet,
    /// all counts are 0, the held names are noted, and no file is broken. `NoMemory` means that there was no memory for
    /// the counts.
    pub fn new(
        alloc: Global,
        names: Vec<String>,
        texts: Vec<Vec<u8>>,
        fail: Vec<u64>,
    ) -> Result<MemShelf, NoMemory>
        requires distinct { IsTrue (are_distinct names.items) }
        requires one_text_each { vec_len texts ≡ vec_len names }
        ensures held { IfOk result (λ s.
            ⟦<MemShelf as Shelf>⟧.held s ≡ Some (files_of (map string_bytes names.items) texts.items)) }
        ensures noted { IfOk result (λ s. names_of (shelf_counts s) ≡ map string_bytes names.items) }
        ensures faults { IfOk result (λ s. (n : List ℕ) → ⟦<MemShelf as Shelf>⟧.faults s n ≡ 0) }
        ensures counted { IfOk result (λ s. (n : List ℕ) → ⟦<MemShelf as Shelf>⟧.counted s n ≡ true) }
        ensures reads { IfOk result (λ s. (n : List ℕ) → ⟦<MemShelf as Shelf>⟧.reads s n ≡ 0) }
        ensures taken { IfOk result (λ s. (n : List ℕ) → ⟦<MemShelf as Shelf>⟧.taken s n ≡ 0) }
        ensures turns { IfOk result (λ s. StartsTurns (shelf_turns s) fail.items) }
        ensures whole { IfOk result (λ s. shelf_breaks s ≡ []) }
        ensures widest { IfOk result (λ s. shelf_widest s ≡ 0) }
    {
        Ok(MemShelf {
            files: Held::new(alloc, names, texts)?,
            turns: Turns::new(fail),
            breaks: Breaks::none(alloc),
            widest: 0,
        })
    }

    /// From now on each read of this name at the place `at` or past it fails, and raises its count of faults. Nothing
    /// else changes. `NoMemory` means that there was no memory for the name: then nothing changed.
    pub fn fail_from(&mut self, alloc: Global, name: &str, at: u64) -> Result<(), NoMemory>
        ensures done { IfOk result (λ _. shelf_breaks self.new ≡ shelf_breaks self.old ++ (name.now, at) ∷ []) }
        ensures err { OnErr result (shelf_breaks self.new ≡ shelf_breaks self.old) }
        ensures held { ⟦<MemShelf as Shelf>⟧.held self.new ≡ ⟦<MemShelf as Shelf>⟧.held self.old }
        ensures counts { shelf_counts self.new ≡ shelf_counts self.old }
        ensures turns { shelf_turns self.new ≡ shelf_turns self.old }
        ensures widest { shelf_widest self.new ≡ shelf_widest self.old }
    {
        self.breaks.add(alloc, name, at)
    }

    /// What is counted under a name; None exactly where it wasn't noted.
    pub fn tally(&self, name: &str) -> Option<Tally>
        ensures { result ≡ tally_of (shelf_counts self.now) name.now }
    {
        self.files.tally(name)
    }

    /// How many bytes the longest buffer has that it was asked to fill, by a read that was made; 0 where none was.
    pub fn widest(&self) -> usize
        ensures { result ≡ shelf_widest self.now }
    {
        self.widest
    }
}

impl Shelf for MemShelf {
    ghost use Rattle.std.specs.Prelude.{◌≢◌, ◌≤◌, ◌↔◌, ℕ, List, length, max, Some, IsTrue, true, IfOk};
    ghost use Rattle.cm_io.specs.Shelf.{ReadsHeld, ReadFaults, CountsOn, OthersStay, bytes_at, reads_made, bytes_given};
    ghost use Rattle.cm_io.specs.Counts.{faults_of, reads_of, taken_of, counts_name, names_of, noted, SameCounts};
    ghost use Rattle.cm_io.specs.Held.{held_files, GivesAll};
    ghost use Rattle.cm_io.specs.Turns.{TakesTurn};
    ghost use Rattle.cm_io.specs.Memory.{read_fails, shelf_turns, shelf_counts, shelf_breaks, shelf_widest};

    ghost held = { λ s. Some (held_files s.files) };

    ghost faults = { λ s name. faults_of s.files.counts name };

    ghost counted = { λ _ _. true };

    ghost reads = { λ s name. reads_of s.files.counts name };

    ghost taken = { λ s name. taken_of s.files.counts name };

    ghost widest = { λ s. s.widest };

    ghost told_end = { λ s name at. length (bytes_at (held_files s.files) name) ≤ at };

    /// Fails where this read is one of those that are to fail, where no file has the name, and where the file is broken
    /// at this place; else it gives as much as there is and fits. A failure changes nothing but the counts.
    ///
    /// `NoMemory` means that there was no memory to note a name that is neither held nor was read before. Then the read
    /// wasn't made, and nothing changed.
    fn read_at(&mut self, name: &str, at: u64, buf: &mut [u8]) -> Result<usize, Outside>
        ensures count { IfOk result (λ n. n ≤ length buf.new) }
        ensures read { ReadsHeld (⟦<MemShelf as Shelf>⟧.held self.old) name.now at buf.new result }
        ensures held { ⟦<MemShelf as Shelf>⟧.held self.new ≡ ⟦<MemShelf as Shelf>⟧.held self.old }
        ensures cause { ReadFaults (⟦<MemShelf as Shelf>⟧.faults self.old)
            (⟦<MemShelf as Shelf>⟧.faults self.new) name.now result }
        ensures apart { IsTrue (⟦<MemShelf as Shelf>⟧.counted self.old name.now) →
            OthersStay (⟦<MemShelf as Shelf>⟧.faults self.old) (⟦<MemShelf as Shelf>⟧.faults self.new) name.now }
        ensures counted { (n : List ℕ) →
            ⟦<MemShelf as Shelf>⟧.counted self.new n ≡ ⟦<MemShelf as Shelf>⟧.counted self.old n }
        ensures reads { CountsOn (⟦<MemShelf as Shelf>⟧.counted self.old) (⟦<MemShelf as Shelf>⟧.reads self.old)
            (⟦<MemShelf as Shelf>⟧.reads self.new) name.now (reads_made result) }
        ensures taken { CountsOn (⟦<MemShelf as Shelf>⟧.counted self.old) (⟦<MemShelf as Shelf>⟧.taken self.old)
            (⟦<MemShelf as Shelf>⟧.taken self.new) name.now (bytes_given result) }
        ensures most { ⟦<MemShelf as Shelf>⟧.widest self.new ≤ max (⟦<MemShelf as Shelf>⟧.widest self.old) (length buf.new) }
        ensures told { IfOk result (λ n. n ≡ 0 → length buf.new ≢ 0 →
            ⟦<MemShelf as Shelf>⟧.told_end self.new name.now at) }
        ensures others { (n : List ℕ) → n ≢ name.now →
            ⟦<MemShelf as Shelf>⟧.faults self.new n ≡ ⟦<MemShelf as Shelf>⟧.faults self.old n }

        // Where it has memory, it fails at its turns, at names that aren't held and where a file is broken, and at
        // nothing else; else it gives all that fits.
        ensures fails { result ≢ Err Outside.NoMemory →
            (result ≡ Err Outside.Failed) ↔ IsTrue (read_fails self.old name.now at) }
        ensures gives { GivesAll (⟦<MemShelf as Shelf>⟧.held self.old) name.now at buf.new result }
        ensures turn { result ≢ Err Outside.NoMemory → TakesTurn (shelf_turns self.old) (shelf_turns self.new) }
        ensures noted { result ≢ Err Outside.NoMemory →
            names_of (shelf_counts self.new) ≡ noted (names_of (shelf_counts self.old)) name.now }
        ensures widest { result ≢ Err Outside.NoMemory →
            shelf_widest self.new ≡ max (shelf_widest self.old) (length buf.new) }
        ensures breaks { shelf_breaks self.new ≡ shelf_breaks self.old }

        // It takes memory only for a name that has no counts yet, and then changes nothing: it takes no turn.
        ensures no_want { IsTrue (counts_name (shelf_counts self.old) name.now) → result ≢ Err Outside.NoMemory }
        ensures no_turn { result ≡ Err Outside.NoMemory → shelf_turns self.new ≡ shelf_turns self.old }
        ensures no_buffer { result ≡ Err Outside.NoMemory → shelf_widest self.new ≡ shelf_widest self.old }
        ensures same { result ≡ Err Outside.NoMemory → SameCounts (shelf_counts self.old) (shelf_counts self.new) }
    {
        self.files.note(name)?;
        let fails = self.turns.is_due() || self.breaks.has(name, at);
        self.turns.count();
        self.widest = self.widest.max(buf.len());
        let read = match self.files.text(name) {
            Some(text) if !fails => Ok(copy_part(text, at, buf)),
            _ => Err(Outside::Failed),
        };
        self.files.count(name, &read);
        read
    }
}

/// Keeps in memory what is written. Writes are counted from 1, and those with given numbers fail. The
/// number of writes stays at 2^64 - 1.
#[derive(Drop)]
pub struct MemSink {
    bytes: Vec<u8>,
    turns: Turns,
    faults: u64,
}

impl MemSink {
    ghost use Rattle.std.specs.Prelude.{[], Some};
    ghost use Rattle.cm_io.specs.Turns.{StartsTurns};
    ghost use Rattle.cm_io.specs.Memory.{sink_turns};

    /// A sink of which the writes with the numbers `fail` fail. Nothing is written, no write was made
    /// yet, and the count is 0.
    pub fn new(alloc: Global, fail: Vec<u64>) -> MemSink
        ensures written { ⟦<MemSink as Sink>⟧.written result ≡ Some [] }
        ensures faults { ⟦<MemSink as Sink>⟧.faults result ≡ 0 }
        ensures turns { StartsTurns (sink_turns result) fail.items }
    {
        MemSink {
            bytes: Vec::new(alloc),
            turns: Turns::new(fail),
            faults: 0,
        }
    }

    /// What was written.
    pub fn bytes(&self) -> &[u8]
        ensures { ⟦<MemSink as Sink>⟧.written self.now ≡ Some result.now }
    {
        &self.bytes
    }
}

impl Sink for MemSink {
    ghost use Rattle.std.specs.Prelude.{◌≢◌, ◌≤◌, ◌↔◌, length, Some, IsTrue, IfOk};
    ghost use Rattle.cm_io.specs.Sink.{then_written, sent, WriteFaults};
    ghost use Rattle.cm_io.specs.Turns.{is_due, TakesTurn};
    ghost use Rattle.cm_io.specs.Memory.{sink_turns};

    ghost written = { λ s. Some s.bytes.items };

    ghost faults = { λ s. s.faults };

    /// Takes the whole piece, and fails where this write is one of those that are to fail: then nothing
    /// more is written, and the write was counted. `NoMemory` means that there was no memory for the piece, and changes
    /// nothing: the write wasn't counted.
    fn write(&mut self, piece: &[u8]) -> Result<usize, Outside>
        ensures count { IfOk result (λ n. n ≤ length piece.now) }
        ensures some { IfOk result (λ n. n ≡ 0 → length piece.now ≡ 0) }
        ensures written { ⟦<MemSink as Sink>⟧.written self.new
            ≡ then_written (⟦<MemSink as Sink>⟧.written self.old) (sent piece.now result) }
        ensures cause { WriteFaults (⟦<MemSink as Sink>⟧.faults self.old)
            (⟦<MemSink as Sink>⟧.faults self.new) result }

        // It fails at its turns and nowhere else, and takes the whole piece or nothing.
        ensures fails { (result ≡ Err Outside.Failed) ↔ IsTrue (is_due (sink_turns self.old)) }
        ensures whole { IfOk result (λ n. n ≡ length piece.now) }
        ensures turn { result ≢ Err Outside.NoMemory → TakesTurn (sink_turns self.old) (sink_turns self.new) }
        ensures no_turn { result ≡ Err Outside.NoMemory → sink_turns self.new ≡ sink_turns self.old }
    {
        if self.turns.is_due() {
            self.turns.count();
            self.faults = self.faults.saturating_add(1);
            return Err(Outside::Failed);
        }
        self.bytes.extend_from_slice(piece)?;
        self.turns.count();
        Ok(piece.len())
    }
}
