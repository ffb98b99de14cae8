// Files as the program sees them: bytes under names, read from a place on.
ghost use Rattle.std.specs.Prelude.{◌≡◌, ◌≢◌, ◌≤◌, List, ℕ, Bool, Option, length, max, IfOk, IsTrue};
ghost use Rattle.cm_io.specs.Shelf.{Files, ReadsHeld, ReadFaults, CountsOn, OthersStay, reads_made, bytes_given};

use crate::Outside;

/// Files that can be read by their names.
pub trait Shelf {
    /// The files that it holds, where that is told.
    ghost held: { Self → Option Files };

    /// How often a read of each name has failed. A count stays at 2^64 - 1.
    ghost faults: { Self → List ℕ → ℕ };

    /// The names whose reads it counts. They stay the same. The counts of reads and bytes of any other name stay
    /// at 0.
    ghost counted: { Self → List ℕ → Bool };

    /// How often each name was read, whatever came of it but `NoMemory`: that is no read. A count stays at
    /// 2^64 - 1.
    ghost reads: { Self → List ℕ → ℕ };

    /// How many bytes were taken under each name: those that reads gave, again where they gave them
    /// again. A count stays at 2^64 - 1.
    ghost taken: { Self → List ℕ → ℕ };

    /// How many bytes the longest buffer has that it was asked to fill, where it keeps that; else it may be any number
    /// that doesn't rise.
    ghost widest: { Self → ℕ };

    /// The file of a name has no byte from this place on, as a read told.
    ghost told_end: { Self → List ℕ → ℕ → Type 0 };

    /// Reads the file of this name from the byte `at` on, where the first byte is 0, into the front of
    /// `buf`, and gives how many bytes that were. Where it is told what is held, 0 comes only at the
    /// end of the file or for an empty `buf`, and a name that isn't held has no bytes.
    ///
    /// `Failed` comes only where the name's count of faults rose, and `NoMemory` where the shelf itself
    /// ran out of memory: then no count rose. A read of a name that is counted changes no other name's count of faults.
    /// What is held stays the same. After an error `buf` may have any bytes, and none count as taken.
    fn read_at(&mut self, name: &str, at: u64, buf: &mut [u8]) -> Result<usize, Outside>
        ensures count { IfOk result (λ n. n ≤ length buf.new) }
        ensures read { ReadsHeld (held self.old) name.now at buf.new result }
        ensures held { held self.new ≡ held self.old }
        ensures cause { ReadFaults (faults self.old) (faults self.new) name.now result }
        ensures apart { IsTrue (counted self.old name.now) → OthersStay (faults self.old) (faults self.new) name.now }
        ensures counted { (n : List ℕ) → counted self.new n ≡ counted self.old n }
        ensures reads { CountsOn (counted self.old) (reads self.old) (reads self.new) name.now (reads_made result) }
        ensures taken { CountsOn (counted self.old) (taken self.old) (taken self.new) name.now (bytes_given result) }
        ensures widest { widest self.new ≤ max (widest self.old) (length buf.new) }
        ensures told { IfOk result (λ n. n ≡ 0 → length buf.new ≢ 0 → told_end self.new name.now at) };
}
