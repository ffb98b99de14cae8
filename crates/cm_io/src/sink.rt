// Where the program's text goes: bytes are taken in pieces, one after the other.
ghost use Rattle.std.specs.Prelude.{◌≡◌, ◌≤◌, List, ℕ, Option, length, IfOk};
ghost use Rattle.cm_io.specs.Sink.{then_written, sent, WriteFaults};

use crate::Outside;

/// Something that takes bytes.
pub trait Sink {
    /// All that was written so far, where that is told.
    ghost written: { Self → Option (List ℕ) };

    /// How often a write has failed. The count stays at 2^64 - 1.
    ghost faults: { Self → ℕ };

    /// Writes the front of a piece, and gives how many bytes that were: at least one, unless the piece
    /// is empty.
    ///
    /// `Failed` comes only where the count of faults rose, and `NoMemory` where the sink itself ran out of memory: then
    /// it didn't rise. After an error nothing of the piece is written.
    fn write(&mut self, piece: &[u8]) -> Result<usize, Outside>
        ensures count { IfOk result (λ n. n ≤ length piece.now) }
        ensures some { IfOk result (λ n. n ≡ 0 → length piece.now ≡ 0) }
        ensures written { written self.new ≡ then_written (written self.old) (sent piece.now result) }
        ensures cause { WriteFaults (faults self.old) (faults self.new) result };
}
