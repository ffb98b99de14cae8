// Slots that say where a path may be found without a search: the slot of a path holds the number of the row that came
// last of those with that slot. What it says is held against the row, so that nothing rests on which slot it is.
ghost use Rattle.std.specs.Prelude.{◌≡◌, ◌<◌, ◌^◌, IfSome, length, slice_index_or};
ghost use Rattle.cm_files.specs.Index.{no_row};

use crate::FileRow;
use std::alloc::{AllocError, Global};

// Spreads the bits of a key (choice: 2^64 by the golden ratio, which is odd).
const SPREAD: u64 = 0x9e37_79b9_7f4a_7c15;

/// The slots, each with the number of a row.
#[derive(Debug, Drop)]
pub(crate) struct Slots {
    slots: Vec<u32>,
}

impl Slots {
    // No slot. It takes no memory.
    pub(crate) fn none(alloc: Global) -> Slots {
        Slots {
            slots: Vec::new(alloc),
        }
    }

    // Slots for so many rows: a power of two, and at least four for each (choice).
    pub(crate) fn with_capacity(alloc: Global, count: usize) -> Result<Slots, AllocError>
        requires { count < 2 ^ 32 }
    {
        let slots = vec![in alloc; 0; (4 * count).next_power_of_two()]?;
        Ok(Slots { slots })
    }

    // The number of a row comes to the slot of its path, of which the key and the length are given.
    pub(crate) fn put(&mut self, key: u64, len: usize, n: u32) {
        let at = self.slot_of(key, len);
        if let Some(slot) = self.slots.get_mut(at) {
            *slot = n;
        }
    }

    // The number of the row that may have a path, of which the key is given too; None says nothing.
    pub(crate) fn find(&self, rows: &[FileRow], key: u64, path: &[u8]) -> Option<u32>
        ensures within { IfSome result (λ n. n < length rows.now) }
        ensures path { IfSome result (λ n. (slice_index_or rows.now n no_row).path ≡ path.now) }
    {
        let n = *self.slots.get(self.slot_of(key, path.len()))?;
        let row = rows.get(n as usize)?;
        if row.path.items() == path {
            Some(n)
        } else {
            None
        }
    }

    // The slot of a path, of which the key and the length are given. Both halves of the key count, since paths of one
    // length often differ in the first half alone.
    fn slot_of(&self, key: u64, len: usize) -> usize {
        let folded = key ^ key >> 32 ^ len as u64;
        let spread = folded.wrapping_mul(SPREAD) >> 32;
        spread as usize & self.slots.len().saturating_sub(1)
    }
}
