// Buffers that files are read into, piece by piece.
ghost use Rattle.std.specs.Prelude.{◌≡◌, ◌≤◌, ◌<◌, ◌+◌, ◌-◌, length, take, drop, vec_len, Err, IfOk, IfSome, OnOk};
ghost use Rattle.cm_io.specs.Account.{account, ReadsFile};
ghost use Rattle.cm_io.specs.Shelf.{bytes_at, bytes_given};

use crate::{Outside, Shelf};
use std::alloc::{AllocError, Global};

/// The most bytes that are asked for at once.
pub(crate) const PIECE: usize = 65_536;

/// A buffer on the heap.
pub(crate) fn zeros(alloc: Global, len: usize) -> Result<Vec<u8>, AllocError>
    ensures { IfOk result (λ bytes. vec_len bytes ≡ len) }
{
    vec![in alloc; 0; len]
}

// Makes room behind the first `end` bytes of a buffer. Where there is some, nothing is done; else the buffer is made
// twice as long, so that a byte is moved a fixed number of times on average.
fn make_room(buffer: &mut Vec<u8>, end: usize) -> Result<(), AllocError>
    requires { end ≤ vec_len buffer.old }
    ensures front { take end buffer.new.items ≡ take end buffer.old.items }
    ensures within { end ≤ vec_len buffer.new }
    ensures room { OnOk result (end < vec_len buffer.new) }
{
    let len = buffer.len();
    if end < len {
        return Ok(());
    }
    buffer.resize(len + len.max(PIECE), 0)
}

/// Reads from a place of a file on, behind the first `end` bytes of a buffer: a piece, and no more than `left` bytes.
/// Room is made where there is none.
pub(crate) fn read_behind<H: Shelf>(
    shelf: &mut H,
    name: &str,
    at: u64,
    buffer: &mut Vec<u8>,
    end: usize,
    left: u64,
) -> Result<usize, Outside>
    requires within { end ≤ vec_len buffer.old }
    requires some { 0 < left }
    ensures count { IfOk result (λ n. n ≤ left) }
    ensures within { end ≤ vec_len buffer.new }
    ensures room { IfOk result (λ n. end + n ≤ vec_len buffer.new) }
    ensures front { take end buffer.new.items ≡ take end buffer.old.items }
    ensures part { IfSome (H.held shelf.old) (λ files. IfOk result (λ n.
        take n (drop end buffer.new.items) ≡ take n (drop at (bytes_at files name.now)))) }
    ensures end { IfSome (H.held shelf.old) (λ files. IfOk result (λ n.
        n ≡ 0 → length (bytes_at files name.now) ≤ at)) }
    ensures told { IfOk result (λ n. n ≡ 0 → H.told_end shelf.new name.now at) }
    ensures file { ReadsFile (account H.Shelf shelf.old) (account H.Shelf shelf.new) name.now
        (bytes_given result) (1 - bytes_given result) (result ≡ Err Outside.Failed) }
{
    make_room(buffer, end)?;
    let room = PIECE.min(buffer.len() - end);
    let most = room.min(left as usize);
    shelf.read_at(name, at, &mut buffer[end..end + most])
}
