// Whole files and whole pieces: reads and writes until nothing is left.
ghost use Rattle.std.specs.Prelude.{◌≡◌, ◌≢◌, ◌++◌, ◌+◌, ◌-◌, ◌^◌, ◌<◌, ◌≤◌, ℕ, [], length, take, vec_len};
ghost use Rattle.std.specs.Prelude.{Err, IfOk, IfSome, OnOk, OnErr};
ghost use Rattle.cm_io.specs.Account.{account, ReadsFile};
ghost use Rattle.cm_io.specs.Shelf.{bytes_at, ReadsText};
ghost use Rattle.cm_io.specs.Sink.{then_written, WriteFaults};
ghost use Rattle.cm_io.specs.Whole.{whole_error};
ghost use Rattle.cm_io.specs.declared.whole.WholeError.TheVariants.{NoMemory as OutOfMemory};

use crate::buffer::{PIECE, zeros};
use crate::{NoMemory, Outside, Shelf, Sink};
use std::alloc::{AllocError, Global};

/// Why a file was not read whole.
#[derive(Clone, Copy, Debug, PartialEq, Eq)]
pub enum WholeError {
    /// A read failed, and the count of the file's name rose.
    Read,
    /// The file has more bytes than the limit.
    TooMuch,
    /// There is no memory for the bytes, or the shelf ran out of memory.
    NoMemory,
}

impl From<NoMemory> for WholeError {
    ghost from_gives = { λ _ e. e ≡ OutOfMemory };

    fn from(_: NoMemory) -> WholeError {
        WholeError::NoMemory
    }
}

impl From<Outside> for WholeError {
    ghost from_gives = { λ why e. e ≡ whole_error why };

    fn from(why: Outside) -> WholeError {
        match why {
            Outside::Failed => WholeError::Read,
            Outside::NoMemory => WholeError::NoMemory,
        }
    }
}

impl From<AllocError> for WholeError {
    ghost from_gives = { λ _ e. e ≡ OutOfMemory };

    fn from(_: AllocError) -> WholeError {
        WholeError::NoMemory
    }
}

/// Writes a whole piece, in as many writes as the sink wants.
///
/// The errors are those of `Sink::write`. After one of them a front of the piece is written.
pub fn write_all<K: Sink>(out: &mut K, piece: &[u8]) -> Result<(), Outside>
    ensures whole { OnOk result (K.written out.new ≡ then_written (K.written out.old) piece.now) }
    ensures prefix { (k : ℕ) × (K.written out.new ≡ then_written (K.written out.old) (take k piece.now)) }
    ensures cause { WriteFaults (K.faults out.old) (K.faults out.new) result }
{
    let mut done = 0;
    while done < piece.len() {
        done += out.write(&piece[done..])?;
    }
    Ok(())
}

/// Reads a file whole, up to `limit` bytes. `text` is empty before, and then has all that was read,
/// also after an error.
///
/// `TooMuch` comes where the file has more bytes than `limit`: then `text` has the first `limit` + 1 of
/// them. `Read` comes only where a read failed and the count of the name rose; `NoMemory` raises no
/// count of faults. At most `limit` + 1 bytes of the file are taken.
pub fn read_whole<H: Shelf>(
    alloc: Global,
    shelf: &mut H,
    name: &str,
    limit: usize,
    text: &mut Vec<u8>,
) -> Result<(), WholeError>
    requires empty { text.old.items ≡ [] }
    requires limit { limit < 2 ^ 62 }

    ensures taken { vec_len text.new ≤ limit + 1 }
    ensures within { OnOk result (vec_len text.new ≤ limit) }
    ensures too_much { result ≡ Err WholeError.TooMuch → vec_len text.new ≡ limit + 1 }

    // Where the shelf tells what it holds, the text is the front of the file, and at `Ok` all of it.
    ensures front { IfSome (H.held shelf.old) (λ files.
        text.new.items ≡ take (vec_len text.new) (bytes_at files name.now)) }
    ensures whole { IfSome (H.held shelf.old) (λ files.
        OnOk result (text.new.items ≡ bytes_at files name.now)) }
    ensures too_long { IfSome (H.held shelf.old) (λ files.
        result ≡ Err WholeError.TooMuch → limit < length (bytes_at files name.now)) }

    // No byte is taken that the text doesn't keep. The file is read at most once for each byte that is taken, and once more,
    // and no other name is read.
    ensures file { ReadsFile (account H.Shelf shelf.old) (account H.Shelf shelf.new) name.now
        (vec_len text.new) 1 (result ≡ Err WholeError.Read) }
{
    let mut buffer = zeros(alloc, PIECE)?;
    while text.len() <= limit {
        let most = PIECE.min(limit + 1 - text.len());
        if read_more(shelf, name, &mut buffer[..most], text)? == 0 {
            return Ok(());
        }
    }
    Err(WholeError::TooMuch)
}

// Reads on in a file, of which the text has the front, by way of the buffer. Room in the text is made
// before bytes are asked for, so none is read that the text doesn't take. `reserve` doubles the room,
// and the C library makes a large block larger by moving its pages: no second copy stands beside it,
// and room that isn't used takes no memory. So a file of 64 MiB takes 65 MiB at the most.
fn read_more<H: Shelf>(
    shelf: &mut H,
    name: &str,
    buffer: &mut [u8],
    text: &mut Vec<u8>,
) -> Result<usize, WholeError>
    requires piece { length buffer.old ≤ 65536 }
    ensures count { IfOk result (λ n. n ≤ length buffer.new) }
    ensures text { IfOk result (λ n. text.new.items ≡ text.old.items ++ take n buffer.new) }
    ensures len { IfOk result (λ n. vec_len text.new ≡ vec_len text.old + n) }
    ensures err { OnErr result (text.new.items ≡ text.old.items) }
    ensures read { IfSome (H.held shelf.old) (λ files.
        IfOk result (ReadsText (bytes_at files name.now) (vec_len text.old) buffer.new)) }
    ensures not_too_much { result ≢ Err WholeError.TooMuch }
    ensures file { ReadsFile (account H.Shelf shelf.old) (account H.Shelf shelf.new) name.now
        (vec_len text.new - vec_len text.old) (1 - (vec_len text.new - vec_len text.old)) (result ≡ Err WholeError.Read) }
{
    text.reserve(buffer.len())?;
    let n = shelf.read_at(name, text.len() as u64, buffer)?;
    text.extend_from_slice(&buffer[..n]).unwrap();
    Ok(n)
}
