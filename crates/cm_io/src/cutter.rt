// The lines of a file that is read in pieces. What is read and not given stands in one buffer, and a line is lent from
// it. The cutter keeps where it stands in the file and how it stopped; what the lines say is for others.
ghost use Rattle.std.specs.Prelude.{◌≡◌, ◌≤◌, ◌<◌, ◌+◌, ◌-◌, ◌^◌, length, take, drop, vec_len, string_bytes};
ghost use Rattle.std.specs.Prelude.{Option, Some, None, false, IfOk, IfSome, OnOk, OnErr, IsTrue, Ok, Err};
ghost use Rattle.std.specs.Borrow.{sem};
ghost use Rattle.std.specs.Io.BufRead.{Rests};
ghost use Rattle.cm_lines.specs.Lines.{line_len, line_size};
ghost use Rattle.cm_io.specs.Account.{account, ReadsFile};
ghost use Rattle.cm_io.specs.Shelf.{Files, bytes_at, bytes_given};
ghost use Rattle.cm_io.specs.Cutter.{Cutting, begun, read_to, is_at_hand, ends, error_of, past_kept, Fits, IsCut, IsAfter};
ghost use Rattle.cm_io.specs.Cutter.{BreaksWithin};
ghost use Rattle.cm_io.specs.CutterSteps.{KeepsMore, Finds, IsFound, Stays, Tells, cut_error, found_of};

use crate::buffer::{PIECE, read_behind, zeros};
use crate::{NoMemory, Outside, Shelf};
use cm_lines::{Past, line_len};
use std::alloc::Global;
use std::marker::Model;

/// Why a cutter gave no line.
#[derive(Clone, Copy, Debug, PartialEq, Eq)]
pub enum CutError {
    /// A read failed, and the count of the file's name rose.
    Read,
    /// The next line has more bytes than a line may have, its LF aside.
    TooLong,
    /// The next line has a byte that the file may not have.
    TooMuch,
    /// There is no memory for the line, or the shelf ran out of memory.
    NoMemory,
}

/// A file of a shelf, line by line. It keeps a piece of the file, of 64 KiB, and more only for a line that is longer.
///
/// What it gives next depends on the bytes that it keeps alone: so at a limit it stays, and at the end of the file each
/// call reads again.
#[derive(Drop)]
pub struct LineCutter {
    name: String,
    line: u64,
    whole: u64,
    place: u64,
    ended: bool,
    buffer: Vec<u8>,
    start: usize,
    end: usize,

    // How long the first line of what is kept is: no byte is searched for an LF twice.
    len: usize,
}

impl Model for LineCutter {
    ghost Value = { Cutting };

    ghost view = { λ c. record {
      name = string_bytes c.name;
      line = c.line;
      whole = c.whole;
      place = c.place;
      kept = take (c.end - c.start) (drop c.start c.buffer.items);
      ended = c.ended;
    } };

    ghost invariant = { λ c. record {
      ordered : c.start ≤ c.end;
      within : c.end ≤ vec_len c.buffer;
      measured : c.len ≡ line_len (take (c.end - c.start) (drop c.start c.buffer.items));
      few : c.place + (c.end - c.start) ≤ c.whole + 1;
      reached : c.place ≤ c.whole;
      small : c.whole < 2 ^ 63;
      short : c.line < 2 ^ 63;
    } };
}

impl LineCutter {
    ghost use Rattle.cm_io.specs.contracts.cutter.LineCutter.{the_row};

    /// A cutter of the file of this name, from its front on. `line` is the most bytes of a line, its LF aside, and
    /// `whole` the most of the file. `NoMemory` means that there was no memory for the name and a piece.
    pub fn new(alloc: Global, name: &str, line: u64, whole: u64) -> Result<LineCutter, NoMemory>
        requires line { line < 2 ^ 63 }
        requires whole { whole < 2 ^ 63 }
        ensures begun { IfOk result (λ c. c ≡ begun name.now line whole) }
        ensures fits { IfOk result (λ c. (held : Option Files) → Fits held c) }
    {
        let name = String::from_str(alloc, name)?;
        let buffer = zeros(alloc, PIECE)?;
        Ok(LineCutter {
            name,
            line,
            whole,
            place: 0,
            ended: false,
            buffer,
            start: 0,
            end: 0,
            len: 0,
        })
    }

    /// The next line, without its LF; None where no byte is left. Lines end at LF, and a last line without LF counts
    /// where it isn't empty (choice). The line is lent from the cutter's buffer, and no byte of it is copied.
    ///
    /// `TooLong` comes where the next line has a byte more than lines may have, its LF aside, and `TooMuch` where it
    /// has the first byte that the file may not have: that of the two whose byte stands first, and `TooMuch` where they
    /// are one byte: what is kept shows it, and from then on each call answers the same. `Read` comes only where a read
    /// failed and the count of the name rose, and `NoMemory` raises no count of faults: after both the cutter is as
    /// before, and the next call tries again. None comes only where a read told that no byte is left.
    ///
    /// The lines are the same whatever sizes the reads have. No byte past the file's first one too many is taken. Each
    /// read gives a byte, but for one that fails, and the one that tells of the end.
    pub fn next_line<H: Shelf>(&mut self, shelf: &mut H) -> Result<Option<&[u8]>, CutError>
        requires fits { Fits (H.held shelf.old) self.old }
        ensures cut { IfSome (H.held shelf.old) (λ files. IsCut self.old (bytes_at files self.old.name) result) }
        ensures stopped { IfSome (past_kept self.old) (λ past. result ≡ Err (error_of past)) }
        ensures short { IfOk result (λ given. IfSome given (λ line. length line.now ≤ self.old.line)) }
        ensures told { result ≡ Ok None → H.told_end shelf.new self.old.name self.old.place }

        // The cutter after the answer, when the line is given back.
        ensures* after { sem 𝓛 (Rests the_row self.entry (λ new.
            IsAfter (account H.Shelf shelf.old) (account H.Shelf shelf.new) self.old new result)) }

        // Where the answer is at hand, the shelf isn't asked.
        ensures unread { IsTrue (is_at_hand self.old) → shelf.new ≡ shelf.old }
        ensures file { ReadsFile (account H.Shelf shelf.old) (account H.Shelf shelf.new) self.old.name
            (self.old.whole + 1 - read_to self.old) 1 (result ≡ Err CutError.Read) }
        ensures breaks { result ≡ Err CutError.Read →
            BreaksWithin self.old (account H.Shelf shelf.old) (account H.Shelf shelf.new) }
        ensures wants { result ≡ Err CutError.Read → is_at_hand self.old ≡ false }
        ensures few { read_to self.old ≤ self.old.whole + 1 }
    {
        match self.find(shelf)? {
            Some(found) => {
                let from = self.start;
                self.start += found.size;
                self.place += found.size as u64;
                self.len = line_len(&self.buffer[self.start..self.end]);
                Ok(Some(&self.buffer[from..from + found.len]))
            }
            None => Ok(None),
        }
    }

    /// Whether no read is wanted for the next answer: the next line is kept with its LF.
    pub fn is_at_hand(&self) -> bool
        ensures { result ≡ is_at_hand self.now }
    {
        self.len < self.end - self.start
    }

    /// Whether a read told that no byte comes after what it gave last: a line without its LF, or none.
    pub fn has_ended(&self) -> bool
        ensures { result ≡ self.now.ended }
    {
        self.ended
    }

    // Finds the next line at the front of what is kept, and reads on as far as that wants.
    #[tactic(auto, using(crate::proofs::Cutting::shown_first))]
    fn find<H: Shelf>(&mut self, shelf: &mut H) -> Result<Option<Found>, CutError>
        requires fits { Fits (H.held shelf.old) self.old }
        ensures found { IfOk result (λ found. Finds self.old self.new found) }
        ensures is { IfSome (H.held shelf.old) (λ files.
            IsFound self.old self.new (bytes_at files self.old.name) result) }
        ensures fits { Fits (H.held shelf.old) self.new }
        ensures stopped { IfSome (past_kept self.old) (λ past. result ≡ Err (error_of past)) }
        ensures stays { Stays self.old self.new result }
        ensures ends { IfOk result (λ found. Tells self.new found) }
        ensures whole { OnOk result (IsTrue self.new.ended → IfSome (H.held shelf.old) (λ files.
            length (bytes_at files self.old.name) ≤ read_to self.new)) }
        ensures told { result ≡ Ok None → H.told_end shelf.new self.old.name self.old.place }
        ensures unread { IsTrue (is_at_hand self.old) → shelf.new ≡ shelf.old }
        ensures file { ReadsFile (account H.Shelf shelf.old) (account H.Shelf shelf.new) self.old.name
            (self.old.whole + 1 - read_to self.old) 1 (result ≡ Err CutError.Read) }
        ensures keeps { OnOk result (ReadsFile (account H.Shelf shelf.old) (account H.Shelf shelf.new) self.old.name
            (length self.new.kept - length self.old.kept) (ends self.new) ⊥) }
        ensures breaks { result ≡ Err CutError.Read →
            BreaksWithin self.old (account H.Shelf shelf.old) (account H.Shelf shelf.new) }
        ensures wants { result ≡ Err CutError.Read → is_at_hand self.old ≡ false }
        ensures few { read_to self.old ≤ self.old.whole + 1 }
    {
        let kept = self.end - self.start;
        loop {
            if let Some(past) = self.past() {
                return Err(error_of(past));
            }
            if self.is_at_hand() {
                return Ok(self.front(false));
            }
            match self.fill(shelf) {
                Ok(0) => return Ok(self.front(true)),
                Ok(_) => {}
                Err(why) => {
                    self.keep(kept);
                    return Err(cut_error(why));
                }
            }
        }
    }

    // The limit that the first line of what is kept is past.
    fn past(&self) -> Option<Past>
        ensures is { result ≡ past_kept self.now }
        ensures few { read_to self.now ≤ self.now.whole + 1 }
        ensures reached { self.now.place ≤ self.now.whole }
    {
        let size = (self.end - self.start).min(self.len + 1);
        if self.line < self.len as u64 && self.place + self.line < self.whole {
            Some(Past::Line)
        } else if self.whole < self.place + size as u64 {
            Some(Past::Whole)
        } else {
            None
        }
    }

    // What stands at the front of what is kept: a line, or none where nothing is kept. Whether a read told that no byte
    // comes after it is noted.
    fn front(&mut self, ended: bool) -> Option<Found>
        ensures noted { self.new ≡ record self.old { ended = ended } }
        ensures is { result ≡ found_of (line_len self.old.kept) (line_size self.old.kept) }
    {
        self.ended = ended;
        let len = self.len;
        let size = (self.end - self.start).min(len + 1);
        if size == 0 {
            None
        } else {
            Some(Found { len, size })
        }
    }

    // Keeps no more than so many bytes.
    fn keep(&mut self, kept: usize)
        requires { kept ≤ length self.old.kept }
        ensures { self.new ≡ record self.old { kept = take kept self.old.kept } }
    {
        self.end = self.start + kept;
        self.len = self.len.min(kept);
    }

    // Reads on, behind what is kept, and says how many bytes came: 0 at the end of the file alone.
    fn fill<H: Shelf>(&mut self, shelf: &mut H) -> Result<usize, Outside>
        requires room { read_to self.old ≤ self.old.whole }
        requires fits { Fits (H.held shelf.old) self.old }
        requires open { length self.old.kept ≤ line_len self.old.kept }
        ensures keeps { IfOk result (λ n. KeepsMore self.old self.new n) }
        ensures ended { self.new.ended ≡ self.old.ended }
        ensures whole { IfOk result (λ n. n ≡ 0 → IfSome (H.held shelf.old) (λ files.
            length (bytes_at files self.old.name) ≤ read_to self.old)) }
        ensures told { IfOk result (λ n. n ≡ 0 → H.told_end shelf.new self.old.name (read_to self.old)) }
        ensures fits { Fits (H.held shelf.old) self.new }
        ensures err { OnErr result (self.new ≡ self.old) }
        ensures file { ReadsFile (account H.Shelf shelf.old) (account H.Shelf shelf.new) self.old.name
            (bytes_given result) (1 - bytes_given result) (result ≡ Err Outside.Failed) }
    {
        self.move_to_front();
        let kept = self.end - self.start;
        let at = self.place + kept as u64;
        let left = self.whole + 1 - at;
        let n = read_behind(shelf, &self.name, at, &mut self.buffer, self.end, left)?;
        self.len = kept + line_len(&self.buffer[self.end..self.end + n]);
        self.end += n;
        Ok(n)
    }

    // Moves what is kept to the front of the buffer. Where it stands there, no byte is moved: a long line isn't moved
    // for each piece of it.
    fn move_to_front(&mut self)
        ensures { self.new ≡ self.old }
    {
        if self.start == 0 {
            return;
        }
        self.buffer.copy_within(self.start..self.end, 0);
        self.end -= self.start;
        self.start = 0;
    }
}

// Where the next line stands at the front of what is kept: how long it is, and how long with its LF.
#[derive(Clone, Copy, Debug)]
pub(crate) struct Found {
    len: usize,
    size: usize,
}

// What is answered at a limit.
fn error_of(past: Past) -> CutError
    ensures { result ≡ error_of past }
{
    match past {
        Past::Line => CutError::TooLong,
        Past::Whole => CutError::TooMuch,
    }
}

fn cut_error(why: Outside) -> CutError
    ensures { result ≡ cut_error why }
{
    match why {
        Outside::Failed => CutError::Read,
        Outside::NoMemory => CutError::NoMemory,
    }
}
