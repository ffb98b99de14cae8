// The real outside: the files of the system, and a writer such as standard output. No contract can
// say what they hold.
ghost use Rattle.std.specs.Prelude.{◌≡◌, ◌≢◌, ◌≤◌, ℕ, List, None, length, max, map, IfOk, IfSome, IsTrue, is_some, string_bytes};
ghost use Rattle.std.specs.Io.KnownBytes.{WriteAppends};

use crate::counts::Counts;
use crate::streams::Streams;
use crate::{NoMemory, Outside, Shelf, Sink};
use std::alloc::Global;
use std::io::{ErrorKind, Read, Seek, SeekFrom, Write};
use std::rt::Files;
use std::{fs, io};

// How often a call that a signal interrupts is tried again.
const TRIES: u32 = 1_000_000;

/// Files of the system, by their paths. It tells nothing of what they hold.
///
/// It keeps counts for each name that was handed to `new`, of which the first equal one serves: of faults, of
/// reads, and of the bytes taken. All other names have one count of faults, and no others. Each error of
/// opening, moving or reading raises its name's count of faults: at a file that is missing, one that may not be
/// read, a directory. No read takes memory.
///
/// Of the names that were handed to `new`, the file that was read last stays open, and a read that goes on where the
/// last one ended is a plain read. A read at the place 0 opens the file anew, and one at another place opens it and
/// moves there.
///
/// A pipe, a FIFO or a terminal can't be moved in, and what is read of it is gone. Such a file is read as far as its
/// reads follow one another, the first from the place 0 and each from where the one before it ended, with no other file
/// between them: so it can be read from its front to its end. Any other read of it fails, also under another name, and
/// so does each under a name that was not handed to `new`.
#[derive(Drop)]
pub struct RealShelf<R: Files> {
    files: R,
    tally: Tally,
    streams: Streams,
    kept: Option<Kept<R::File>>,
}

// Counts for some names, and one count of the faults of all others.
#[derive(Drop)]
struct Tally {
    counts: Counts,
    others: u64,
}

impl Tally {
    ghost use Rattle.cm_io.specs.Counts.{counts_name};
    ghost use Rattle.cm_io.specs.Real.{TalliesRead};

    // The place of a name's own counts; none where it has none.
    #[tactic(auto, using(crate::proofs::Places::among_below, crate::proofs::Places::among_past))]
    fn own_place(&self, name: &str) -> Option<usize>
        ensures { is_some result ≡ counts_name self.now.counts name.now }
    {
        let place = self.counts.place_of(name);
        if place < self.counts.len() {
            Some(place)
        } else {
            None
        }
    }

    // Counts a read by what came of it.
    fn count(&mut self, name: &str, read: &Result<usize, Outside>)
        ensures { TalliesRead self.old self.new name.now read.now }
    {
        self.counts.count(name, read);
        if *read == Err(Outside::Failed) && self.own_place(name).is_none() {
            self.others = self.others.saturating_add(1);
        }
    }
}

// An open file, and whether it can't be moved in.
#[derive(Drop)]
struct Opened<F> {
    file: F,
    is_stream: bool,
}

// An open file that is kept: where its name's own counts stand, and the place in it that the next read is from.
#[derive(Drop)]
struct Kept<F> {
    own: usize,
    place: u64,
    opened: Opened<F>,
}

impl<R: Files + Drop> RealShelf<R> {
    ghost use Rattle.cm_io.specs.Names.{is_among};
    ghost use Rattle.cm_io.specs.Counts.{names_of};
    ghost use Rattle.cm_io.specs.Real.{real_tally};

    /// A shelf over these files, with counts for each of the names. All counts are 0, and no file is opened
    /// yet. `NoMemory` means that there was no memory for the names and counts.
    pub fn new(files: R, alloc: Global, names: &Vec<String>) -> Result<RealShelf<R>, NoMemory>
        ensures held { IfOk result (λ s. ⟦<RealShelf<R> as Shelf>⟧.held s ≡ None) }
        ensures names { IfOk result (λ s. names_of (real_tally s).counts ≡ map string_bytes names.now.items) }
        ensures faults { IfOk result (λ s. (n : List ℕ) → ⟦<RealShelf<R> as Shelf>⟧.faults s n ≡ 0) }
        ensures counted { IfOk result (λ s.
            (n : List ℕ) → ⟦<RealShelf<R> as Shelf>⟧.counted s n ≡ is_among (map string_bytes names.now.items) n) }
        ensures reads { IfOk result (λ s. (n : List ℕ) → ⟦<RealShelf<R> as Shelf>⟧.reads s n ≡ 0) }
        ensures taken { IfOk result (λ s. (n : List ℕ) → ⟦<RealShelf<R> as Shelf>⟧.taken s n ≡ 0) }
    {
        let streams = Streams::none(alloc, names.len())?;
        let names = copies_of(alloc, names)?;
        Ok(RealShelf {
            files,
            tally: Tally {
                counts: Counts::new(alloc, names)?,
                others: 0,
            },
            streams,
            kept: None,
        })
    }
}

fn copies_of(alloc: Global, names: &Vec<String>) -> Result<Vec<String>, NoMemory>
    ensures { IfOk result (λ copies. map string_bytes copies.items ≡ map string_bytes names.now.items) }
{
    let mut copies = Vec::new(alloc);
    for name in names {
        copies.push(name.clone()?)?;
    }
    Ok(copies)
}

impl<R: Files> Shelf for RealShelf<R> {
    ghost use Rattle.cm_io.specs.Shelf.{ReadsHeld, ReadFaults, CountsOn, OthersStay, reads_made, bytes_given};
    ghost use Rattle.cm_io.specs.Counts.{reads_of, taken_of, counts_name};
    ghost use Rattle.cm_io.specs.Real.{tally_faults, real_tally, OtherTalliesStay};

    ghost held = { λ _. None };

    ghost faults = { λ s name. tally_faults s.tally name };

    ghost counted = { λ s name. counts_name s.tally.counts name };

    ghost reads = { λ s name. reads_of s.tally.counts name };

    ghost taken = { λ s name. taken_of s.tally.counts name };

    ghost widest = { λ _. 0 };

    // No one knows what comes of a file that others write.
    ghost told_end = { λ _ _ _. Unit {0} };

    /// A read that a signal interrupts is tried again, up to a million times; after that it failed.
    /// It never runs out of memory. After an error no file stays open.
    fn read_at(&mut self, name: &str, at: u64, buf: &mut [u8]) -> Result<usize, Outside>
        ensures count { IfOk result (λ n. n ≤ length buf.new) }
        ensures read { ReadsHeld None name.now at buf.new result }
        ensures held { ⟦<RealShelf<R> as Shelf>⟧.held self.new ≡ None }
        ensures cause { ReadFaults (⟦<RealShelf<R> as Shelf>⟧.faults self.old)
            (⟦<RealShelf<R> as Shelf>⟧.faults self.new) name.now result }
        ensures apart { IsTrue (⟦<RealShelf<R> as Shelf>⟧.counted self.old name.now) →
            OthersStay (⟦<RealShelf<R> as Shelf>⟧.faults self.old) (⟦<RealShelf<R> as Shelf>⟧.faults self.new) name.now }
        ensures counted { (n : List ℕ) →
            ⟦<RealShelf<R> as Shelf>⟧.counted self.new n ≡ ⟦<RealShelf<R> as Shelf>⟧.counted self.old n }
        ensures reads { CountsOn (⟦<RealShelf<R> as Shelf>⟧.counted self.old) (⟦<RealShelf<R> as Shelf>⟧.reads self.old)
            (⟦<RealShelf<R> as Shelf>⟧.reads self.new) name.now (reads_made result) }
        ensures taken { CountsOn (⟦<RealShelf<R> as Shelf>⟧.counted self.old) (⟦<RealShelf<R> as Shelf>⟧.taken self.old)
            (⟦<RealShelf<R> as Shelf>⟧.taken self.new) name.now (bytes_given result) }
        ensures widest { ⟦<RealShelf<R> as Shelf>⟧.widest self.new ≤ max (⟦<RealShelf<R> as Shelf>⟧.widest self.old) (length buf.new) }
        ensures told { IfOk result (λ n. n ≡ 0 → length buf.new ≢ 0 →
            ⟦<RealShelf<R> as Shelf>⟧.told_end self.new name.now at) }
        ensures others { OtherTalliesStay (real_tally self.old) (real_tally self.new) name.now }

        // It never runs out of memory, so each read of a name that it counts is counted, whatever came of it.
        ensures no_want { result ≢ Err Outside.NoMemory }
        ensures all_reads { CountsOn (⟦<RealShelf<R> as Shelf>⟧.counted self.old)
            (⟦<RealShelf<R> as Shelf>⟧.reads self.old) (⟦<RealShelf<R> as Shelf>⟧.reads self.new) name.now 1 }
    {
        let own = self.tally.own_place(name);
        let opened = match kept_at(self.kept.take(), own, at) {
            Some(opened) => Some(opened),
            None => open_at(&self.files, &mut self.streams, own, name, at),
        };
        let read = match read_from(opened, buf) {
            Some((n, opened)) => {
                self.kept = keep(own, at.saturating_add(n as u64), opened);
                Ok(n)
            }
            None => Err(Outside::Failed),
        };
        self.tally.count(name, &read);
        read
    }
}

// Reads once, and gives the file back that was read; nothing where there is none, or that failed.
fn read_from<F: Read + Drop>(
    opened: Option<Opened<F>>,
    buf: &mut [u8],
) -> Option<(usize, Opened<F>)>
    ensures { IfSome result (λ read. read.0 ≤ length buf.new) }
{
    let mut opened = opened?;
    let n = read_once(&mut opened.file, buf)?;
    Some((n, opened))
}

// A file that stays open where its name has counts of its own.
fn keep<F: Drop>(own: Option<usize>, place: u64, opened: Opened<F>) -> Option<Kept<F>> {
    Some(Kept {
        own: own?,
        place,
        opened,
    })
}

// The kept file where it has this name and stands at this place. At the front it is read on only where it can't be
// opened anew.
fn kept_at<F: Drop>(kept: Option<Kept<F>>, own: Option<usize>, at: u64) -> Option<Opened<F>> {
    let kept = kept?;
    if kept.place == at && own == Some(kept.own) && (at != 0 || kept.opened.is_stream) {
        Some(kept.opened)
    } else {
        None
    }
}

// Opens a file and moves in it. One that can't be moved in is opened once, at its front.
fn open_at<R: Files>(
    files: &R,
    streams: &mut Streams,
    own: Option<usize>,
    name: &str,
    at: u64,
) -> Option<Opened<R::File>> {
    if own.is_some_and(|own| streams.has(own)) {
        return None;
    }
    let mut file = fs::open(files, name).ok()?;
    let is_stream = file.seek(SeekFrom::Start(at)).is_err();
    if is_stream && (at != 0 || !streams.note(own?, &file)) {
        return None;
    }
    Some(Opened { file, is_stream })
}

fn read_once<F: Read>(file: &mut F, buf: &mut [u8]) -> Option<usize>
    ensures { IfSome result (λ n. n ≤ length buf.new) }
{
    for _ in 0..TRIES {
        match file.read(buf) {
            Ok(n) => return Some(n),
            Err(why) if why.kind() == ErrorKind::Interrupted => {}
            Err(_) => return None,
        }
    }
    None
}

/// A writer such as standard output. As a sink it tells nothing of what was written; of the bytes that its writer holds
/// each call says what the writer's contract says.
///
/// The writer is to hold nothing back: no call flushes it.
#[derive(Drop)]
pub struct RealSink<W: Write> {
    writer: W,
    faults: u64,
}

impl<W: Write> RealSink<W> {
    ghost use Rattle.cm_io.specs.Real.{writer_bytes};

    /// A sink over this writer. The count of faults is 0.
    pub fn new(writer: W) -> RealSink<W>
        ensures written { ⟦<RealSink<W> as Sink>⟧.written result ≡ None }
        ensures faults { ⟦<RealSink<W> as Sink>⟧.faults result ≡ 0 }
        ensures bytes { writer_bytes W.contents result ≡ W.contents writer }
    {
        RealSink { writer, faults: 0 }
    }
}

impl<W: Write> Sink for RealSink<W> {
    ghost use Rattle.std.specs.Io.KnownBytes.{WriteAppends};
    ghost use Rattle.cm_io.specs.Sink.{then_written, sent, WriteFaults};
    ghost use Rattle.cm_io.specs.Real.{writer_bytes};

    ghost written = { λ _. None };

    ghost faults = { λ s. s.faults };

    /// Each error is a fault, and so is a write that takes nothing of a piece that isn't empty; no call
    /// is made for an empty piece. A write that a signal interrupts is tried again, up to a million
    /// times. It never runs out of memory.
    fn write(&mut self, piece: &[u8]) -> Result<usize, Outside>
        ensures count { IfOk result (λ n. n ≤ length piece.now) }
        ensures some { IfOk result (λ n. n ≡ 0 → length piece.now ≡ 0) }
        ensures written { ⟦<RealSink<W> as Sink>⟧.written self.new
            ≡ then_written (⟦<RealSink<W> as Sink>⟧.written self.old) (sent piece.now result) }
        ensures cause { WriteFaults (⟦<RealSink<W> as Sink>⟧.faults self.old) (⟦<RealSink<W> as Sink>⟧.faults self.new) result }

        // Known bytes of the writer grow by what was taken of the piece, and at an error by nothing.
        ensures bytes { WriteAppends (writer_bytes W.contents self.old) (writer_bytes W.contents self.new) result piece.now }
        ensures no_want { result ≢ Err Outside.NoMemory }
    {
        if piece.is_empty() {
            return Ok(0);
        }
        match write_once(&mut self.writer, piece) {
            Ok(n) if n > 0 => Ok(n),
            _ => {
                self.faults = self.faults.saturating_add(1);
                Err(Outside::Failed)
            }
        }
    }
}

fn write_once<W: Write>(writer: &mut W, piece: &[u8]) -> io::Result<usize>
    ensures count { IfOk result (λ n. n ≤ length piece.now) }
    ensures bytes { WriteAppends (W.contents writer.old) (W.contents writer.new) result piece.now }
{
    for _ in 0..TRIES {
        match writer.write(piece) {
            Err(why) if why.kind() == ErrorKind::Interrupted => {}
            done => return done,
        }
    }
    Ok(0)
}
