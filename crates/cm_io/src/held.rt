// Files in memory, and what is counted of the reads of each name.
ghost use Rattle.std.specs.Prelude.{◌≡◌, ◌≤◌, ◌-◌, [], vec_len, length, take, drop, min, map, string_bytes};
ghost use Rattle.std.specs.Prelude.{IfOk, IfSome, IfNone, is_ok, is_some};

use crate::counts::{Counts, Tally};
use crate::{NoMemory, Outside};
use std::alloc::Global;

/// Files in memory, with counts for each of their names, and for each further name that was noted.
#[derive(Drop)]
pub(crate) struct Held {
    alloc: Global,
    counts: Counts,
    texts: Vec<Vec<u8>>,
    ghost names_first: { vec_len texts ≤ vec_len counts.rows },
}

impl Held {
    ghost use Rattle.cm_io.specs.Shelf.{bytes_at};
    ghost use Rattle.cm_io.specs.Counts.{names_of, tally_of, StartsCounts, NotesName, CountsRead};
    ghost use Rattle.cm_io.specs.Held.{files_of, held_files, is_held};

    /// Files that hold `texts` under `names`. All counts are 0.
    pub(crate) fn new(
        alloc: Global,
        names: Vec<String>,
        texts: Vec<Vec<u8>>,
    ) -> Result<Held, NoMemory>
        requires { vec_len texts ≡ vec_len names }
        ensures files { IfOk result (λ h. held_files h ≡ files_of (map string_bytes names.items) texts.items) }
        ensures names { IfOk result (λ h. names_of h.counts ≡ map string_bytes names.items) }
        ensures zero { IfOk result (λ h. StartsCounts h.counts) }
    {
        Ok(Held {
            alloc,
            counts: Counts::new(alloc, names)?,
            texts,
        })
    }

    /// Gives the name counts of its own, where it has none yet. Where memory runs out nothing changes.
    pub(crate) fn note(&mut self, name: &str) -> Result<(), NoMemory>
        ensures files { held_files self.new ≡ held_files self.old }
        ensures counts { NotesName self.old.counts self.new.counts name.now (is_ok result) }
    {
        self.counts.note(self.alloc, name)
    }

    /// The bytes of the file of this name.
    pub(crate) fn text(&self, name: &str) -> Option<&[u8]>
        ensures held { is_some result ≡ is_held (held_files self.now) name.now }
        ensures text { IfSome result (λ text. text.now ≡ bytes_at (held_files self.now) name.now) }
        ensures none { IfNone result (bytes_at (held_files self.now) name.now ≡ []) }
    {
        let place = self.counts.place_of(name);
        if place < self.texts.len() {
            Some(self.texts[place].as_slice())
        } else {
            None
        }
    }

    /// What is counted under a name. None exactly where it has no counts.
    pub(crate) fn tally(&self, name: &str) -> Option<Tally>
        ensures { result ≡ tally_of self.now.counts name.now }
    {
        self.counts.tally(name)
    }

    /// Counts a read under its name, where that has counts.
    pub(crate) fn count(&mut self, name: &str, read: &Result<usize, Outside>)
        ensures files { held_files self.new ≡ held_files self.old }
        ensures counts { CountsRead self.old.counts self.new.counts name.now read.now }
    {
        self.counts.count(name, read);
    }
}

/// Copies what a text has from a place on, as much as fits, and gives how many bytes that were.
pub(crate) fn copy_part(text: &[u8], at: u64, buf: &mut [u8]) -> usize
    ensures count { result ≡ min (length buf.old) (length text.now - at) }
    ensures part { take result buf.new ≡ take result (drop at text.now) }
{
    if at >= text.len() as u64 {
        return 0;
    }
    let rest = &text[at as usize..];
    let n = rest.len().min(buf.len());
    buf[..n].copy_from_slice(&rest[..n]);
    n
}
