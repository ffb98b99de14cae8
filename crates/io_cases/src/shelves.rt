// The shelves that tests read, and reads of them.
use cm_io::{MemShelf, Outside, Shelf, SureShelf, Tally, are_distinct};
use std::alloc::{AllocError, Global};
use std::process::Abort;
use std::test::Fail;

const NAMES: [&str; 2] = ["world", "log"];

const TEXTS: [&[u8]; 2] = [b"abcdef", b"x"];

fn names(alloc: Global) -> Result<Vec<String>, AllocError> {
    let mut names = Vec::new(alloc);
    for name in NAMES {
        names.push(String::from_str(alloc, name)?)?;
    }
    Ok(names)
}

fn texts(alloc: Global) -> Result<Vec<Vec<u8>>, AllocError> {
    let mut texts = Vec::new(alloc);
    for text in TEXTS {
        texts.push(text.to_vec(alloc)?)?;
    }
    Ok(texts)
}

// A shelf in memory, of whose reads these fail.
pub(crate) fn mem_shelf(rt: &impl Abort, alloc: Global, fail: &[u64]) -> Result<MemShelf, Fail> {
    let (names, texts) = (names(alloc)?, texts(alloc)?);
    assert!(rt; are_distinct(&names));
    assert_eq!(rt; texts.len(), names.len());
    Ok(MemShelf::new(alloc, names, texts, fail.to_vec(alloc)?)?)
}

// One with the same files that never fails.
pub(crate) fn sure_shelf(rt: &impl Abort, alloc: Global) -> Result<SureShelf, Fail> {
    let (names, texts) = (names(alloc)?, texts(alloc)?);
    assert!(rt; are_distinct(&names));
    assert_eq!(rt; texts.len(), names.len());
    Ok(SureShelf::new(alloc, names, texts)?)
}

// Reads into a buffer of a length, and compares with what is to come.
pub(crate) fn check_reads(
    rt: &impl Abort,
    shelf: &mut impl Shelf,
    rows: &[(&str, u64, usize, &[u8])],
) {
    for (name, at, len, want) in rows {
        check_read(rt, shelf, name, *at, *len, want);
    }
}

pub(crate) fn check_read(
    rt: &impl Abort,
    shelf: &mut impl Shelf,
    name: &str,
    at: u64,
    len: usize,
    want: &[u8],
) {
    let mut buf = [0u8; 8];
    let got = shelf.read_at(name, at, &mut buf[..len.min(8)]);
    assert!(rt; got == Ok(want.len()), "{name} at {at}");
    assert!(rt; buf.starts_with(want), "{name} at {at}");
}

// A read of a name fails.
pub(crate) fn check_fault(rt: &impl Abort, shelf: &mut impl Shelf, name: &str) {
    let got = shelf.read_at(name, 0, &mut [0; 4]);
    assert!(rt; got == Err(Outside::Failed), "{name}");
}

// What is counted under a name: faults, reads and bytes; None where it wasn't noted.
pub(crate) fn check_tally(rt: &impl Abort, got: Option<Tally>, want: Option<[u64; 3]>) {
    let got = got.map(|t| [t.faults, t.reads, t.taken]);
    assert!(rt; got == want, "{got:?}");
}
