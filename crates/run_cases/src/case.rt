// A command over a world and a log, both in memory, with its status and all that it writes.
use cm_cli::{Status, run};
use cm_io::{MemShelf, MemSink, are_distinct};
use std::alloc::{AllocError, Global};
use std::process::Abort;
use std::test::Fail;

pub(crate) fn strings(alloc: Global, words: &[&str]) -> Result<Vec<String>, AllocError> {
    let mut strings = Vec::new(alloc);
    for word in words {
        strings.push(String::from_str(alloc, word)?)?;
    }
    Ok(strings)
}

/// A shelf with a world and a log, of which the reads with these numbers fail.
pub(crate) fn shelf(
    rt: &impl Abort,
    alloc: Global,
    world: &[u8],
    log: &[u8],
    fail: &[u64],
) -> Result<MemShelf, Fail> {
    shelf_of(rt, alloc, &[("world", world), ("log", log)], fail)
}

/// A shelf with these files, of which the reads with these numbers fail.
pub(crate) fn shelf_of(
    rt: &impl Abort,
    alloc: Global,
    files: &[(&str, &[u8])],
    fail: &[u64],
) -> Result<MemShelf, Fail> {
    let mut names = Vec::new(alloc);
    let mut texts = Vec::new(alloc);
    for (name, text) in files {
        names.push(String::from_str(alloc, name)?)?;
        texts.push(text.to_vec(alloc)?)?;
    }
    assert!(rt; are_distinct(&names));
    assert_eq!(rt; texts.len(), names.len());
    Ok(MemShelf::new(alloc, names, texts, fail.to_vec(alloc)?)?)
}

/// What the words answer and write, where the writes with these numbers fail.
pub(crate) fn answer(
    alloc: Global,
    words: &Vec<String>,
    shelf: &mut MemShelf,
    fail: &[u64],
) -> Result<(Status, Vec<u8>), Fail> {
    let mut out = MemSink::new(alloc, fail.to_vec(alloc)?);
    let status = run(alloc, words, shelf, &mut out);
    Ok((status, out.bytes().to_vec(alloc)?))
}

/// A line so many times.
pub(crate) fn repeated(alloc: Global, line: &[u8], count: u32) -> Result<Vec<u8>, AllocError> {
    let mut text = Vec::new(alloc);
    for _ in 0..count {
        text.extend_from_slice(line)?;
    }
    Ok(text)
}

/// A comment of so many bytes, and its LF.
pub(crate) fn comment(alloc: Global, length: usize) -> Result<Vec<u8>, AllocError> {
    let mut line = vec![in alloc; b';'; length]?;
    line.push(b'\n')?;
    Ok(line)
}

/// What the words answer and write over a world and a log, where no read and no write fails.
pub(crate) fn outcome(
    rt: &impl Abort,
    alloc: Global,
    words: &[&str],
    (world, log): (&[u8], &[u8]),
) -> Result<(Status, Vec<u8>), Fail> {
    let words = strings(alloc, words)?;
    let mut shelf = shelf(rt, alloc, world, log, &[])?;
    answer(alloc, &words, &mut shelf, &[])
}

/// The words of the replay of the log in the world.
pub(crate) const REPLAY: [&str; 3] = ["replay", "world", "log"];

/// The replay of a log in a world comes out so.
pub(crate) fn check(
    rt: &impl Abort,
    alloc: Global,
    world: &[u8],
    log: &[u8],
    status: Status,
    report: &[u8],
) -> Result<(), Fail> {
    let (got, text) = outcome(rt, alloc, &REPLAY, (world, log))?;
    assert_eq!(rt; got, status);
    assert!(rt; text.as_slice() == report);
    Ok(())
}
