// Shelves and sinks in memory, and files that are read whole.
use crate::shelves::{check_read, check_reads, check_tally, mem_shelf, sure_shelf};
use cm_io::{
    MemShelf, MemSink, Outside, Shelf, Sink, SureShelf, SureSink, WholeError, read_whole, write_all,
};
use std::alloc::Global;
use std::process::Abort;
use std::test::Fail;

const ROWS: [(&str, u64, usize, &[u8]); 7] = [
    ("world", 0, 8, b"abcdef"),
    ("world", 0, 4, b"abcd"),
    ("world", 4, 4, b"ef"),
    ("world", 6, 4, b""),
    ("world", 9, 4, b""),
    ("world", 0, 0, b""),
    ("log", 0, 4, b"x"),
];

#[test]
fn shelves_in_memory_read(rt: HostRuntime) -> Result<(), Fail> {
    check_reads(&rt, &mut mem_shelf(&rt, rt.alloc(), &[])?, &ROWS);
    let mut sure = sure_shelf(&rt, rt.alloc())?;
    check_reads(&rt, &mut sure, &ROWS);
    check_reads(&rt, &mut sure, &[("plan", 0, 4, b"")]);
    Ok(())
}

#[test]
fn reads_fail_at_their_turns(rt: HostRuntime) -> Result<(), Fail> {
    let mut shelf = mem_shelf(&rt, rt.alloc(), &[2, 4])?;
    let mut buf = [0u8; 1];
    for (name, want) in [
        ("log", Ok(1)),
        ("log", Err(Outside::Failed)),
        ("log", Ok(1)),
        ("world", Err(Outside::Failed)),
        ("plan", Err(Outside::Failed)),
        ("world", Ok(1)),
    ] {
        assert!(rt; shelf.read_at(name, 0, &mut buf) == want, "{name}");
    }
    Ok(())
}

#[test]
fn files_are_broken_from_a_place_on(rt: HostRuntime) -> Result<(), Fail> {
    let mut shelf = mem_shelf(&rt, rt.alloc(), &[])?;
    assert!(rt; shelf.widest() == 0);
    shelf.fail_from(rt.alloc(), "world", 4)?;
    shelf.fail_from(rt.alloc(), "world", 5)?;
    check_reads(
        &rt,
        &mut shelf,
        &[("world", 3, 3, b"def"), ("log", 4, 4, b"")],
    );
    for at in [4, 5, 9] {
        let got = shelf.read_at("world", at, &mut [0; 8]);
        assert!(rt; got == Err(Outside::Failed), "{at}");
    }
    check_tally(&rt, shelf.tally("world"), Some([3, 4, 3]));
    assert!(rt; shelf.widest() == 8);
    Ok(())
}

// Reads a name that isn't held. Where an allocation is refused, nothing changes, and the next try is the read.
fn read_unheld(shelf: &mut impl Shelf, name: &str) -> Result<usize, Outside> {
    match shelf.read_at(name, 0, &mut [0; 4]) {
        Err(Outside::NoMemory) => shelf.read_at(name, 0, &mut [0; 4]),
        read => read,
    }
}

// Two reads of a name that isn't held, on a shelf whose every read of it fails, and on one whose reads never do.
fn check_unheld(rt: &impl Abort, shelf: &mut MemShelf, sure: &mut SureShelf, name: &str) {
    check_tally(rt, shelf.tally(name), None);
    for reads in [1, 2] {
        assert!(rt; read_unheld(shelf, name) == Err(Outside::Failed), "{name}");
        check_tally(rt, shelf.tally(name), Some([reads, reads, 0]));
        assert!(rt; read_unheld(sure, name) == Ok(0), "{name}");
        check_tally(rt, sure.tally(name), Some([0, reads, 0]));
    }
}

#[test]
fn reads_of_each_name_are_counted(rt: HostRuntime) -> Result<(), Fail> {
    let mut shelf = mem_shelf(&rt, rt.alloc(), &[2])?;
    let mut sure = sure_shelf(&rt, rt.alloc())?;
    check_read(&rt, &mut shelf, "world", 0, 4, b"abcd");
    check_read(&rt, &mut sure, "world", 0, 4, b"abcd");
    // More names than the shelves have room for at first.
    for name in ["plan", "memo", "note"] {
        check_unheld(&rt, &mut shelf, &mut sure, name);
    }
    // The first read of `plan` took the turn that was to fail, so this one is made.
    check_read(&rt, &mut shelf, "world", 4, 4, b"ef");
    check_tally(&rt, shelf.tally("world"), Some([0, 2, 6]));
    check_tally(&rt, sure.tally("world"), Some([0, 1, 4]));
    check_tally(&rt, sure.tally("log"), Some([0, 0, 0]));
    Ok(())
}

#[test]
fn sinks_in_memory_write(rt: HostRuntime) -> Result<(), Fail> {
    let alloc = rt.alloc();
    let mut sink = MemSink::new(alloc, [2].to_vec(alloc)?);
    assert!(rt; sink.write(b"ab") == Ok(2));
    assert!(rt; sink.write(b"cd") == Err(Outside::Failed));
    assert!(rt; write_all(&mut sink, b"ef") == Ok(()));
    assert!(rt; sink.bytes() == b"abef".as_slice());
    let mut sure = SureSink::new(alloc);
    assert!(rt; write_all(&mut sure, b"abc") == Ok(()));
    assert!(rt; sure.bytes() == b"abc".as_slice());
    Ok(())
}

// A file of the shelf in memory, of which the read of that number fails, is read whole up to a limit, with this end and
// this text.
fn check_whole(
    rt: &impl Abort,
    alloc: Global,
    (fail, name, limit): (u64, &str, u8),
    want: Result<(), WholeError>,
    read: &[u8],
) -> Result<(), Fail> {
    let mut shelf = mem_shelf(rt, alloc, &[fail])?;
    let mut text = Vec::new(alloc);
    let got = read_whole(alloc, &mut shelf, name, usize::from(limit), &mut text);
    assert!(rt; got == want, "{name} up to {limit}");
    assert!(rt; text.as_slice() == read, "{name} up to {limit}");
    Ok(())
}

#[test]
fn files_are_read_whole(rt: HostRuntime) -> Result<(), Fail> {
    let alloc = rt.alloc();
    let too_much = Err(WholeError::TooMuch);
    let fault = Err(WholeError::Read);
    check_whole(&rt, alloc, (9, "world", 6), Ok(()), b"abcdef")?;
    check_whole(&rt, alloc, (9, "world", 5), too_much, b"abcdef")?;
    check_whole(&rt, alloc, (9, "world", 2), too_much, b"abc")?;
    check_whole(&rt, alloc, (2, "world", 6), fault, b"abcdef")?;
    check_whole(&rt, alloc, (9, "plan", 6), fault, b"")
}
