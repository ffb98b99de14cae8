// Files, pipes and writers of the system.
use crate::shelves::{check_fault, check_read};
use cm_io::{Outside, RealShelf, RealSink, Sink, read_whole, write_all};
use std::alloc::Global;
use std::io::{PipeReader, Write};
use std::os::fd::AsRawFd;
use std::test::Fail;
use std::{env, fs, io, process};

// The path of a file of this test's own.
fn own_path(rt: &HostRuntime, alloc: Global, which: &str) -> Result<String, Fail> {
    let dir = env::temp_dir(rt)?;
    let id = process::id(rt.process());
    Ok(format!(in alloc; "{}/cm_io_{id}_{which}", dir.as_str())?)
}

#[test]
fn real_files_are_read(rt: HostRuntime) -> Result<(), Fail> {
    let alloc = rt.alloc();
    let names = vec![in alloc;
        own_path(&rt, alloc, "one")?,
        own_path(&rt, alloc, "other")?,
    ]?;
    let (path, other) = (names[0].as_str(), names[1].as_str());
    let long = vec![in alloc; b'y'; 70_000]?;
    fs::write(&rt, path, long.as_slice())?;
    let mut shelf = RealShelf::new(&rt, alloc, &names)?;
    let mut text = Vec::new(alloc);
    let got = read_whole(alloc, &mut shelf, path, 70_000, &mut text);
    assert!(rt; got == Ok(()) && text.as_slice() == long.as_slice());
    fs::write(&rt, path, "abcdef")?;
    fs::write(&rt, other, "uvwxyz")?;
    check_read(&rt, &mut shelf, path, 0, 4, b"abcd");
    // The other file is read up to the place at which the first one is read on.
    check_read(&rt, &mut shelf, other, 0, 4, b"uvwx");
    check_read(&rt, &mut shelf, path, 4, 4, b"ef");
    check_read(&rt, &mut shelf, other, 4, 4, b"yz");
    check_read(&rt, &mut shelf, path, 6, 4, b"");
    check_read(&rt, &mut shelf, path, 2, 2, b"cd");
    fs::remove_file(&rt, path)?;
    fs::remove_file(&rt, other)?;
    check_fault(&rt, &mut shelf, path);
    check_fault(&rt, &mut shelf, "/");
    check_fault(&rt, &mut shelf, "/no/such/file");
    Ok(())
}

// A pipe with these bytes, of which no more come.
fn filled_pipe(rt: &HostRuntime, bytes: &[u8]) -> Result<PipeReader, Fail> {
    let (end, mut filled) = io::pipe(rt)?;
    filled.write_all(bytes)?;
    Ok(end)
}

// Its end is opened by three paths, of which the last wasn't handed over.
#[test]
fn a_pipe_is_read_once(rt: HostRuntime) -> Result<(), Fail> {
    let alloc = rt.alloc();
    let end = filled_pipe(&rt, b"abcdef")?;
    let fd = end.as_raw_fd();
    let names = vec![in alloc;
        format!(in alloc; "/proc/self/fd/{fd}")?,
        format!(in alloc; "/dev/fd/{fd}")?,
    ]?;
    let third = format!(in alloc; "/proc/thread-self/fd/{fd}")?;
    let mut shelf = RealShelf::new(&rt, alloc, &names)?;
    let (path, other) = (names[0].as_str(), names[1].as_str());
    check_read(&rt, &mut shelf, path, 0, 2, b"ab");
    check_read(&rt, &mut shelf, path, 2, 3, b"cde");
    check_fault(&rt, &mut shelf, other);
    check_fault(&rt, &mut shelf, path);
    check_fault(&rt, &mut shelf, third.as_str());
    Ok(())
}

#[test]
fn a_writer_is_written(rt: HostRuntime) -> Result<(), Fail> {
    let mut bytes = Vec::new(rt.alloc());
    let mut sink = RealSink::new(&mut bytes);
    assert!(rt; write_all(&mut sink, b"abc") == Ok(()));
    assert!(rt; sink.write(b"") == Ok(0));
    assert!(rt; bytes.as_slice() == b"abc".as_slice());
    // A slice takes what fits, and then nothing.
    let mut room = [0u8; 3];
    let mut sink = RealSink::new(room.as_mut_slice());
    assert!(rt; sink.write(b"abcd") == Ok(3));
    assert!(rt; sink.write(b"d") == Err(Outside::Failed));
    Ok(())
}
