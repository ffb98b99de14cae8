// Lines of a log of strace -f that are held until their process is born (docs/STRACE.md).
use crate::case::{answer, shelf, strings};
use cm_cli::Status;
use std::alloc::{AllocError, Global};
use std::process::Abort;
use std::test::Fail;

const WORLD: &str = "log = \"strace\"
[[process]]
pid = 200
";

// So many lines of a process that isn't known.
fn unknown_lines(alloc: Global, count: u32) -> Result<Vec<u8>, AllocError> {
    let mut log = Vec::new(alloc);
    for _ in 0..count {
        log.extend_from_slice(b"300 getpid() = 300\n")?;
    }
    Ok(log)
}

// The replay of so many such lines has this status, and this last line.
fn check_held(
    rt: &impl Abort,
    alloc: Global,
    count: u32,
    status: Status,
    last: &str,
) -> Result<(), Fail> {
    let log = unknown_lines(alloc, count)?;
    let words = strings(alloc, &["replay", "world", "log"])?;
    let mut shelf = shelf(rt, alloc, WORLD.as_bytes(), &log, &[])?;
    let (got, text) = answer(alloc, &words, &mut shelf, &[])?;
    assert_eq!(rt; got, status);
    assert!(rt; text.ends_with(last.as_bytes()));
    Ok(())
}

#[test]
fn held_lines_have_a_limit(rt: HostRuntime) -> Result<(), Fail> {
    let alloc = rt.alloc();
    check_held(&rt, alloc, 4096, Status::Accepted, "nnp=0\nend 0\n")?;
    check_held(&rt, alloc, 4097, Status::Limit, "nnp=0\nlimit held 4096\n")
}
