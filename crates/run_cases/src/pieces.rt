// Logs of many pieces of 65,536 bytes: how far a report goes before a read that fails, how wide the reads are, and lines that
// are no events. The reports are written by hand, or made here line by line.
use crate::case::{REPLAY, answer, check, comment, repeated, shelf, shelf_of, strings};
use cm_cli::Status;
use std::alloc::{AllocError, Global};
use std::process::Abort;
use std::test::Fail;

const WORLD: &[u8] = b"log = \"script\"\n[[process]]\npid = 100\nuid = 0\n";

const ROOT: &str =
    "> 100 init uid=0,0,0,0 gid=0,0,0,0 groups=- inh=0000000000000000 prm=000001ffffffffff \
                    eff=000001ffffffffff bnd=000001ffffffffff amb=0000000000000000 sec=00 nnp=0\n";

const USER: &str = "> 100 init uid=1000,1000,1000,1000 gid=0,0,0,0 groups=- inh=0000000000000000 \
                    prm=0000000000000000 eff=0000000000000000 bnd=000001ffffffffff amb=0000000000000000 sec=00 nnp=0\n";

// A log of 60,000 lines, 19 bytes each.
fn log_of_root(alloc: Global) -> Result<Vec<u8>, AllocError> {
    repeated(alloc, b"100 setfsuid 0 = 0\n", 60_000)
}

// What a report tells of so many of these lines.
fn told(alloc: Global, count: u32) -> Result<Vec<u8>, AllocError> {
    let mut report = ROOT.as_bytes().to_vec(alloc)?;
    for number in 1..=count {
        let event = format!(in alloc; "{number}: 100 setfsuid 0 = 0\n{ROOT}")?;
        report.extend_from_slice(event.as_bytes())?;
    }
    Ok(report)
}

#[test]
fn what_was_read_before_a_fault_is_told(rt: HostRuntime) -> Result<(), Fail> {
    let alloc = rt.alloc();
    let log = log_of_root(alloc)?;
    let mut whole = told(alloc, 60_000)?;
    whole.extend_from_slice(b"end 60000\n")?;
    check(&rt, alloc, WORLD, &log, Status::Accepted, &whole)?;

    // 55,188 lines end before the place from which on reads fail. The clauses promise a front of the report that holds the
    // start lines, and not how much of it: so that all of these lines are told is seen here.
    let front = told(alloc, 55_188)?;
    let words = strings(alloc, &REPLAY)?;
    let mut shelf = shelf(&rt, alloc, WORLD, &log, &[])?;
    shelf.fail_from(alloc, "log", 1_048_576)?;
    let (status, text) = answer(alloc, &words, &mut shelf, &[])?;
    assert_eq!(rt; status, Status::ReadFault);
    assert!(rt; whole.starts_with(&text));
    assert!(rt; text.starts_with(&front));
    assert!(rt; shelf.widest() <= 65_536);
    Ok(())
}

#[test]
fn a_judgement_writes_nothing_before_a_fault(rt: HostRuntime) -> Result<(), Fail> {
    let alloc = rt.alloc();
    let log = log_of_root(alloc)?;
    let files: [(&str, &[u8]); 3] = [("world", WORLD), ("log", log.as_slice()), ("third", b"")];
    for command in ["check", "confirm"] {
        let words = strings(alloc, &[command, "world", "log", "100", "uid:0", "third"])?;
        let mut shelf = shelf_of(&rt, alloc, &files, &[])?;
        shelf.fail_from(alloc, "log", 1_048_576)?;
        let (status, text) = answer(alloc, &words, &mut shelf, &[])?;
        assert_eq!(rt; status, Status::ReadFault, "{command}");
        assert!(rt; text.is_empty(), "{command}");
    }
    Ok(())
}

// 70,000 comments of 1,023 bytes before the one event: more than 64 MiB.
#[test]
fn comments_of_many_pieces_are_lines(rt: HostRuntime) -> Result<(), Fail> {
    let alloc = rt.alloc();
    let mut log = repeated(alloc, &comment(alloc, 1023)?, 70_000)?;
    log.extend_from_slice(b"100 setresuid 1000 1000 1000 = 0\n")?;
    let report = format!(in alloc; "{ROOT}70001: 100 setresuid 1000 1000 1000 = 0\n{USER}end 1\n")?;
    check(&rt, alloc, WORLD, &log, Status::Accepted, report.as_bytes())
}
