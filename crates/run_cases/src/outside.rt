// Reads and writes that fail in turn, and a shelf and a sink that never fail.
use crate::case::{REPLAY, answer, outcome, repeated, shelf, shelf_of, strings};
use cm_cli::{Status, run_surely};
use cm_io::{SureShelf, SureSink, are_distinct};
use std::alloc::Global;
use std::process::Abort;
use std::test::Fail;

const WORLD: &[u8] = b"log = \"script\"\n[[process]]\npid = 100\n";

const START: &str =
    "> 100 init uid=0,0,0,0 gid=0,0,0,0 groups=- inh=0000000000000000 prm=000001ffffffffff \
                     eff=000001ffffffffff bnd=000001ffffffffff amb=0000000000000000 sec=00 nnp=0\n";

// A log whose report leaves in several pieces, and that report.
fn long_replay(rt: &impl Abort, alloc: Global) -> Result<(Vec<u8>, Vec<u8>), Fail> {
    let log = repeated(alloc, b"100 setresuid 1000 1000 1000 = 0\n", 1000)?;
    let (status, whole) = outcome(rt, alloc, &REPLAY, (WORLD, log.as_slice()))?;
    assert_eq!(rt; status, Status::Accepted);
    Ok((log, whole))
}

#[test]
fn reads_fail_in_turn(rt: HostRuntime) -> Result<(), Fail> {
    let alloc = rt.alloc();
    let words = strings(alloc, &REPLAY)?;
    let (log, whole) = long_replay(&rt, alloc)?;

    // A read of each file, and one that finds its end. Before those of the log nothing is written; then the start lines
    // are, and once all lines are read what they tell: all but the last line, which counts the events.
    let told = [0, 0, START.len(), whole.len().saturating_sub(9)];
    let mut met = 0;
    for k in 1..20 {
        let mut shelf = shelf(&rt, alloc, WORLD, &log, &[k])?;
        let (got, text) = answer(alloc, &words, &mut shelf, &[])?;
        if got == Status::Accepted {
            break;
        }
        assert_eq!(rt; got, Status::ReadFault, "read {k}");
        assert!(rt; whole.starts_with(&text), "read {k}");
        assert!(rt; told.get(met) == Some(&text.len()), "read {k}");
        met += 1;
    }
    assert_eq!(rt; met, 4);
    assert!(rt; whole.starts_with(START.as_bytes()));
    assert!(rt; whole.ends_with(b"end 1000\n"));
    Ok(())
}

#[test]
fn writes_fail_in_turn(rt: HostRuntime) -> Result<(), Fail> {
    let alloc = rt.alloc();
    let words = strings(alloc, &REPLAY)?;
    let (log, whole) = long_replay(&rt, alloc)?;
    assert!(rt; whole.ends_with(b"end 1000\n"));
    let mut met = 0;
    let mut before = 0;
    for k in 1..20 {
        let mut shelf = shelf(&rt, alloc, WORLD, &log, &[])?;
        let (got, text) = answer(alloc, &words, &mut shelf, &[k])?;
        if got == Status::Accepted {
            break;
        }
        assert_eq!(rt; got, Status::WriteFault, "write {k}");
        assert!(rt; whole.starts_with(&text), "write {k}");
        assert!(rt; k == 1 || before < text.len(), "write {k}");
        before = text.len();
        met = k;
    }
    assert!(rt; met > 2);
    Ok(())
}

// These words answer and write so over that third file; and where the one write fails, they answer that, and write nothing.
fn check_write(
    rt: &impl Abort,
    alloc: Global,
    words: &[&str],
    third: &[u8],
    (status, report): (Status, &[u8]),
) -> Result<(), Fail> {
    let words = strings(alloc, words)?;
    let files: [(&str, &[u8]); 3] = [("world", WORLD), ("log", b""), ("third", third)];
    let mut shelf = shelf_of(rt, alloc, &files, &[])?;
    let (got, text) = answer(alloc, &words, &mut shelf, &[])?;
    assert_eq!(rt; got, status);
    assert!(rt; text.as_slice() == report);
    let (got, text) = answer(alloc, &words, &mut shelf, &[1])?;
    assert_eq!(rt; got, Status::WriteFault);
    assert!(rt; text.is_empty());
    Ok(())
}

#[test]
fn the_write_of_a_judgement_and_of_a_drill_fails(rt: HostRuntime) -> Result<(), Fail> {
    let alloc = rt.alloc();
    let check = ["check", "world", "log", "100", "uid:0", "third"];
    let told: (Status, &[u8]) = (Status::Refused, b"refused json\n");
    check_write(&rt, alloc, &check, b"{", told)?;
    let confirm = ["confirm", "world", "log", "100", "uid:0", "third"];
    let told: (Status, &[u8]) = (Status::Accepted, b"confirmed 100\n");
    check_write(&rt, alloc, &confirm, b"", told)?;
    let told: (Status, &[u8]) = (
        Status::Accepted,
        b"events 0\nrefused 0\nlive 1\nspaces 1\nverdict no\n",
    );
    check_write(&rt, alloc, &["drill", "0"], b"", told)
}

#[test]
fn a_sure_shelf_is_replayed(rt: HostRuntime) -> Result<(), Fail> {
    let alloc = rt.alloc();
    let names = strings(alloc, &["world", "log"])?;
    let mut texts = Vec::new(alloc);
    texts.push(WORLD.to_vec(alloc)?)?;
    texts.push(b"100 exit = 0".to_vec(alloc)?)?;
    assert!(rt; are_distinct(&names));
    assert_eq!(rt; texts.len(), names.len());
    let mut shelf = SureShelf::new(alloc, names, texts)?;
    let mut out = SureSink::new(alloc);
    let words = strings(alloc, &REPLAY)?;
    let status = run_surely(alloc, &words, &mut shelf, &mut out);
    assert_eq!(rt; status, Status::Accepted);
    assert!(rt; out.bytes().ends_with(b"\n1: 100 exit = 0\nend 1\n"));
    Ok(())
}
