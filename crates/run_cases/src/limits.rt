// The limits: each is hit one past its number, and not at its number. The texts are made here, and their numbers are those of
// docs/FORMATS.md.
use crate::case::{REPLAY, check, comment, outcome, repeated};
use cm_cli::Status;
use std::alloc::{AllocError, Global};
use std::process::Abort;
use std::test::Fail;

const SCRIPT: &str = "log = \"script\"\n";

// The text, and so many rows after it, each with its number.
fn with_rows(
    alloc: Global,
    text: &str,
    count: u32,
    before: &str,
    after: &str,
) -> Result<Vec<u8>, AllocError> {
    let mut rows = text.as_bytes().to_vec(alloc)?;
    for number in 1..=count {
        let row = format!(in alloc; "{before}{number}{after}\n")?;
        rows.extend_from_slice(row.as_bytes())?;
    }
    Ok(rows)
}

// A world with so many rows has this status, and its report is this line at its end.
fn check_rows(
    rt: &impl Abort,
    alloc: Global,
    (before, after): (&str, &str),
    count: u32,
    report: &str,
) -> Result<(), Fail> {
    let world = with_rows(alloc, SCRIPT, count, before, after)?;
    check(rt, alloc, &world, b"", Status::Limit, report.as_bytes())?;
    let world = with_rows(alloc, SCRIPT, count.saturating_sub(1), before, after)?;
    check(rt, alloc, &world, b"", Status::Accepted, b"end 0\n")
}

#[test]
fn spaces_have_a_limit(rt: HostRuntime) -> Result<(), Fail> {
    let row = ("[[space]]\nname = \"s", "\"\nparent = \"init\"\nowner = 0");
    check_rows(&rt, rt.alloc(), row, 256, "limit spaces 256\n")
}

#[test]
fn mounts_have_a_limit(rt: HostRuntime) -> Result<(), Fail> {
    let row = ("[[mount]]\nname = \"m", "\"");
    check_rows(&rt, rt.alloc(), row, 64, "limit mounts 64\n")
}

#[test]
fn files_have_a_limit(rt: HostRuntime) -> Result<(), Fail> {
    let row = (
        "[[file]]\npath = \"/",
        "\"\nuid = 0\ngid = 0\nmode = \"755\"",
    );
    check_rows(&rt, rt.alloc(), row, 4097, "limit files 4096\n")
}

#[test]
fn a_count_comes_before_the_faults_of_its_rows(rt: HostRuntime) -> Result<(), Fail> {
    let alloc = rt.alloc();
    let world = with_rows(alloc, SCRIPT, 4097, "[[process]]\nx = ", "")?;
    check(
        &rt,
        alloc,
        &world,
        b"",
        Status::Limit,
        b"limit processes 4096\n",
    )
}

// A row of a process with so many groups, and the rest of it.
fn with_groups(alloc: Global, count: u32, first: &str, after: &str) -> Result<Vec<u8>, AllocError> {
    let front = format!(in alloc; "{SCRIPT}[[process]]\npid = 1\ngroups = [{first},")?;
    let mut world = with_rows(alloc, front.as_str(), count.saturating_sub(1), "", ",")?;
    world.extend_from_slice(b"]\n")?;
    world.extend_from_slice(after.as_bytes())?;
    Ok(world)
}

#[test]
fn groups_of_a_world_have_a_limit(rt: HostRuntime) -> Result<(), Fail> {
    let alloc = rt.alloc();
    // Past the limit a number out of its range, or a name that isn't declared, isn't told; another kind of value is.
    let limit = b"limit groups 1024\n";
    let world = with_groups(alloc, 1025, "4294967295", "space = \"a\"\n")?;
    check(&rt, alloc, &world, b"", Status::Limit, limit)?;
    let world = with_groups(alloc, 1025, "true", "")?;
    let report = b"bad world process 1: WrongType\n";
    check(&rt, alloc, &world, b"", Status::BadWorld, report)?;
    let world = with_groups(alloc, 1024, "4294967295", "")?;
    let report = b"bad world process 1: BadNumber\n";
    check(&rt, alloc, &world, b"", Status::BadWorld, report)
}

#[test]
fn worlds_have_a_limit_of_bytes(rt: HostRuntime) -> Result<(), Fail> {
    let alloc = rt.alloc();
    // A comment fills the world.
    let mut world = b"log = \"script\"\n#".to_vec(alloc)?;
    world.resize(1_048_576, b'x')?;
    check(&rt, alloc, &world, b"", Status::Accepted, b"end 0\n")?;
    world.push(b'x')?;
    let report = b"limit world 1048576\n";
    check(&rt, alloc, &world, b"", Status::Limit, report)
}

// The limit of logs, 2^40 bytes, is beyond what a shelf in memory holds.
#[test]
fn a_log_of_64_mib_and_a_byte_is_accepted(rt: HostRuntime) -> Result<(), Fail> {
    let alloc = rt.alloc();
    let mut log = repeated(alloc, &comment(alloc, 1_048_575)?, 64)?;
    log.push(b'\n')?;
    assert_eq!(rt; log.len(), 67_108_865);
    let end = b"end 0\n";
    check(&rt, alloc, SCRIPT.as_bytes(), &log, Status::Accepted, end)
}

#[test]
fn lines_have_a_limit(rt: HostRuntime) -> Result<(), Fail> {
    let alloc = rt.alloc();
    // A comment fills the line, and counts as any other one past the limit.
    let log = comment(alloc, 1_048_576)?;
    check(
        &rt,
        alloc,
        SCRIPT.as_bytes(),
        &log,
        Status::Accepted,
        b"end 0\n",
    )?;
    let log = vec![in alloc; b';'; 1_048_577]?;
    let report = b"limit line 1048576\n";
    check(&rt, alloc, SCRIPT.as_bytes(), &log, Status::Limit, report)
}

// The words over a world and a log have this status, and the report ends so.
fn check_end(
    rt: &impl Abort,
    alloc: Global,
    words: &[&str],
    files: (&[u8], &[u8]),
    (status, end): (Status, &[u8]),
) -> Result<(), Fail> {
    let (got, text) = outcome(rt, alloc, words, files)?;
    assert_eq!(rt; got, status);
    assert!(rt; text.ends_with(end));
    Ok(())
}

#[test]
fn living_processes_have_a_limit(rt: HostRuntime) -> Result<(), Fail> {
    let alloc = rt.alloc();
    let world = with_rows(alloc, SCRIPT, 4096, "[[process]]\npid = ", "")?;
    // An event that is no step isn't past a limit.
    let told: [(&[u8], Status, &[u8]); 3] = [
        (
            b"1 fork = 5000\n",
            Status::Limit,
            b"\nlimit processes 4096\n",
        ),
        (
            b"1 clone_user = 5000\n",
            Status::Limit,
            b"\nlimit processes 4096\n",
        ),
        (
            b"1 fork = EPERM\n",
            Status::Impossible,
            b"\nimpossible line 1: the rules give 4097\n",
        ),
    ];
    for (log, status, end) in &told {
        check_end(
            &rt,
            alloc,
            &REPLAY,
            (world.as_slice(), *log),
            (*status, *end),
        )?;
    }
    Ok(())
}

#[test]
fn standing_spaces_have_a_limit(rt: HostRuntime) -> Result<(), Fail> {
    let alloc = rt.alloc();
    let row = "\"\nparent = \"init\"\nowner = 0";
    let mut world = with_rows(alloc, SCRIPT, 254, "[[space]]\nname = \"s", row)?;
    world.extend_from_slice(b"[[process]]\npid = 1\n[[process]]\npid = 2\n")?;
    let log: &[u8] = b"1 unshare = 0\n2 unshare = 0\n";
    let end: &[u8] = b"\nlimit spaces 256\n";
    check_end(
        &rt,
        alloc,
        &REPLAY,
        (world.as_slice(), log),
        (Status::Limit, end),
    )
}

#[test]
fn groups_of_a_line_have_a_limit(rt: HostRuntime) -> Result<(), Fail> {
    let alloc = rt.alloc();
    let world: &[u8] = b"log = \"script\"\n[[process]]\npid = 1\n";
    // The faults of the line come before.
    let told: [(&[u8], Status, &[u8]); 3] = [
        (b" = 0\n", Status::Accepted, b"\nend 1\n"),
        (b" 7 = 0\n", Status::Limit, b"\nlimit groups 1024\n"),
        (b" 7 = 00\n", Status::BadLog, b"\nbad log line 1: result\n"),
    ];
    for (rest, status, end) in &told {
        let mut log = b"1 setgroups".to_vec(alloc)?;
        log.extend_from_slice(&repeated(alloc, b" 7", 1024)?)?;
        log.extend_from_slice(*rest)?;
        check_end(
            &rt,
            alloc,
            &REPLAY,
            (world, log.as_slice()),
            (*status, *end),
        )?;
    }
    Ok(())
}

// The audit of the process 1000 for user id 0 has this status, and its report ends so, where it has so many children. They
// have the id, and it doesn't.
fn check_family(
    rt: &impl Abort,
    alloc: Global,
    children: u32,
    told: (Status, &[u8]),
) -> Result<(), Fail> {
    let root = format!(in alloc; "{SCRIPT}[[process]]\npid = 1000\nuid = 7\n")?;
    let child = "[[process]]\nparent = 1000\npid = ";
    let world = with_rows(alloc, root.as_str(), children, child, "")?;
    let words = ["audit", "world", "log", "1000", "uid:0"];
    check_end(rt, alloc, &words, (world.as_slice(), b""), told)
}

#[test]
fn families_have_a_limit(rt: HostRuntime) -> Result<(), Fail> {
    let alloc = rt.alloc();
    let end: &[u8] = b"\nend 0\nlimit family 256\n";
    check_family(&rt, alloc, 256, (Status::Limit, end))?;
    let end: &[u8] = b"\nend 0\nno 0\nholder 1\n";
    check_family(&rt, alloc, 255, (Status::No, end))
}

// A claim over this world and this log, of process 1 and user id 0, is past a limit, and the line that says so stands alone.
fn check_alone(
    rt: &impl Abort,
    alloc: Global,
    command: &str,
    world: &[u8],
    log: &[u8],
    report: &[u8],
) -> Result<(), Fail> {
    let words = [command, "world", "log", "1", "uid:0", "third"];
    let (got, text) = outcome(rt, alloc, &words, (world, log))?;
    assert_eq!(rt; got, Status::Limit);
    assert!(rt; text.as_slice() == report);
    Ok(())
}

#[test]
fn limits_stand_alone_where_no_replay_is_shown(rt: HostRuntime) -> Result<(), Fail> {
    let alloc = rt.alloc();
    let row = "\"\nparent = \"init\"\nowner = 0";
    let spaces = with_rows(alloc, SCRIPT, 256, "[[space]]\nname = \"s", row)?;
    check_alone(&rt, alloc, "check", &spaces, b"", b"limit spaces 256\n")?;
    let line = vec![in alloc; b';'; 1_048_577]?;
    let report = b"limit line 1048576\n";
    check_alone(&rt, alloc, "confirm", SCRIPT.as_bytes(), &line, report)?;
    let processes = with_rows(alloc, SCRIPT, 4096, "[[process]]\npid = ", "")?;
    let report = b"limit processes 4096\n";
    check_alone(&rt, alloc, "check", &processes, b"1 fork = 5000\n", report)
}
