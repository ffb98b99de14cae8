// Certificates and runs that no text of cases can hold: bytes that don't show, sizes at the limits, and reads that fail.
// The answers are written by hand from docs/CERTIFICATE.md and docs/FORMATS.md.
use crate::case::{answer, comment, repeated, shelf_of, strings};
use cm_cli::Status;
use std::alloc::{AllocError, Global};
use std::process::Abort;
use std::test::Fail;

const WORLD: &[u8] = b"log = \"script\"
[[process]]
pid = 100
uid = 1000
gid = 1000
bounding = \"none\"
no_new_privs = true
[filter]
exclude = [\"unshare\", \"clone_user\"]
";

const EMPTY: &[u8] = b"";

// The least bounds of that process, which exclude the user id 0, in pieces: before the bounding set of the first row, that
// set, and what comes behind it.
const BEFORE: &[u8] = b"{\"format\":1,\"rows\":[{\"b\":\"";

const SET: &[u8] = b"0000000000000000";

static BEHIND: [&[u8]; 6] = [
    b"\",\"eg\":[[1000,1000]],\"eu\":[[1000,1000]],\"fg\":[[1000,1000]],\"fu\":[[1000,1000]],\"g\":[[1000,1000]],",
    b"\"i\":\"0000000000000000\",\"k\":true,\"mg\":[[0,4294967294]],\"mu\":[[0,4294967294]],\"n\":true,",
    b"\"p\":\"0000000000000000\",\"r\":true,\"s\":[],\"u\":[[1000,1000]]},",
    b"{\"b\":\"0000000000000000\",\"eg\":[],\"eu\":[],\"fg\":[],\"fu\":[],\"g\":[],",
    b"\"i\":\"0000000000000000\",\"k\":false,\"mg\":[],\"mu\":[],\"n\":true,",
    b"\"p\":\"0000000000000000\",\"r\":false,\"s\":[],\"u\":[]}]}",
];

// The pieces, one after the other.
fn joined(alloc: Global, pieces: &[&[u8]]) -> Result<Vec<u8>, AllocError> {
    let mut text = Vec::new(alloc);
    for piece in pieces {
        text.extend_from_slice(piece)?;
    }
    Ok(text)
}

// The bounds with that bounding set, between a front and an end.
fn bounds(alloc: Global, front: &[u8], set: &[u8], end: &[u8]) -> Result<Vec<u8>, AllocError> {
    let mut text = joined(alloc, &[front, BEFORE, set])?;
    for piece in &BEHIND {
        text.extend_from_slice(piece)?;
    }
    text.extend_from_slice(end)?;
    Ok(text)
}

// The command for that right, over the world, no log and this third file, answers and writes so.
fn check_answer<'a>(
    rt: &impl Abort,
    alloc: Global,
    (command, right): (&'a str, &'a str),
    world: &'a [u8],
    third: &'a [u8],
    (status, report): (Status, &str),
) -> Result<(), Fail> {
    let words = strings(alloc, &[command, "world", "log", "100", right, "third"])?;
    let files = [("world", world), ("log", EMPTY), ("third", third)];
    let mut shelf = shelf_of(rt, alloc, &files, &[])?;
    let (got, text) = answer(alloc, &words, &mut shelf, &[])?;
    assert_eq!(rt; got, status, "{report}");
    assert!(rt; text.as_slice() == report.as_bytes(), "{report}");
    Ok(())
}

// The run over the world and no log answers and writes so, for the user id 1000.
fn check_run<'a>(
    rt: &impl Abort,
    alloc: Global,
    world: &'a [u8],
    run: &'a [u8],
    told: (Status, &str),
) -> Result<(), Fail> {
    check_answer(rt, alloc, ("confirm", "uid:1000"), world, run, told)
}

// What stands before the certificate, the bounding set of its first row, what stands behind it, and the answer.
static TEXTS: [(&[u8], &[u8], &[u8], Status, &str); 11] = [
    (b"", SET, b"", Status::Accepted, "holds\n"),
    (b" \t\r\n", SET, b" \t\r\n", Status::Accepted, "holds\n"),
    (b"\xef\xbb\xbf", SET, b"", Status::Refused, "refused json\n"),
    (b"\x0c", SET, b"", Status::Refused, "refused json\n"),
    (b"", SET, b"\x00", Status::Refused, "refused json\n"),
    (b"", SET, b"\xff", Status::Refused, "refused json\n"),
    (
        b"",
        b"000000000000000\xff",
        b"",
        Status::Refused,
        "refused json\n",
    ),
    (
        b"",
        b"\xc0\xb0000000000000000",
        b"",
        Status::Refused,
        "refused json\n",
    ),
    (
        b"",
        b"\xed\xa0\x80000000000000000",
        b"",
        Status::Refused,
        "refused json\n",
    ),
    (
        b"",
        b"000000000000000\t",
        b"",
        Status::Refused,
        "refused json\n",
    ),
    (
        b"",
        b"000000000000000\x7f",
        b"",
        Status::Refused,
        "refused shape init\n",
    ),
];

#[test]
fn certificates_of_odd_bytes(rt: HostRuntime) -> Result<(), Fail> {
    let alloc = rt.alloc();
    for (front, set, end, status, report) in &TEXTS {
        let text = bounds(alloc, front, set, end)?;
        let asked = ("check", "uid:0");
        check_answer(&rt, alloc, asked, WORLD, &text, (*status, *report))?;
    }
    Ok(())
}

// A run, and the answer to it for the user id 1000.
static RUNS: [(&[u8], Status, &str); 7] = [
    (
        b"\t100\tsetuid  1000\t=\t0 \r\n \t\r\n  ;\n",
        Status::Accepted,
        "confirmed 100\n",
    ),
    (
        b"\n \r\n100\x0bsetuid 1000 = 0\n",
        Status::Refused,
        "refused line 3\n",
    ),
    (
        b"100 setuid 1000\xff = 0\n",
        Status::Refused,
        "refused line 1\n",
    ),
    (
        b"\xff 100 setuid 1000 = 0\n",
        Status::Refused,
        "refused line 1\n",
    ),
    (
        b";\xff\x00\n100 execve /\xff = 0\n",
        Status::Accepted,
        "confirmed 100\n",
    ),
    (
        b"100 execve /a\x7f = 0\n",
        Status::Refused,
        "refused line 1\n",
    ),
    (b"100 exit = 0", Status::Refused, "refused end\n"),
];

#[test]
fn runs_of_odd_bytes(rt: HostRuntime) -> Result<(), Fail> {
    let alloc = rt.alloc();
    for (run, status, report) in &RUNS {
        check_run(&rt, alloc, WORLD, run, (*status, *report))?;
    }
    Ok(())
}

#[test]
fn certificates_have_a_limit(rt: HostRuntime) -> Result<(), Fail> {
    let alloc = rt.alloc();
    let mut text = bounds(alloc, b"", SET, b"")?;
    text.resize(67_108_864, b' ')?;
    let asked = ("check", "uid:0");
    let told = (Status::Accepted, "holds\n");
    check_answer(&rt, alloc, asked, WORLD, &text, told)?;
    text.push(b' ')?;
    let told = (Status::Limit, "limit certificate 67108864\n");
    check_answer(&rt, alloc, asked, WORLD, &text, told)
}

// The run is confirmed, and with this byte after it past that limit.
fn check_limit(
    rt: &impl Abort,
    alloc: Global,
    run: Vec<u8>,
    (byte, limit): (u8, &str),
) -> Result<(), Fail> {
    let told = (Status::Accepted, "confirmed 100\n");
    check_run(rt, alloc, WORLD, &run, told)?;
    let past = joined(alloc, &[&run, &[byte]])?;
    check_run(rt, alloc, WORLD, &past, (Status::Limit, limit))
}

#[test]
fn runs_have_a_limit(rt: HostRuntime) -> Result<(), Fail> {
    let alloc = rt.alloc();
    // Comments fill the run, each with its LF as long as a line may be.
    let run = repeated(alloc, &comment(alloc, 1_048_575)?, 64)?;
    check_limit(&rt, alloc, run, (b'\n', "limit run 67108864\n"))
}

#[test]
fn lines_of_runs_have_a_limit(rt: HostRuntime) -> Result<(), Fail> {
    let alloc = rt.alloc();
    let run = vec![in alloc; b';'; 1_048_576]?;
    check_limit(&rt, alloc, run, (b';', "limit line 1048576\n"))
}

#[test]
fn groups_of_a_run_have_a_limit(rt: HostRuntime) -> Result<(), Fail> {
    let alloc = rt.alloc();
    let mut run = b"100 setgroups".to_vec(alloc)?;
    for _ in 0..1024 {
        run.extend_from_slice(b" 7")?;
    }
    let within = joined(alloc, &[&run, b" = EPERM\n"])?;
    check_run(
        &rt,
        alloc,
        WORLD,
        &within,
        (Status::Accepted, "confirmed 100\n"),
    )?;
    let past = joined(alloc, &[&run, b" 7 = EPERM\n"])?;
    check_run(
        &rt,
        alloc,
        WORLD,
        &past,
        (Status::Limit, "limit groups 1024\n"),
    )?;
    // The faults of the line come before.
    let bad = joined(alloc, &[&run, b" 7 = 00\n"])?;
    check_run(
        &rt,
        alloc,
        WORLD,
        &bad,
        (Status::Refused, "refused line 1\n"),
    )
}

// A world with the processes 100 and 50, and a row for each of these numbers.
fn crowded(
    alloc: Global,
    (before, after): (&str, &str),
    numbers: (u32, u32),
) -> Result<Vec<u8>, AllocError> {
    let first = b"log = \"script\"\n[[process]]\npid = 100\nuid = 1000\n[[process]]\npid = 50\n";
    let mut world = first.to_vec(alloc)?;
    for number in numbers.0..numbers.1 {
        let row = format!(in alloc; "{before}{number}{after}\n")?;
        world.extend_from_slice(row.as_bytes())?;
    }
    Ok(world)
}

#[test]
fn states_of_a_run_have_limits(rt: HostRuntime) -> Result<(), Fail> {
    let alloc = rt.alloc();
    let world = crowded(alloc, ("[[process]]\npid = ", ""), (1001, 5095))?;
    let told = (Status::Limit, "limit processes 4096\n");
    check_run(&rt, alloc, &world, b"100 fork = 9000\n", told)?;
    // A limit comes before the question whose call it is.
    check_run(&rt, alloc, &world, b"50 fork = 9000\n", told)?;
    // What is no step isn't past a limit.
    let told = (Status::Refused, "refused line 1\n");
    check_run(&rt, alloc, &world, b"100 fork = 1001\n", told)?;
    let run = b"100 fork = EAGAIN\n100 exit = 0\n";
    check_run(&rt, alloc, &world, run, (Status::Refused, "refused end\n"))?;
    let row = "\"\nparent = \"init\"\nowner = 0";
    let world = crowded(alloc, ("[[space]]\nname = \"s", row), (0, 254))?;
    let run = b"100 unshare = 0\n\n50 unshare = 0\n";
    check_run(
        &rt,
        alloc,
        &world,
        run,
        (Status::Limit, "limit spaces 256\n"),
    )?;
    let run = b"100 unshare = 0\n\n50 unshare = EPERM\n";
    check_run(
        &rt,
        alloc,
        &world,
        run,
        (Status::Refused, "refused line 3\n"),
    )
}

#[test]
fn families_are_counted_before_the_file_is_read(rt: HostRuntime) -> Result<(), Fail> {
    let alloc = rt.alloc();
    let world = crowded(
        alloc,
        ("[[process]]\npid = ", "\nparent = 100"),
        (1001, 1257),
    )?;
    for command in ["check", "confirm"] {
        let words = strings(alloc, &[command, "world", "log", "100", "uid:0", "none"])?;
        let mut shelf = shelf_of(
            &rt,
            alloc,
            &[("world", world.as_slice()), ("log", EMPTY)],
            &[],
        )?;
        let (got, text) = answer(alloc, &words, &mut shelf, &[])?;
        assert_eq!(rt; got, Status::Limit, "{command}");
        assert!(rt;
            text.as_slice() == "limit family 256\n".as_bytes(),
            "{command}"
        );
    }
    Ok(())
}

// How many reads fail in turn, each with no text before it, until the command needs no more.
fn reads_failed(
    rt: &impl Abort,
    alloc: Global,
    files: &[(&str, &[u8])],
    command: &str,
) -> Result<u64, Fail> {
    let words = strings(alloc, &[command, "world", "log", "100", "uid:0", command])?;
    let mut met = 0;
    for k in 1..20 {
        let mut shelf = shelf_of(rt, alloc, files, &[k])?;
        let (got, text) = answer(alloc, &words, &mut shelf, &[])?;
        if got != Status::ReadFault {
            break;
        }
        assert!(rt; text.is_empty(), "read {k}");
        met = k;
    }
    Ok(met)
}

#[test]
fn reads_of_a_third_file_fail_in_turn(rt: HostRuntime) -> Result<(), Fail> {
    let alloc = rt.alloc();
    let text = bounds(alloc, b"", SET, b"")?;
    let files = [
        ("world", WORLD),
        ("log", EMPTY),
        ("check", text.as_slice()),
        ("confirm", EMPTY),
    ];
    // Of the world a read and one that finds its end; one of the log; of the certificate as of the world.
    assert_eq!(rt; reads_failed(&rt, alloc, &files, "check")?, 5);
    assert_eq!(rt; reads_failed(&rt, alloc, &files, "confirm")?, 4);
    Ok(())
}
