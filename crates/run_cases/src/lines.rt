// Lines of a log with tabs, CR and other bytes that don't show: some are read, others refused with the fault that is told.
// The reports are written by hand from docs/FORMATS.md.
use crate::case::check;
use cm_cli::Status;
use std::test::Fail;

const WORLD: &[u8] = b"log = \"script\"\n[[process]]\npid = 100\n";

const START: &str =
    "> 100 init uid=0,0,0,0 gid=0,0,0,0 groups=- inh=0000000000000000 prm=000001ffffffffff eff=000001ffffffffff bnd=000001ffffffffff amb=0000000000000000 sec=00 nnp=0
";

// A line, and its fault.
static BAD: [(&str, &str); 2] = [
    ("100\x0bsetuid 0 = 0", "pid"),
    ("100 execve /a\x7f = 0", "argument 1"),
];

#[test]
fn faults_of_lines_are_told(rt: HostRuntime) -> Result<(), Fail> {
    let alloc = rt.alloc();
    for (line, told) in &BAD {
        let log = format!(in alloc; "; a comment\n{line}\n")?;
        let report = format!(in alloc; "{START}bad log line 2: {told}\n")?;
        check(
            &rt,
            alloc,
            WORLD,
            log.as_bytes(),
            Status::BadLog,
            report.as_bytes(),
        )?;
    }
    Ok(())
}

// A log, the number of its event, and the event as it is written.
static READ: [(&str, &str); 2] = [
    (
        "\t100\texit  =\t0 \r
",
        "1: 100 exit = 0
",
    ),
    (
        "; 100 setuid 0

 \t\r
  ;
100 exit = 0
;",
        "5: 100 exit = 0
",
    ),
];

#[test]
fn lines_are_read(rt: HostRuntime) -> Result<(), Fail> {
    let alloc = rt.alloc();
    for (log, told) in &READ {
        let report = format!(in alloc; "{START}{told}end 1\n")?;
        check(
            &rt,
            alloc,
            WORLD,
            log.as_bytes(),
            Status::Accepted,
            report.as_bytes(),
        )?;
    }
    Ok(())
}
