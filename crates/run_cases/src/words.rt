// The words of a command, where no file can be read.
use crate::case::{answer, shelf, strings};
use cm_cli::Status;
use std::test::Fail;

const USAGE: &str = "usage: credaudit replay WORLD LOG
usage: credaudit audit WORLD LOG PID RIGHT
usage: credaudit check WORLD LOG PID RIGHT CERT
usage: credaudit confirm WORLD LOG PID RIGHT RUN
usage: credaudit drill N
";

// The report of a drill without events.
const DRILL: &str = "events 0
refused 0
live 1
spaces 1
verdict no
";

// Words, and what they answer and write where each read would fail.
static WORDS: [(&[&str], Status, &str); 19] = [
    (&[], Status::Usage, USAGE),
    (&[""], Status::Usage, USAGE),
    (&["--help"], Status::Usage, USAGE),
    (&["--version"], Status::Usage, USAGE),
    (&["Replay", "world", "log"], Status::Usage, USAGE),
    (&["replay", "world"], Status::Usage, USAGE),
    (&["replay", "world", "log", "100"], Status::Usage, USAGE),
    (&["audit", "world", "log", "100"], Status::Usage, USAGE),
    (
        &["check", "world", "log", "100", "uid:0"],
        Status::Usage,
        USAGE,
    ),
    (&["drill"], Status::Usage, USAGE),
    (&["drill", "100001"], Status::Usage, USAGE),
    (&["drill", "-1"], Status::Usage, USAGE),
    (&["drill", "0", "0"], Status::Usage, USAGE),
    (&["drill", "0"], Status::Accepted, DRILL),
    (&["drill", "00000000"], Status::Accepted, DRILL),
    (&["audit", "", "", "", ""], Status::ReadFault, ""),
    (&["check", "", "", "", "", ""], Status::ReadFault, ""),
    (&["confirm", "", "", "", "", ""], Status::ReadFault, ""),
    (&["replay", "none", "log"], Status::ReadFault, ""),
];

#[test]
fn words_are_read(rt: HostRuntime) -> Result<(), Fail> {
    let alloc = rt.alloc();
    for (words, status, report) in &WORDS {
        let mut shelf = shelf(&rt, alloc, b"", b"", &[1])?;
        let (got, text) = answer(alloc, &strings(alloc, words)?, &mut shelf, &[])?;
        assert_eq!(rt; got, *status, "{words:?}");
        assert!(rt; text.as_slice() == report.as_bytes(), "{words:?}");
    }
    Ok(())
}
