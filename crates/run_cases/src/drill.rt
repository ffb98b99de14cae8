// The longest drill, which is the same at each run, and the lines of a drill's events, which a replay takes.
use crate::case::{answer, shelf, strings};
use cm_cli::{Status, drill_log};
use std::test::Fail;

const WORLD: &[u8] = b"log = \"script\"
[[file]]
path = \"/drill/su\"
uid = 0
gid = 0
mode = \"4755\"
[[process]]
pid = 1
uid = 0
";

#[test]
fn the_longest_drill_is_the_same_again(rt: HostRuntime) -> Result<(), Fail> {
    let alloc = rt.alloc();
    let words = strings(alloc, &["drill", "100000"])?;
    let mut none = shelf(&rt, alloc, b"", b"", &[1])?;
    let (status, first) = answer(alloc, &words, &mut none, &[])?;
    assert_eq!(rt; status, Status::Accepted);
    assert!(rt; first.starts_with(b"events 100000\n"));
    let (status, second) = answer(alloc, &words, &mut none, &[])?;
    assert_eq!(rt; status, Status::Accepted);
    assert!(rt; first.as_slice() == second.as_slice());
    Ok(())
}

#[test]
fn the_events_of_a_drill_are_a_log(rt: HostRuntime) -> Result<(), Fail> {
    let alloc = rt.alloc();
    let log = drill_log(alloc, 1000)?;
    let words = strings(alloc, &["replay", "world", "log"])?;
    let mut shelf = shelf(&rt, alloc, WORLD, &log, &[])?;
    let (status, text) = answer(alloc, &words, &mut shelf, &[])?;
    assert_eq!(rt; status, Status::Accepted);
    assert!(rt; text.ends_with(b"\nend 1000\n"));
    Ok(())
}
