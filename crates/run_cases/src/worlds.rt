// Worlds of many rows, and of bytes that don't show: one that is read, and others with the line that tells their first fault,
// written by hand from docs/FORMATS.md.
use crate::case::check;
use cm_cli::Status;
use std::test::Fail;

#[test]
fn a_space_of_level_33_is_too_deep(rt: HostRuntime) -> Result<(), Fail> {
    let alloc = rt.alloc();
    let mut world = b"log = 'script'\n[[space]]\nname = 's1'\nparent = 'init'\nowner = 0\n".to_vec(
        alloc,
    )?;
    for above in 1..=32 {
        let name = above + 1;
        let row = format!(in alloc;
            "[[space]]\nname = 's{name}'\nparent = 's{above}'\nowner = 0\n"
        )?;
        world.extend_from_slice(row.as_bytes())?;
    }
    let report = b"bad world space 33: TooDeep\n";
    check(&rt, alloc, &world, b"", Status::BadWorld, report)
}

#[test]
fn bytes_that_are_no_text_are_no_world(rt: HostRuntime) -> Result<(), Fail> {
    let report = b"bad world whole 0: Toml\n";
    check(
        &rt,
        rt.alloc(),
        b"log = \"\xff\"",
        b"",
        Status::BadWorld,
        report,
    )
}

#[test]
fn a_byte_order_mark_is_passed_over(rt: HostRuntime) -> Result<(), Fail> {
    let world = "\u{feff}log = \"script\"\n".as_bytes();
    check(&rt, rt.alloc(), world, b"", Status::Accepted, b"end 0\n")
}
