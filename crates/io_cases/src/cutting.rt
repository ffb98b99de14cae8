// Lines that a cutter gives, and how it stops.
ghost use Rattle.std.specs.Prelude.{◌≡◌};
ghost use Rattle.cm_io.specs.Cutter.{Fits};

use crate::shelves::check_tally;
use cm_io::{CutError, LineCutter, MemShelf, Shelf, are_distinct};
use std::alloc::{AllocError, Global};
use std::process::Abort;
use std::test::Fail;

// A shelf in memory with one file, `log`.
fn shelf_of(rt: &impl Abort, alloc: Global, text: &[u8], fail: &[u64]) -> Result<MemShelf, Fail> {
    let names = vec![in alloc; String::from_str(alloc, "log")?]?;
    let texts = vec![in alloc; text.to_vec(alloc)?]?;
    assert!(rt; are_distinct(&names));
    assert_eq!(rt; texts.len(), names.len());
    Ok(MemShelf::new(alloc, names, texts, fail.to_vec(alloc)?)?)
}

// What a cutter of a shelf gives next.
fn check_next<H: Shelf>(
    rt: &impl Abort,
    shelf: &mut H,
    cutter: &mut LineCutter,
    want: Result<Option<&[u8]>, CutError>,
)
    requires { Fits (H.held shelf.old) cutter.old }
    ensures held { H.held shelf.new ≡ H.held shelf.old }
    ensures fits { Fits (H.held shelf.new) cutter.new }
{
    let got = cutter.next_line(shelf);
    assert!(rt; got == want, "{want:?}");
}

// A text, the limits of its lines and of the whole, the lines that come, and how they end.
type Row = (
    &'static [u8],
    u32,
    u32,
    [Option<&'static [u8]>; 3],
    Result<(), CutError>,
);

const ROWS: [Row; 14] = [
    (b"", 9, 9, [None; 3], Ok(())),
    (
        b"a\n\nbc\n",
        9,
        9,
        [Some(b"a"), Some(b""), Some(b"bc")],
        Ok(()),
    ),
    (b"a\nbc", 9, 9, [Some(b"a"), Some(b"bc"), None], Ok(())),
    (b"\n", 9, 9, [Some(b""), None, None], Ok(())),
    // A CR is a byte of its line.
    (
        b"a\r\n\rb",
        9,
        9,
        [Some(b"a\r"), Some(b"\rb"), None],
        Ok(()),
    ),
    // The LF is no byte of those that a line may have.
    (
        b"abc\nabc",
        3,
        9,
        [Some(b"abc"), Some(b"abc"), None],
        Ok(()),
    ),
    (
        b"abc\nabcd\n",
        3,
        9,
        [Some(b"abc"), None, None],
        Err(CutError::TooLong),
    ),
    (
        b"\nab",
        0,
        9,
        [Some(b""), None, None],
        Err(CutError::TooLong),
    ),
    // It is one of those that the file may have.
    (b"ab\ncd\n", 9, 6, [Some(b"ab"), Some(b"cd"), None], Ok(())),
    (
        b"ab\ncd\n",
        9,
        5,
        [Some(b"ab"), None, None],
        Err(CutError::TooMuch),
    ),
    (
        b"ab\ncd\ne",
        9,
        6,
        [Some(b"ab"), Some(b"cd"), None],
        Err(CutError::TooMuch),
    ),
    // A line's fourth byte is one too many: before the first byte that the file may not have, as that byte, and after
    // it.
    (b"abcdef", 3, 4, [None; 3], Err(CutError::TooLong)),
    (b"abcdef", 3, 3, [None; 3], Err(CutError::TooMuch)),
    (b"abcdef", 3, 2, [None; 3], Err(CutError::TooMuch)),
];

#[test]
fn lines_are_cut_up_to_a_limit(rt: HostRuntime) -> Result<(), Fail> {
    for row in &ROWS {
        check_row(&rt, rt.alloc(), row)?;
    }
    Ok(())
}

// After the last line each answer is the same.
fn check_row(rt: &impl Abort, alloc: Global, row: &Row) -> Result<(), Fail> {
    let (text, line, whole, [first, second, third], end) = *row;
    let mut shelf = shelf_of(rt, alloc, text, &[])?;
    let mut cutter = LineCutter::new(alloc, "log", u64::from(line), u64::from(whole))?;
    check_next(rt, &mut shelf, &mut cutter, answer(first, end));
    check_next(rt, &mut shelf, &mut cutter, answer(second, end));
    check_next(rt, &mut shelf, &mut cutter, answer(third, end));
    check_next(rt, &mut shelf, &mut cutter, answer(None, end));
    check_next(rt, &mut shelf, &mut cutter, answer(None, end));
    Ok(())
}

// A line, or how they end.
fn answer<'a>(
    line: Option<&'a [u8]>,
    end: Result<(), CutError>,
) -> Result<Option<&'a [u8]>, CutError> {
    match line {
        Some(line) => Ok(Some(line)),
        None => end.map(|()| None),
    }
}

// A line that is longer than a piece, and a short one.
fn long_text(alloc: Global) -> Result<Vec<u8>, AllocError> {
    let mut text = vec![in alloc; b'y'; 70_000]?;
    text.extend_from_slice(b"\nb\n")?;
    Ok(text)
}

#[test]
fn a_line_is_longer_than_a_piece(rt: HostRuntime) -> Result<(), Fail> {
    let text = long_text(rt.alloc())?;
    let mut shelf = shelf_of(&rt, rt.alloc(), &text, &[])?;
    let mut cutter = LineCutter::new(rt.alloc(), "log", 70_000, 70_003)?;
    assert!(rt; !cutter.is_at_hand());
    check_next(&rt, &mut shelf, &mut cutter, Ok(text.get(..70_000)));
    assert!(rt; cutter.is_at_hand());
    check_next(&rt, &mut shelf, &mut cutter, Ok(Some(b"b")));
    assert!(rt; !cutter.is_at_hand());
    assert!(rt; !cutter.has_ended());
    check_next(&rt, &mut shelf, &mut cutter, Ok(None));
    assert!(rt; cutter.has_ended());
    assert!(rt; shelf.widest() == 65_536);
    // One read for each piece, and one that tells of the end.
    check_tally(&rt, shelf.tally("log"), Some([0, 3, 70_003]));
    Ok(())
}

#[test]
fn no_read_asks_for_more_than_a_piece(rt: HostRuntime) -> Result<(), Fail> {
    let text = vec![in rt.alloc(); b'y'; 200_000]?;
    let mut shelf = shelf_of(&rt, rt.alloc(), &text, &[])?;
    let mut cutter = LineCutter::new(rt.alloc(), "log", 200_000, 200_000)?;
    check_next(&rt, &mut shelf, &mut cutter, Ok(Some(&text)));
    assert!(rt; shelf.widest() == 65_536);
    assert!(rt; cutter.has_ended());
    // The end is read again by each call.
    check_tally(&rt, shelf.tally("log"), Some([0, 5, 200_000]));
    check_next(&rt, &mut shelf, &mut cutter, Ok(None));
    check_tally(&rt, shelf.tally("log"), Some([0, 6, 200_000]));
    Ok(())
}

#[test]
fn a_failed_read_is_tried_again(rt: HostRuntime) -> Result<(), Fail> {
    let text = long_text(rt.alloc())?;
    let mut shelf = shelf_of(&rt, rt.alloc(), &text, &[2])?;
    let mut cutter = LineCutter::new(rt.alloc(), "log", 70_000, 70_003)?;
    check_next(&rt, &mut shelf, &mut cutter, Err(CutError::Read));
    check_next(&rt, &mut shelf, &mut cutter, Ok(text.get(..70_000)));
    let mut other = LineCutter::new(rt.alloc(), "plan", 9, 9)?;
    check_next(&rt, &mut shelf, &mut other, Err(CutError::Read));
    Ok(())
}
