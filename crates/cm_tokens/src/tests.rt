// Each function once, with what docs/FORMATS.md says of lines, tokens and values.
use crate::{
    begins_comment, first_piece, hex_value, is_blank, next_token, read_cap, read_id, read_number,
    read_pid, read_word, stands_for_equals, take_digit, token_len,
};
use cm_base::Pid;
use std::process::Abort;
use std::test::Fail;

// The tokens of a line, one after the other.
#[test]
fn tokens_of_a_line(rt: HostRuntime) -> Result<(), Fail> {
    let mut left: &[u8] = b" 100 setuid\t33 = 0\r";
    for want in ["100", "setuid", "33", "=", "0"] {
        let (token, rest) = next_token(left).ok_or("token")?;
        assert_eq!(rt; token, want.as_bytes());
        left = rest;
    }
    assert!(rt; next_token(left).is_none());
    assert_eq!(rt; token_len(b"setuid\t33"), 6);
    Ok(())
}

// The values that tokens stand for.
#[test]
fn tokens_have_values(rt: HostRuntime) {
    assert_eq!(rt; read_pid(b"4194304"), Pid::new(4194304));
    assert_eq!(rt; read_id(b"-1"), Some(4294967295));
    assert_eq!(rt; read_number(b"007"), Some(7));
    assert_eq!(rt; read_cap(b"CAP_KILL"), Some(5));
    assert_eq!(rt; read_word(b"deny"), Some(true));
    assert_eq!(rt; hex_value(b'F'), Some(15));
}

// The digit that a text begins with.
#[test]
fn digits_are_taken(rt: HostRuntime) {
    assert_eq!(rt; take_digit(b"70"), Some((7, b"0".as_slice())));
    assert_eq!(rt; take_digit(b"9"), Some((9, b"".as_slice())));
    for text in [b"".as_slice(), b"/", b":", b"a", b" 1"] {
        assert!(rt; take_digit(text).is_none());
    }
}

// What tokens are for.
#[test]
fn tokens_have_uses(rt: HostRuntime) {
    assert!(rt; begins_comment(b";x"));
    assert!(rt; stands_for_equals(b"="));
    assert!(rt; is_blank(b'\t'));
}

// Names that commas part.
#[test]
fn pieces_of_a_text(rt: HostRuntime) -> Result<(), Fail> {
    let (name, rest) = first_piece(b"CAP_KILL,CAP_CHOWN", b',').ok_or("piece")?;
    assert_eq!(rt; name, b"CAP_KILL".as_slice());
    assert_eq!(rt; rest, b"CAP_CHOWN".as_slice());
    assert!(rt; first_piece(rest, b',').is_none());
    Ok(())
}
