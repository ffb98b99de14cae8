// Texts with escapes, for bytes that a line of a case doesn't show.
use crate::stop::Stop;
use crate::values::number;
use cm_tokens::hex_value;
use std::alloc::Global;

/// The bytes of a text, in which `\t` and `\r` stand for tab and CR, `\xHH` for the byte of these two digits, and
/// `\(N:TEXT)` for TEXT so many times. `Bad` where an escape is none of these.
pub fn bytes_of(alloc: Global, text: &str) -> Result<Vec<u8>, Stop> {
    let mut pieces = text.split('\\');
    let plain = pieces.next().unwrap_or("");
    let mut bytes = Vec::from_slice(alloc, plain.as_bytes())?;
    for piece in pieces {
        put_escape(&mut bytes, piece)?;
    }
    Ok(bytes)
}

// An escape without its backslash, and what stands after it.
fn put_escape(bytes: &mut Vec<u8>, piece: &str) -> Result<(), Stop> {
    match piece.as_bytes() {
        [b't', rest @ ..] => put_byte(bytes, b'\t', rest),
        [b'r', rest @ ..] => put_byte(bytes, b'\r', rest),
        [b'x', high, low, rest @ ..] => {
            let high = hex_value(*high).ok_or(Stop::Bad)?;
            let low = hex_value(*low).ok_or(Stop::Bad)?;
            put_byte(bytes, high * 16 + low, rest)
        }
        _ => put_repeated(bytes, piece),
    }
}

fn put_byte(bytes: &mut Vec<u8>, byte: u8, rest: &[u8]) -> Result<(), Stop> {
    bytes.push(byte)?;
    bytes.extend_from_slice(rest)?;
    Ok(())
}

// `(N:TEXT)`, and what stands after it.
fn put_repeated(bytes: &mut Vec<u8>, piece: &str) -> Result<(), Stop> {
    let (head, rest) = piece.split_once(')').ok_or(Stop::Bad)?;
    let (count, text) = head.split_once(':').ok_or(Stop::Bad)?;
    let digits = count.strip_prefix("(").ok_or(Stop::Bad)?;
    for _ in 0..number(digits)? {
        bytes.extend_from_slice(text.as_bytes())?;
    }
    bytes.extend_from_slice(rest.as_bytes())?;
    Ok(())
}
