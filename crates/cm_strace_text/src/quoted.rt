// Quoted texts as strace(1) writes them, with its escapes.
ghost use Rattle.std.specs.Prelude.{◌≡◌, ◌≤◌, ◌==◌, [], Some, find, length, option_map};
ghost use Rattle.cm_base.specs.Outcome.{OrNoMemory};
ghost use Rattle.cm_strace_text.specs.Quotes.{reach_is, step_is, preceded, quote_is, IsShort, GoesShort};
ghost use Rattle.cm_strace_text.specs.declared.quoted.Reach.TheVariants.{Octal};
ghost use Rattle.model_strace.specs.Quoted as model;
ghost use Rattle.model_strace.specs.Quoted.{escapes, escape_step, is_octal, octal_end, slash_step, step, text_step};
ghost use Rattle.model_strace.specs.Quoted.{after_bytes, unquoted, quote_of, quote_before, whole_text};

use crate::marks::{after_mark, is_word, next_of, trimmed};
use cm_base::NoMemory;
use cm_tokens::put;
use std::alloc::Global;

/// What an argument is as a quoted text.
#[derive(Debug, Drop)]
pub enum Quote {
    /// These bytes.
    Bytes(Vec<u8>),
    /// One that was cut, as `...` tells.
    Shortened,
    /// None.
    NoText,
}

// Where a reader of a quoted text is: after a whole byte; after a backslash; after octal digits of that value, of which
// so many more may follow.
#[derive(Clone, Copy)]
enum Reach {
    Text,
    Slash,
    Octal(u32, u32),
}

// What one byte more makes of it: no text; the end of the text; the reader goes on.
#[derive(Clone, Copy)]
enum Move {
    Breaks,
    Closes,
    Goes(Reach),
}

/// The quoted text that an argument is.
pub fn read_quote(alloc: Global, text: &[u8]) -> Result<Quote, NoMemory>
    ensures { OrNoMemory result (λ quote. quote_is quote ≡ quote_of text.now) }
{
    match after_mark(b"\"", text) {
        Some(inside) => read_inside(alloc, inside),
        None => Ok(Quote::NoText),
    }
}

// The same after the opening quote.
fn read_inside(alloc: Global, text: &[u8]) -> Result<Quote, NoMemory>
    ensures { OrNoMemory result (λ quote. quote_is quote ≡ quote_before (unquoted model.Text text.now)) }
{
    match unquote(alloc, text)? {
        Some((bytes, rest)) => Ok(quote_before(bytes, rest)),
        None => Ok(Quote::NoText),
    }
}

// The same by the bytes, and what follows the closing quote.
fn quote_before(bytes: Vec<u8>, rest: &[u8]) -> Quote
    ensures { quote_is result ≡ quote_before (Some (bytes.items, rest.now)) }
{
    let rest = trimmed(rest);
    if rest.is_empty() {
        Quote::Bytes(bytes)
    } else if is_word(b"...", rest) {
        Quote::Shortened
    } else {
        Quote::NoText
    }
}

impl Quote {
    /// Its bytes. None exactly where it isn't whole.
    pub fn whole(self) -> Option<Vec<u8>>
        ensures { option_map (λ bytes. bytes.items) result ≡ whole_text (quote_is self) }
    {
        match self {
            Quote::Bytes(bytes) => Some(bytes),
            _ => None,
        }
    }
}

// The bytes of a quoted text up to its closing quote, and what follows that. None exactly where it isn't closed, or has
// another escape.
fn unquote(alloc: Global, text: &[u8]) -> Result<Option<(Vec<u8>, &[u8])>, NoMemory>
    ensures { OrNoMemory result (λ read. option_map (λ sides. (sides.0.items, sides.1.now)) read ≡ unquoted model.Text text.now) }
{
    let mut bytes = Vec::with_capacity(alloc, text.len())?;
    let mut reach = Reach::Text;
    let mut rest = take_run(&mut bytes, text)?;
    while let [byte, after @ ..] = rest {
        match take_byte(&mut bytes, reach, *byte)? {
            Move::Breaks => return Ok(None),
            Move::Closes => return Ok(Some((bytes, after))),
            Move::Goes(next) => {
                reach = next;
                rest = take_reached(&mut bytes, next, after)?;
            }
        }
    }
    Ok(None)
}

// Takes the bytes that stand for themselves where the reader is after a whole byte: what is left then.
#[inline]
fn take_reached<'a>(bytes: &mut Vec<u8>, reach: Reach, text: &'a [u8]) -> Result<&'a [u8], NoMemory>
    ensures same { OrNoMemory result (λ rest. option_map (after_bytes bytes.new.items) (unquoted (reach_is reach) rest.now)
        ≡ option_map (after_bytes bytes.old.items) (unquoted (reach_is reach) text.now)) }
    ensures shorter { OrNoMemory result (λ rest. length rest.now ≤ length text.now) }
{
    match reach {
        Reach::Text => take_run(bytes, text),
        Reach::Slash | Reach::Octal(_, _) => Ok(text),
    }
}

// The same after a whole byte: all up to a quote or a backslash.
fn take_run<'a>(bytes: &mut Vec<u8>, text: &'a [u8]) -> Result<&'a [u8], NoMemory>
    ensures same { OrNoMemory result (λ rest. option_map (after_bytes bytes.new.items) (unquoted model.Text rest.now)
        ≡ option_map (after_bytes bytes.old.items) (unquoted model.Text text.now)) }
    ensures shorter { OrNoMemory result (λ rest. length rest.now ≤ length text.now) }
{
    let (run, rest) = text.split_at(next_of(b'"', b'\\', text, 0));
    put(bytes, run)?;
    Ok(rest)
}

// One byte more.
fn take_byte(bytes: &mut Vec<u8>, reach: Reach, byte: u8) -> Result<Move, NoMemory>
    requires { IsShort reach }
    ensures short { OrNoMemory result (λ move. GoesShort move) }
    ensures step { OrNoMemory result (λ move. step_is bytes.new.items move ≡ preceded bytes.old.items (step (reach_is reach) byte)) }
{
    match reach {
        Reach::Text => take_text(bytes, byte),
        Reach::Slash => take_escape(bytes, byte),
        Reach::Octal(value, more) => take_octal(bytes, value, more, byte),
    }
}

// One byte more after whole bytes.
fn take_text(bytes: &mut Vec<u8>, byte: u8) -> Result<Move, NoMemory>
    ensures short { OrNoMemory result (λ move. GoesShort move) }
    ensures step { OrNoMemory result (λ move. step_is bytes.new.items move ≡ preceded bytes.old.items (text_step [] byte)) }
{
    match byte {
        b'"' => Ok(Move::Closes),
        b'\\' => Ok(Move::Goes(Reach::Slash)),
        _ => {
            bytes.push(byte)?;
            Ok(Move::Goes(Reach::Text))
        }
    }
}

// One byte more after a backslash.
fn take_escape(bytes: &mut Vec<u8>, byte: u8) -> Result<Move, NoMemory>
    ensures short { OrNoMemory result (λ move. GoesShort move) }
    ensures step { OrNoMemory result (λ move. step_is bytes.new.items move ≡ preceded bytes.old.items (slash_step byte)) }
{
    if is_octal(byte) {
        return Ok(Move::Goes(Reach::Octal(u32::from(byte - b'0'), 2)));
    }
    match escaped(byte) {
        Some(meant) => {
            bytes.push(meant)?;
            Ok(Move::Goes(Reach::Text))
        }
        None => Ok(Move::Breaks),
    }
}

// The byte that a letter stands for after a backslash.
fn escaped(letter: u8) -> Option<u8>
    ensures { result ≡ option_map (λ escape. escape.1) (find (λ escape. escape.0 == letter) escapes) }
{
    match letter {
        b'n' => Some(b'\n'),
        b't' => Some(b'\t'),
        b'v' => Some(11),
        b'f' => Some(12),
        b'r' => Some(b'\r'),
        b'\\' => Some(b'\\'),
        b'"' => Some(b'"'),
        _ => None,
    }
}

// An octal digit.
#[inline]
fn is_octal(byte: u8) -> bool
    ensures { result ≡ is_octal byte }
{
    b'0' <= byte && byte <= b'7'
}

// One byte more after octal digits.
fn take_octal(bytes: &mut Vec<u8>, value: u32, more: u32, byte: u8) -> Result<Move, NoMemory>
    requires { IsShort (Octal value more) }
    ensures short { OrNoMemory result (λ move. GoesShort move) }
    ensures step { OrNoMemory result (λ move. step_is bytes.new.items move ≡ preceded bytes.old.items (step (model.Octal value more) byte)) }
{
    if more > 0 && is_octal(byte) {
        return Ok(Move::Goes(Reach::Octal(8 * value + u32::from(byte - b'0'), more - 1)));
    }
    end_octal(bytes, value, byte)
}

// One byte more after the last octal digit: their value is one byte.
fn end_octal(bytes: &mut Vec<u8>, value: u32, byte: u8) -> Result<Move, NoMemory>
    ensures short { OrNoMemory result (λ move. GoesShort move) }
    ensures step { OrNoMemory result (λ move. step_is bytes.new.items move ≡ preceded bytes.old.items (octal_end value byte)) }
{
    match u8::try_from(value) {
        Ok(whole) => {
            bytes.push(whole)?;
            take_text(bytes, byte)
        }
        Err(_) => Ok(Move::Breaks),
    }
}
