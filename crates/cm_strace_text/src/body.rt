// A line of a log of strace -f, a pid, blanks, and a body; and what a body is: the end of a process, a call, or a part
// of one (strace(1), "-f").
ghost use Rattle.std.specs.Prelude.{◌≡◌, ◌∷◌, [], IfSome, Some, codes, is_some, option_map, option_and_then};
ghost use Rattle.cm_base.specs.Number.{is_number};
ghost use Rattle.cm_strace_text.specs.Lines.{body_is, row_is};
ghost use Rattle.model_strace.specs.Body.{row_of, pid_row};
ghost use Rattle.model_strace.specs.Body.{body_of, end_body, words_before_plus, call_body, after_dots, is_end, are_number, after_words};
ghost use Rattle.model_strace.specs.Marks.{after_first_word, after_mark, first_word, without_front};
ghost use Rattle.model_text.specs.Cut.{tokens_of};
ghost use Rattle.model_text.specs.Token.{pid_token};

use crate::marks::{after_mark, before_mark, cut_word, is_word, without_end, without_front};
use cm_base::{BadNumber, Pid, read_u32};
use cm_tokens::{is_blank, next_token, read_pid, take_digit};

// No pid has a greater number before its last digit.
const GREATEST_TENTH: u32 = 419_430;

/// What a line is.
#[derive(Clone, Copy, Debug)]
pub enum PidLine<'a> {
    /// A line of blanks alone.
    Blank,
    /// One that doesn't begin with a pid.
    NoPid,
    /// A pid, and a body.
    Of(Pid, &'a [u8]),
}

/// What a body is.
#[derive(Clone, Copy, Debug)]
pub enum Body<'a> {
    /// It tells nothing.
    Silent,
    /// Its process ends.
    Ends,
    /// A thread's execve took the place of this one.
    Superseded,
    /// The beginning of a call, without the mark that it isn't finished.
    Begun(&'a [u8]),
    /// The rest of the call of that name.
    Resumed(&'a [u8], &'a [u8]),
    /// A call.
    Whole(&'a [u8]),
}

/// What a line is: its pid stands before the first blank, and nothing before the pid.
pub fn read_row(line: &[u8]) -> PidLine<'_>
    ensures { row_is result ≡ row_of line.now }
{
    let text = without_end(line);
    if text.is_empty() {
        return PidLine::Blank;
    }
    match cut_pid(text) {
        Some((pid, body)) => PidLine::Of(pid, body),
        None => worded_row(text),
    }
}

// The pid that is the first word, read digit by digit, and what follows the blanks after it. None says nothing of the
// text.
fn cut_pid(text: &[u8]) -> Option<(Pid, &[u8])>
    ensures pid { IfSome result (λ cut. pid_token (first_word text.now) ≡ Some cut.0) }
    ensures rest { IfSome result (λ cut. after_first_word text.now ≡ cut.1.now) }
{
    let mut number: u32 = 0;
    let mut rest = text;
    while let Some((digit, after)) = take_digit(rest) {
        if number > GREATEST_TENTH {
            return None;
        }
        number = 10 * number + u32::from(digit);
        rest = after;
    }
    let [byte, after @ ..] = rest else {
        return None;
    };
    if !is_blank(*byte) {
        return None;
    }
    let pid = Pid::new(number)?;
    Some((pid, without_front(after)))
}

// What a line is that isn't empty and has no blanks at its end, by its first word, whatever that is.
fn worded_row(text: &[u8]) -> PidLine<'_>
    ensures { row_is result ≡ pid_row (pid_token (first_word text.now)) (after_first_word text.now) }
{
    let (word, body) = cut_word(text);
    match read_pid(word) {
        Some(pid) => PidLine::Of(pid, body),
        None => PidLine::NoPid,
    }
}

/// What a body is: one that begins with `---` tells of a signal, one between two marks `+++` of an end. The bytes at
/// its ends tell most bodies to be calls: no mark begins or ends with them.
#[inline]
#[tactic(auto, using(crate::proofs::Unmarked::unmarked))]
pub fn read_body(text: &[u8]) -> Body<'_>
    ensures { body_is result ≡ body_of text.now }
{
    if let [first, .., last] = text
        && *first != b'-'
        && *first != b'+'
        && *first != b'<'
        && *last != b'>'
    {
        return Body::Whole(text);
    }
    read_marked(text)
}

// What a body is that may have marks.
fn read_marked(text: &[u8]) -> Body<'_>
    ensures { body_is result ≡ body_of text.now }
{
    if after_mark(b"---", text).is_some() {
        return Body::Silent;
    }
    match after_mark(b"+++", text) {
        Some(rest) => end_body(rest),
        None => call_body(text),
    }
}

// What follows a mark `+++` at a body's front tells.
fn end_body(text: &[u8]) -> Body<'_>
    ensures { body_is result ≡ end_body (words_before_plus text.now) }
{
    let Some(inside) = before_mark(b"+++", text) else {
        return Body::Silent;
    };
    if tells_end(inside) {
        Body::Ends
    } else if tells_superseded(inside) {
        Body::Superseded
    } else {
        Body::Silent
    }
}

// The words tell that a process ended.
fn tells_end(text: &[u8]) -> bool
    ensures { result ≡ is_end (tokens_of text.now) }
{
    tells_exit(text) || tells_kill(text)
}

// `exited with`, and a status.
fn tells_exit(text: &[u8]) -> bool
    ensures { result ≡ are_number (after_words (codes "exited" ∷ codes "with" ∷ []) (tokens_of text.now)) }
{
    match after_two_words(b"exited", b"with", text) {
        Some(rest) => is_one_number(rest),
        None => false,
    }
}

// `killed by`, and anything.
fn tells_kill(text: &[u8]) -> bool
    ensures { result ≡ is_some (after_words (codes "killed" ∷ codes "by" ∷ []) (tokens_of text.now)) }
{
    after_two_words(b"killed", b"by", text).is_some()
}

// `superseded`, and anything.
fn tells_superseded(text: &[u8]) -> bool
    ensures { result ≡ is_some (after_words (codes "superseded" ∷ []) (tokens_of text.now)) }
{
    after_word(b"superseded", text).is_some()
}

// What follows two words.
#[tactic(auto, using(crate::proofs::Words::two_words))]
fn after_two_words<'a>(first: &[u8], second: &[u8], text: &'a [u8]) -> Option<&'a [u8]>
    ensures { option_map (λ rest. tokens_of rest.now) result ≡ after_words (first.now ∷ second.now ∷ []) (tokens_of text.now) }
{
    match after_word(first, text) {
        Some(rest) => after_word(second, rest),
        None => None,
    }
}

// What follows a word.
fn after_word<'a>(wanted: &[u8], text: &'a [u8]) -> Option<&'a [u8]>
    ensures { option_map (λ rest. tokens_of rest.now) result ≡ after_words (wanted.now ∷ []) (tokens_of text.now) }
{
    match next_token(text) {
        Some((word, rest)) => if is_word(wanted, word) {
            Some(rest)
        } else {
            None
        },
        None => None,
    }
}

// The words of the text are one number.
fn is_one_number(text: &[u8]) -> bool
    ensures { result ≡ are_number (Some (tokens_of text.now)) }
{
    match next_token(text) {
        Some((word, rest)) => next_token(rest).is_none() && is_number(word),
        None => false,
    }
}

// Digits alone, and at least one.
fn is_number(text: &[u8]) -> bool
    ensures { result ≡ is_number 10 text.now }
{
    match read_u32(text) {
        Err(BadNumber::NotNumber) => false,
        _ => true,
    }
}

// A body that tells of a call, or of a part of one: one that isn't finished comes before one that is resumed.
#[inline]
fn call_body(text: &[u8]) -> Body<'_>
    ensures { body_is result ≡ call_body text.now }
{
    if let Some(front) = before_mark(b"<unfinished ...>", text) {
        return Body::Begun(front);
    }
    match resumed_body(text) {
        Some(body) => body,
        None => Body::Whole(text),
    }
}

// The rest of a call, after its marks.
fn resumed_body(text: &[u8]) -> Option<Body<'_>>
    ensures { option_map body_is result ≡ option_and_then (λ rest. after_dots (without_front rest)) (after_mark (codes "<...") text.now) }
{
    let rest = after_mark(b"<...", text)?;
    after_dots(without_front(rest))
}

// The same after the first mark: the name stands up to a blank.
fn after_dots(text: &[u8]) -> Option<Body<'_>>
    ensures { option_map body_is result ≡ after_dots text.now }
{
    let (name, after) = cut_word(text);
    let rest = after_mark(b"resumed>", after)?;
    Some(Body::Resumed(name, rest))
}
