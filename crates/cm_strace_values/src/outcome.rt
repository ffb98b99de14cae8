// The results of calls as strace(1) writes them.
ghost use Rattle.std.specs.Prelude.{◌≡◌, ◌∷◌, codes, option_map};
ghost use Rattle.cm_base.specs.declared.res.Res.TheVariants.{Child};
ghost use Rattle.model_cred.specs.Process.{as_pid};
ghost use Rattle.cm_strace_values.specs.Outcomes.{outcome_is};
ghost use Rattle.model_strace.specs.Outcome.{outcome_of, minus_outcome, error_after, error_named, plain_result, id_result, birth_result, success};
ghost use Rattle.model_strace.specs.Marks.{after_mark};

use cm_base::{BadNumber, Errno, Pid, Res, read_u32};
use cm_strace_text::{after_mark, cut_name, without_front};
use cm_tokens::is_blank;

/// What a result is.
#[derive(Clone, Copy, Debug)]
pub enum Outcome {
    /// The call didn't return, or the kernel doesn't have it.
    NoReturn,
    /// A number of 32 bits.
    Number(u32),
    /// A greater number; these are told as one (choice).
    TooLarge,
    /// An error that a log may tell.
    Error(Errno),
    /// Another text.
    Other,
}

// What the numbers past the greatest one are told as.
const PAST: u64 = 4_294_967_296;

/// What a result is.
pub fn read_outcome(text: &[u8]) -> Outcome
    ensures { outcome_is result ≡ outcome_of text.now }
{
    if after_mark(b"?", text).is_some() {
        return Outcome::NoReturn;
    }
    match read_u32(text) {
        Ok(n) => Outcome::Number(n),
        Err(BadNumber::TooLarge) => Outcome::TooLarge,
        Err(BadNumber::NotNumber) => minus_outcome(text),
    }
}

// The result of a text that begins with `-1`.
fn minus_outcome(text: &[u8]) -> Outcome
    ensures { outcome_is result ≡ minus_outcome (after_mark (codes "-1") text.now) }
{
    match after_mark(b"-1", text) {
        Some(rest) => error_after(rest),
        None => Outcome::Other,
    }
}

// What follows `-1`: blanks, the name of an error, and anything.
fn error_after(text: &[u8]) -> Outcome
    ensures { outcome_is result ≡ error_after text.now }
{
    match text {
        [byte, rest @ ..] => error_at(*byte, rest),
        [] => Outcome::Other,
    }
}

// The same by the first byte, and what stands after it.
fn error_at(byte: u8, rest: &[u8]) -> Outcome
    ensures { outcome_is result ≡ error_after (byte ∷ rest.now) }
{
    if !is_blank(byte) {
        return Outcome::Other;
    }
    let (name, _) = cut_name(without_front(rest));
    error_named(name)
}

// The error of that name.
fn error_named(name: &[u8]) -> Outcome
    ensures { outcome_is result ≡ error_named name.now }
{
    if name == b"ENOSYS".as_slice() {
        return Outcome::NoReturn;
    }
    match Errno::from_name(name) {
        Some(e) => Outcome::Error(e),
        None => Outcome::Other,
    }
}

impl Outcome {
    /// The result of a call that answers 0, or fails. None exactly where it is another one.
    pub fn plain(self) -> Option<Res>
        ensures { result ≡ plain_result (outcome_is self) }
    {
        match self {
            Outcome::Number(n) => if n == 0 { Some(Res::Done) } else { None },
            Outcome::Error(e) => Some(Res::Err(e)),
            _ => None,
        }
    }

    /// The result of a call that answers the id from before, and doesn't fail.
    pub fn old_id(self) -> Option<Res>
        ensures { result ≡ id_result (outcome_is self) }
    {
        match self {
            Outcome::Number(n) => Some(Res::Id(n)),
            _ => None,
        }
    }

    /// The result of a call that answers the pid of its child, or fails.
    pub fn birth(self) -> Option<Res>
        ensures { result ≡ birth_result (outcome_is self) }
    {
        match self {
            Outcome::Number(n) => child(n),
            Outcome::Error(e) => Some(Res::Err(e)),
            _ => None,
        }
    }

    /// The number that a call which succeeds answers.
    pub fn success(self) -> Option<u64>
        ensures { result ≡ success (outcome_is self) }
    {
        match self {
            Outcome::Number(n) => Some(u64::from(n)),
            Outcome::TooLarge => Some(PAST),
            _ => None,
        }
    }
}

// The child of that pid.
fn child(n: u32) -> Option<Res>
    ensures { result ≡ option_map Child (as_pid n) }
{
    match Pid::new(n) {
        Some(pid) => Some(Res::Child(pid)),
        None => None,
    }
}
