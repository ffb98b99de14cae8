// What is asked after a log: the texts of a pid and of a right (choice), and a certificate or a run that is put
// forward.
ghost use Rattle.std.specs.Prelude.{◌≡◌, ◌<◌, ◌==◌, length, position, option_map, IfSome, MatchOption, None, Some};
ghost use Rattle.cm_cli.specs.Query.{limit_of, shows_of};
ghost use Rattle.cm_state.specs.Right.{right_of};
ghost use Rattle.model_report.specs.Query.{rest_after, id_number, cap_text, right_token};

use cm_base::{Cap, Kgid, Kuid, Limited, read_u32};
use cm_declared::Names;
use cm_state::Right;

/// The words of a query.
#[derive(Clone, Copy, Debug)]
pub(crate) struct Query<'a> {
    pub pid: &'a str,
    pub right: &'a str,
}

/// What is put forward about a query: a certificate, that no member ever holds the right; or a run, after which one
/// does.
#[derive(Clone, Copy, Debug, PartialEq, Eq)]
pub(crate) enum ClaimKind {
    Certificate,
    Run,
}

/// A certificate or a run, in the file of that name, about what a query asks.
#[derive(Clone, Copy, Debug)]
pub(crate) struct Claim<'a> {
    pub kind: ClaimKind,
    pub query: Query<'a>,
    pub file: &'a str,
}

/// What is asked after the replay of a log: nothing, a verdict on what a query asks, or whether a claim stands.
#[derive(Clone, Copy, Debug)]
pub(crate) enum Task<'a> {
    Nothing,
    Judge(Query<'a>),
    Claims(Claim<'a>),
}

impl ClaimKind {
    /// The limit of the file's size.
    pub(crate) fn limit(self) -> Limited
        ensures { result ≡ limit_of self }
    {
        match self {
            ClaimKind::Certificate => Limited::Certificate,
            ClaimKind::Run => Limited::Run,
        }
    }
}

impl Task<'_> {
    /// The replay is shown: before a claim it isn't.
    pub(crate) fn shows(&self) -> bool
        ensures { result ≡ shows_of self.now }
    {
        match self {
            Task::Nothing => true,
            Task::Judge(_) => true,
            Task::Claims(_) => false,
        }
    }
}

/// The right that a text is: `uid:K`, `gid:K` or `cap:NAME@SPACE`.
pub(crate) fn read_right(names: &Names, text: &[u8]) -> Option<Right>
    ensures { option_map right_of result ≡ right_token names.now text.now }
{
    if let Some(uid) = rest_after(b"uid:", text) {
        let id = read_uid(uid)?;
        return Some(Right::Uid(id));
    }
    if let Some(gid) = rest_after(b"gid:", text) {
        let id = read_gid(gid)?;
        return Some(Right::Gid(id));
    }
    let cap = rest_after(b"cap:", text)?;
    read_cap(names, cap)
}

fn read_uid(text: &[u8]) -> Option<Kuid>
    ensures { result ≡ id_number text.now }
{
    match read_u32(text) {
        Ok(n) => Kuid::new(n),
        Err(_) => None,
    }
}

fn read_gid(text: &[u8]) -> Option<Kgid>
    ensures { result ≡ id_number text.now }
{
    match read_u32(text) {
        Ok(n) => Kgid::new(n),
        Err(_) => None,
    }
}

// The name of a capability, `@` and a space.
fn read_cap(names: &Names, text: &[u8]) -> Option<Right>
    ensures { option_map right_of result ≡ cap_text names.now text.now }
{
    let at = place_of_at(text)?;
    let cap = Cap::from_name(&text[..at])?;
    let space = names.space(&text[at + 1..])?;
    Some(Right::Cap(cap, space))
}

// The place of the first `@`.
fn place_of_at(text: &[u8]) -> Option<usize>
    ensures at { result ≡ position (λ byte. byte == 64) text.now }
    ensures within { IfSome result (λ at. at < length text.now) }
{
    text.iter().position(|byte| *byte == b'@')
}

// What stands after these bytes, where the text begins with them.
fn rest_after<'a>(front: &[u8], text: &'a [u8]) -> Option<&'a [u8]>
    ensures { MatchOption result (rest_after front.now text.now ≡ None)
        (λ rest. rest_after front.now text.now ≡ Some rest.now) }
{
    text.strip_prefix(front)
}
