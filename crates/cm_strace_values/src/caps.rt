// Capabilities and the two structures of capset(2), as strace(1) writes them.
ghost use Rattle.std.specs.Prelude.{◌≡◌, ◌∷◌, [], codes, option_map};
ghost use Rattle.cm_strace_text.specs.Depths.{arguments_in};
ghost use Rattle.cm_strace_values.specs.Structures.{sets_is};
ghost use Rattle.model_strace.specs.Numbers.{bare_capability, has_ended, comment_end, ends_with_comment};
ghost use Rattle.model_strace.specs.Numbers.{capability_before, capability};
ghost use Rattle.model_strace.specs.Numbers.{members_of, member_set, three_sets, sets_in, sets_of, pid_in};
ghost use Rattle.model_strace.specs.Numbers.{header_pid};

use crate::hex::hex_number;
use crate::sets::read_mask;
use cm_base::CapWord;
use cm_strace_text::{
    bracketed_whole, cut_at, next_argument, read_arguments, trimmed, value_of, without_front,
};
use cm_tokens::{read_cap, read_number};

/// The capability that arguments begin with: its name, a decimal or a hexadecimal number, whether or not there is such a
/// capability. A comment after it is passed over, `/*` up to the next `*/`, whose commas part no arguments.
pub fn read_capability(arguments: Option<&[u8]>) -> Option<u32>
    ensures { result ≡ capability (arguments_in arguments.entry) }
{
    let (text, rest) = next_argument(arguments)?;
    match cut_at(b"/*", text) {
        Some((name, comment)) => before_comment(name, comment, rest),
        None => bare_capability(text),
    }
}

// The capability before a comment, of which this is left.
fn before_comment(name: &[u8], comment: &[u8], rest: Option<&[u8]>) -> Option<u32>
    ensures { result ≡ capability_before name.now (comment.now ∷ arguments_in rest.entry) }
{
    if comment_ends(comment, rest) {
        bare_capability(trimmed(name))
    } else {
        None
    }
}

// The same of a text without a comment.
fn bare_capability(text: &[u8]) -> Option<u32>
    ensures { result ≡ bare_capability text.now }
{
    read_cap(text).or(hex_number(text))
}

// Whether an argument ends with its comment: the comment ends in this text, or in one of these after it.
fn comment_ends(comment: &[u8], rest: Option<&[u8]>) -> bool
    ensures { result ≡ ends_with_comment (comment.now ∷ arguments_in rest.entry) }
{
    match comment_end(comment) {
        Some(ends) => ends,
        None => ends_with_comment(rest),
    }
}

// The same, where the comment ends in none before these.
fn ends_with_comment(arguments: Option<&[u8]>) -> bool
    ensures { result ≡ ends_with_comment (arguments_in arguments.entry) }
{
    let mut left = arguments;
    while let Some((text, rest)) = next_argument(left) {
        if let Some(ends) = comment_end(text) {
            return ends;
        }
        left = rest;
    }
    false
}

// The same, where the comment ends in this text. None exactly where it doesn't.
fn comment_end(text: &[u8]) -> Option<bool>
    ensures { result ≡ comment_end text.now }
{
    match cut_at(b"*/", text) {
        Some((_, after)) => Some(has_ended(without_front(after))),
        None => None,
    }
}

// An argument of which this is left has ended: nothing, or a comma.
fn has_ended(left: &[u8]) -> bool
    ensures { result ≡ has_ended left.now }
{
    match left {
        [byte, ..] => *byte == b',',
        [] => true,
    }
}

/// The three sets of capset.
#[derive(Clone, Copy, Debug)]
pub struct Sets {
    pub effective: CapWord,
    pub permitted: CapWord,
    pub inheritable: CapWord,
}

/// The sets: {effective=SET, permitted=SET, inheritable=SET}.
pub fn read_sets(text: &[u8]) -> Option<Sets>
    ensures { option_map sets_is result ≡ sets_of text.now }
{
    let members = members_of(text)?;
    sets_in(members)
}

// The sets of three members.
fn sets_in(members: Option<&[u8]>) -> Option<Sets>
    ensures { option_map sets_is result ≡ sets_in (arguments_in members.entry) }
{
    let (effective, rest) = next_argument(members)?;
    let (permitted, rest) = next_argument(rest)?;
    let (inheritable, rest) = next_argument(rest)?;
    if next_argument(rest).is_some() {
        return None;
    }
    three_sets(effective, permitted, inheritable)
}

// The sets of the three members.
fn three_sets(effective: &[u8], permitted: &[u8], inheritable: &[u8]) -> Option<Sets>
    ensures { option_map sets_is result ≡ three_sets (member_set (codes "effective") effective.now) (member_set
        (codes "permitted") permitted.now) (member_set (codes "inheritable") inheritable.now) }
{
    Some(Sets {
        effective: member_set(b"effective", effective)?,
        permitted: member_set(b"permitted", permitted)?,
        inheritable: member_set(b"inheritable", inheritable)?,
    })
}

// The set of the member of that name.
fn member_set(name: &[u8], text: &[u8]) -> Option<CapWord>
    ensures { result ≡ member_set name.now text.now }
{
    let value = value_of(name, text)?;
    read_mask(value)
}

/// The process of the header: {version=NAME, pid=PID}.
pub fn read_header(text: &[u8]) -> Option<u32>
    ensures { result ≡ header_pid text.now }
{
    let members = members_of(text)?;
    pid_in(members)
}

// The process that two members name.
fn pid_in(members: Option<&[u8]>) -> Option<u32>
    ensures { result ≡ pid_in (arguments_in members.entry) }
{
    let (version, rest) = next_argument(members)?;
    let (pid, rest) = next_argument(rest)?;
    if next_argument(rest).is_some() {
        return None;
    }
    pid_of(version, pid)
}

// The process of a member, where the other one names a version.
fn pid_of(version: &[u8], pid: &[u8]) -> Option<u32>
    ensures { result ≡ pid_in (version.now ∷ pid.now ∷ []) }
{
    let name = value_of(b"version", version)?;
    if name.is_empty() {
        return None;
    }
    let number = value_of(b"pid", pid)?;
    read_number(number)
}

// The members between braces, of a text that is nothing else.
fn members_of(text: &[u8]) -> Option<Option<&[u8]>>
    ensures { option_map (λ members. arguments_in members) result ≡ members_of text.now }
{
    let inside = bracketed_whole(b"{", b"}", text)?;
    Some(read_arguments(inside))
}
