// Members of structures: NAME=VALUE, between braces.
ghost use Rattle.std.specs.Prelude.{◌≡◌, codes, option_map};
ghost use Rattle.model_strace.specs.Marks.{after_mark};
ghost use Rattle.model_strace.specs.Written.{bracketed, bracketed_whole, value_of};

use crate::arguments::before_closing;
use crate::marks::{after_mark, before_mark, without_front};

/// What stands between the brackets of a text that begins with this one. None exactly where it begins otherwise.
pub fn bracketed<'a>(left: &[u8], text: &'a [u8]) -> Option<&'a [u8]>
    ensures { option_map (λ inside. inside.now) result ≡ bracketed left.now text.now }
{
    let rest = after_mark(left, text)?;
    Some(before_closing(rest))
}

/// What stands between the brackets of a text that is nothing else. None exactly where it is another.
pub fn bracketed_whole<'a>(left: &[u8], right: &[u8], text: &'a [u8]) -> Option<&'a [u8]>
    ensures { option_map (λ inside. inside.now) result ≡ bracketed_whole left.now right.now text.now }
{
    let rest = after_mark(left, text)?;
    before_mark(right, rest)
}

/// The value of the member of that name: NAME=VALUE, with any blanks beside the sign. None exactly where it is none.
pub fn value_of<'a>(name: &[u8], text: &'a [u8]) -> Option<&'a [u8]>
    ensures { option_map (λ value. value.now) result ≡ value_of name.now text.now }
{
    let rest = after_mark(name, text)?;
    let value = after_mark(b"=", without_front(rest))?;
    Some(without_front(value))
}
