// Flags: words that vertical bars part.
ghost use Rattle.std.specs.Prelude.{◌≡◌, filter_map, option_map};
ghost use Rattle.cm_strace_text.specs.Depths.{arguments_in};
ghost use Rattle.model_strace.specs.Flags.{has_flag, birth_flags, first_of_list, flags_among, flags_between, flags_in};
ghost use Rattle.model_strace.specs.Written.{value_of};

use cm_strace_text::{bracketed, is_word, next_argument, read_arguments, trimmed, value_of};
use cm_tokens::first_piece;

/// The word stands among the flags.
pub fn has_flag(word: &[u8], flags: &[u8]) -> bool
    ensures { result ≡ has_flag word.now flags.now }
{
    let mut rest = flags;
    while let Some((flag, more)) = first_piece(rest, b'|') {
        if is_word(word, trimmed(flag)) {
            return true;
        }
        rest = more;
    }
    is_word(word, trimmed(rest))
}

/// The flags of a birth: those of the first argument that has any, an empty text where none has.
pub fn birth_flags(arguments: Option<&[u8]>) -> &[u8]
    ensures { result.now ≡ birth_flags (arguments_in arguments.entry) }
{
    match first_flags(arguments) {
        Some(flags) => flags,
        None => &[],
    }
}

// The flags of the first argument that has any.
fn first_flags(arguments: Option<&[u8]>) -> Option<&[u8]>
    ensures { option_map (λ flags. flags.now) result ≡ first_of_list (filter_map flags_in (arguments_in arguments.entry)) }
{
    let mut left = arguments;
    while let Some((argument, rest)) = next_argument(left) {
        if let Some(flags) = flags_in(argument) {
            return Some(flags);
        }
        left = rest;
    }
    None
}

// The flags in an argument: flags=FLAGS, or such a member between braces (clone(2), clone3).
fn flags_in(text: &[u8]) -> Option<&[u8]>
    ensures { option_map (λ flags. flags.now) result ≡ flags_in text.now }
{
    match value_of(b"flags", text) {
        Some(flags) => Some(flags),
        None => flags_between(text),
    }
}

// The flags of the first member `flags` between braces.
fn flags_between(text: &[u8]) -> Option<&[u8]>
    ensures { option_map (λ flags. flags.now) result ≡ flags_between text.now }
{
    let inside = bracketed(b"{", text)?;
    flags_among(read_arguments(inside))
}

// The value of the first member `flags`.
fn flags_among(members: Option<&[u8]>) -> Option<&[u8]>
    ensures { option_map (λ flags. flags.now) result ≡ flags_among (arguments_in members.entry) }
{
    let mut left = members;
    while let Some((member, rest)) = next_argument(left) {
        if let Some(flags) = value_of(b"flags", member) {
            return Some(flags);
        }
        left = rest;
    }
    None
}
