// The two parts of a line after the name of its call: the arguments, which stand before the first `=`, and the result, the
// one token after it.
ghost use Rattle.std.specs.Prelude.{◌≡◌, ◌+◌, ◌<◌, ◌≤◌, [], ◌∷◌, IfSome, MatchOption, length, option_map};
ghost use Rattle.cm_script.specs.Steps.{arguments_in, only_one, outcome_of};
ghost use Rattle.model_text.specs.Cut.{tokens_of};

use cm_tokens::{next_token, stands_for_equals};

/// How many arguments stand before the first `=`, and the one token after it. None exactly where there is no `=`, or another
/// number of tokens after it.
pub(crate) fn find_parts(text: &[u8]) -> Option<(u32, &[u8])>
    requires { length text.now < 4294967295 }
    ensures outcome { option_map (λ p. p.1.now) result ≡ outcome_of (tokens_of text.now) }
    ensures count { IfSome result (λ p. p.0 ≡ length (arguments_in text.now)) }
{
    let mut count = 0;
    let mut rest = text;
    while let Some((token, after)) = next_token(rest) {
        if stands_for_equals(token) {
            return Some((count, only_token(after)?));
        }
        count += 1;
        rest = after;
    }
    None
}

// The only token of a text. None exactly where it has another number of them.
#[inline]
fn only_token(text: &[u8]) -> Option<&[u8]>
    ensures { option_map (λ token. token.now) result ≡ only_one (tokens_of text.now) }
{
    let (token, rest) = next_token(text)?;
    match next_token(rest) {
        None => Some(token),
        Some(_) => None,
    }
}

/// The next argument in a text, and what follows it. None exactly where no token stands before the first `=`.
#[inline]
pub(crate) fn next_argument(text: &[u8]) -> Option<(&[u8], &[u8])>
    ensures parts { MatchOption result (arguments_in text.now ≡ []) (λ p. arguments_in text.now ≡ p.0.now ∷ arguments_in p.1.now) }
    ensures shorter { IfSome result (λ p. length p.1.now < length text.now) }
{
    let (token, rest) = next_token(text)?;
    if stands_for_equals(token) {
        return None;
    }
    Some((token, rest))
}
