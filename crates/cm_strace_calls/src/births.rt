// Births and user namespaces: fork(2), clone(2), unshare(2), setns(2).
ghost use Rattle.std.specs.Prelude.{◌≡◌};
ghost use Rattle.cm_strace_calls.specs.Told.{told_is};
ghost use Rattle.cm_strace_text.specs.Depths.{arguments_in};
ghost use Rattle.cm_strace_values.specs.Outcomes.{outcome_is};
ghost use Rattle.model_strace.specs.Calls.{birth_told, birth_with, unshare_told, setns_told, text_of};

use crate::arguments::{needed, next_text};
use crate::told::Told;
use cm_base::{LineFault, Res};
use cm_state::Call;
use cm_strace_values::{Outcome, has_flag};
use cm_tokens::read_number;

/// A birth with these flags.
pub(crate) fn read_birth<'a>(flags: &[u8], outcome: Outcome) -> Told<'a>
    ensures { told_is result ≡ birth_told flags.now (outcome_is outcome) }
{
    match outcome.birth() {
        Some(res) => birth_with(
            has_flag(b"CLONE_NEWUSER", flags),
            has_flag(b"CLONE_FILES", flags),
            res,
        ),
        None => Told::Faulty(LineFault::Outcome),
    }
}

// A failed birth in no new user namespace tells nothing.
fn birth_with<'a>(user: bool, shares: bool, res: Res) -> Told<'a>
    ensures { told_is result ≡ birth_with user shares res }
{
    match res {
        Res::Err(_) => if user {
            Told::Bears(user, shares, res)
        } else {
            Told::Nothing
        },
        _ => Told::Bears(user, shares, res),
    }
}

/// unshare(2): one that makes no user namespace tells nothing, whatever it answers.
pub(crate) fn read_unshare<'a>(arguments: Option<&[u8]>, outcome: Outcome) -> Told<'a>
    ensures { told_is result
        ≡ unshare_told (text_of 1 (arguments_in arguments.entry)) (outcome_is outcome) }
{
    let (flags, _) = next_text(arguments);
    if !has_flag(b"CLONE_NEWUSER", flags) {
        return Told::Nothing;
    }
    match outcome.plain() {
        Some(res) => Told::Does(Call::Unshare, res),
        None => Told::Faulty(LineFault::Outcome),
    }
}

/// setns(2): its descriptor, which may be one that can't be read, and its flags.
pub(crate) fn read_setns<'a>(arguments: Option<&'a [u8]>, outcome: Outcome) -> Told<'a>
    ensures { told_is result ≡ setns_told (arguments_in arguments.entry) (outcome_is outcome) }
{
    let (descriptor, left) = match needed(arguments, LineFault::Argument(1)) {
        Ok(next) => next,
        Err(why) => return Told::Faulty(why),
    };
    match needed(left, LineFault::Argument(2)) {
        Ok((flags, _)) => Told::Joins(read_number(descriptor), flags, outcome),
        Err(why) => Told::Faulty(why),
    }
}
