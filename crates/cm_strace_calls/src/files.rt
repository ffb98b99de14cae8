// Calls on descriptors: one that fails tells nothing, nor does one of a number that can't be read.
ghost use Rattle.std.specs.Prelude.{◌≡◌};
ghost use Rattle.cm_strace_calls.specs.Told.{told_is};
ghost use Rattle.cm_strace_text.specs.Depths.{arguments_in};
ghost use Rattle.cm_strace_values.specs.Outcomes.{outcome_is};
ghost use Rattle.model_strace.specs.Calls.{Copies, where_some, open_told, creat_told, close_told, dup_told};
ghost use Rattle.model_strace.specs.Calls.{dup_to_told, makes_copy, fcntl_told, write_told};
ghost use Rattle.model_strace.specs.Outcome.{success};

use crate::arguments::{next_text, number_of};
use crate::told::{Opening, Told};
use cm_strace_text::next_argument;
use cm_strace_values::Outcome;
use cm_tokens::read_number;

/// open(2): the path is the next argument, the flags stand after it.
#[tactic(auto, using(crate::proofs::Texts::second_text))]
pub(crate) fn read_open<'a>(left: Option<&'a [u8]>, outcome: Outcome) -> Told<'a>
    ensures { told_is result ≡ open_told 1 (arguments_in left.entry) (outcome_is outcome) }
{
    match outcome.success() {
        Some(opened) => {
            let (path, left) = next_text(left);
            let (flags, _) = next_text(left);
            Told::Opens(Opening { path, flags }, opened)
        }
        None => Told::Nothing,
    }
}

/// openat (open(2)): what stands before the path is its folder.
#[tactic(auto, using(crate::proofs::Texts::open_after))]
pub(crate) fn read_open_at<'a>(arguments: Option<&'a [u8]>, outcome: Outcome) -> Told<'a>
    ensures { told_is result ≡ open_told 2 (arguments_in arguments.entry) (outcome_is outcome) }
{
    let (_, left) = next_text(arguments);
    read_open(left, outcome)
}

/// creat is an open for writing.
pub(crate) fn read_creat<'a>(arguments: Option<&'a [u8]>, outcome: Outcome) -> Told<'a>
    ensures { told_is result ≡ creat_told (arguments_in arguments.entry) (outcome_is outcome) }
{
    match outcome.success() {
        Some(opened) => {
            let (path, _) = next_text(arguments);
            Told::Opens(
                Opening {
                    path,
                    flags: b"O_WRONLY",
                },
                opened,
            )
        }
        None => Told::Nothing,
    }
}

/// close(2).
pub(crate) fn read_close<'a>(arguments: Option<&[u8]>, outcome: Outcome) -> Told<'a>
    ensures { told_is result ≡ close_told (arguments_in arguments.entry) (outcome_is outcome) }
{
    match (outcome.success(), number_of(arguments)) {
        (Some(_), Some(number)) => Told::Closes(number),
        _ => Told::Nothing,
    }
}

/// dup(2).
pub(crate) fn read_dup<'a>(arguments: Option<&[u8]>, outcome: Outcome) -> Told<'a>
    ensures { told_is result ≡ dup_told (arguments_in arguments.entry) (outcome_is outcome) }
{
    copied(number_of(arguments), outcome)
}

// A copy of that descriptor.
fn copied<'a>(number: Option<u32>, outcome: Outcome) -> Told<'a>
    ensures { told_is result ≡ where_some (success (outcome_is outcome)) (λ n. where_some number Copies) }
{
    match (outcome.success(), number) {
        (Some(_), Some(number)) => Told::Copies(number),
        _ => Told::Nothing,
    }
}

/// dup2 and dup3 (dup(2)) answer the number of the copy.
pub(crate) fn read_dup_to<'a>(arguments: Option<&[u8]>, outcome: Outcome) -> Told<'a>
    ensures { told_is result ≡ dup_to_told (arguments_in arguments.entry) (outcome_is outcome) }
{
    match outcome.success() {
        Some(number) => Told::CopiesTo(number_of(arguments), number),
        None => Told::Nothing,
    }
}

/// fcntl(2), of which the commands that make a copy are read ("Duplicating a file descriptor").
#[tactic(auto, using(crate::proofs::Texts::second_text))]
pub(crate) fn read_fcntl<'a>(arguments: Option<&[u8]>, outcome: Outcome) -> Told<'a>
    ensures { told_is result ≡ fcntl_told (arguments_in arguments.entry) (outcome_is outcome) }
{
    let (descriptor, left) = next_text(arguments);
    let (command, _) = next_text(left);
    if makes_copy(command) {
        copied(read_number(descriptor), outcome)
    } else {
        Told::Nothing
    }
}

// The command makes a copy of a descriptor.
fn makes_copy(command: &[u8]) -> bool
    ensures { result ≡ makes_copy command.now }
{
    command == b"F_DUPFD".as_slice() || command == b"F_DUPFD_CLOEXEC".as_slice()
}

/// write(2), and pwrite64 (pwrite(2)).
pub(crate) fn read_write<'a>(arguments: Option<&'a [u8]>, outcome: Outcome) -> Told<'a>
    ensures { told_is result ≡ write_told (arguments_in arguments.entry) (outcome_is outcome) }
{
    let Some((first, left)) = next_argument(arguments) else {
        return Told::Nothing;
    };
    match read_number(first) {
        Some(number) => Told::Writes(number, left, outcome),
        None => Told::Nothing,
    }
}
