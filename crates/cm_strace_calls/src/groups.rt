// setgroups(2): a length, and a list of so many ids.
ghost use Rattle.std.specs.Prelude.{◌≡◌, ◌==◌, length, if◌then◌else◌};
ghost use Rattle.cm_base.specs.Outcome.{OrNoMemory};
ghost use Rattle.cm_strace_calls.specs.Readers.{first_read, next_is, next_read};
ghost use Rattle.cm_strace_calls.specs.Told.{and_make, told_is};
ghost use Rattle.cm_strace_text.specs.Depths.{arguments_in};
ghost use Rattle.cm_strace_values.specs.Outcomes.{outcome_is};
ghost use Rattle.model_strace.specs.Calls.{Faulty, then_tells, ids_of_length, groups_told, groups_call};
ghost use Rattle.model_text.specs.Token.{number_token};

use crate::arguments::needed;
use crate::told::Told;
use cm_base::{Limited, LineFault, NoMemory, Res};
use cm_state::{Call, Ids};
use cm_strace_text::next_argument;
use cm_strace_values::{Outcome, read_id_list};
use cm_tokens::read_number;
use std::alloc::Global;

/// A line of setgroups.
#[tactic(auto, using(crate::proofs::Readers::list_in_turn))]
pub(crate) fn read<'a>(
    alloc: Global,
    arguments: Option<&[u8]>,
    outcome: Outcome,
) -> Result<Told<'a>, NoMemory>
    ensures { OrNoMemory result (λ told. told_is told
        ≡ groups_told (arguments_in arguments.entry) (outcome_is outcome)) }
{
    let Some(res) = outcome.plain() else {
        return Ok(Told::Faulty(LineFault::Outcome));
    };
    match read_count(arguments) {
        Ok((count, left)) => read_list(alloc, count, left, res),
        Err(why) => Ok(Told::Faulty(why)),
    }
}

// The length, which comes first, and what is left after it.
fn read_count(arguments: Option<&[u8]>) -> Result<(u32, Option<&[u8]>), LineFault>
    ensures { and_make next_is result ≡ next_read number_token 1 (arguments_in arguments.entry) }
{
    let (text, left) = needed(arguments, LineFault::Argument(1))?;
    match read_number(text) {
        Some(count) => Ok((count, left)),
        None => Err(LineFault::Argument(1)),
    }
}

// The same after its result and its length.
fn read_list<'a>(
    alloc: Global,
    count: u32,
    left: Option<&[u8]>,
    res: Res,
) -> Result<Told<'a>, NoMemory>
    ensures { OrNoMemory result (λ told. told_is told
        ≡ then_tells (first_read (ids_of_length count) 2 (arguments_in left.entry))
        (λ ids. groups_call ids res)) }
{
    let Some((text, _)) = next_argument(left) else {
        return Ok(Told::Faulty(LineFault::Argument(2)));
    };
    match read_id_list(alloc, text)? {
        Some(ids) => Ok(told_of(count, ids, res)),
        None => Ok(Told::Faulty(LineFault::Argument(2))),
    }
}

// The same of a list of ids.
fn told_of<'a>(count: u32, ids: Vec<u32>, res: Res) -> Told<'a>
    ensures { told_is result
        ≡ (if length ids.items == count then groups_call ids.items res else Faulty (LineFault.Argument 2)) }
{
    if ids.len() as u64 != u64::from(count) {
        return Told::Faulty(LineFault::Argument(2));
    }
    if ids.len() as u64 > Limited::Groups.number() {
        return Told::Exceeds(Limited::Groups);
    }
    Told::Does(Call::SetGroups(Ids::from_vec(ids)), res)
}
