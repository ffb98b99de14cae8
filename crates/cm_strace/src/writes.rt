// A write to a descriptor: to a map file or a setgroups file that is followed it is a call of its own.
ghost use Rattle.std.specs.Prelude.{◌≡◌, ℕ, option_map, slice_get};
ghost use Rattle.cm_base.specs.Outcome.{OrNoMemory};
ghost use Rattle.cm_base.specs.declared.res.Res.TheVariants as res;
ghost use Rattle.cm_state.specs.Call.{call_of};
ghost use Rattle.cm_strace.specs.Deeds.{deed_is};
ghost use Rattle.cm_strace_text.specs.Depths.{arguments_in};
ghost use Rattle.cm_strace_values.specs.Outcomes.{outcome_is};
ghost use Rattle.cm_strace_text.specs.Quotes.{quote_is};
ghost use Rattle.model_strace.specs.Parts as known;
ghost use Rattle.model_strace.specs.Parts.{descriptor_of};
ghost use Rattle.model_strace.specs.Turn.{written_call, wrote, failed_write, writes_text, writes_argument, writes};

use crate::deed::Deed;
use cm_base::{Errno, LineFault, NoMemory, Pid, Res};
use cm_state::Call;
use cm_strace_parts::{Descriptor, Parts, read_extents, read_written_word};
use cm_strace_text::{Quote, next_argument, read_quote};
use cm_strace_values::{Followed, Outcome};
use std::alloc::Global;

/// A write to that descriptor, of the text that is the first of the arguments that are left. It fails only where memory
/// runs out.
pub(crate) fn writes(
    alloc: Global,
    parts: &Parts,
    pid: Pid,
    number: u32,
    left: Option<&[u8]>,
    outcome: Outcome,
) -> Result<Deed, NoMemory>
    ensures { OrNoMemory result (λ deed. deed_is pid deed parts.now.known
        ≡ writes pid (descriptor_of pid number parts.now.known) (slice_get (arguments_in left.entry) 0)
        (outcome_is outcome) parts.now.known) }
{
    match parts.descriptor_of(pid, u64::from(number)) {
        Some(d) => if d.file.is_space() {
            Ok(Deed::Quiet)
        } else {
            writes_argument(alloc, &d, left, outcome)
        },
        None => Ok(Deed::Quiet),
    }
}

// The same to one that is followed for its map or its word: the result is looked at before the text.
fn writes_argument(
    alloc: Global,
    d: &Descriptor,
    left: Option<&[u8]>,
    outcome: Outcome,
) -> Result<Deed, NoMemory>
    ensures { OrNoMemory result (λ deed. (pid : ℕ) (p : known.Parts) → deed_is pid deed p
        ≡ writes_argument pid d.now (slice_get (arguments_in left.entry) 0) (outcome_is outcome) p) }
{
    match next_argument(left) {
        Some((text, _)) => {
            let quote = read_quote(alloc, text)?;
            writes_text(alloc, d, &quote, outcome)
        }
        None => match outcome {
            Outcome::Other => Ok(Deed::Refused(LineFault::Outcome)),
            Outcome::NoReturn | Outcome::Number(_) | Outcome::TooLarge | Outcome::Error(_) => {
                Ok(Deed::Refused(LineFault::Argument(2)))
            }
        },
    }
}

// The same of a text.
fn writes_text(
    alloc: Global,
    d: &Descriptor,
    quote: &Quote,
    outcome: Outcome,
) -> Result<Deed, NoMemory>
    ensures { OrNoMemory result (λ deed. (pid : ℕ) (p : known.Parts) → deed_is pid deed p
        ≡ writes_text pid d.now (quote_is quote.now) (outcome_is outcome) p) }
{
    match outcome {
        Outcome::Number(n) => wrote(alloc, d, u64::from(n), quote),
        Outcome::TooLarge => wrote(alloc, d, PAST, quote),
        Outcome::Error(e) => failed(alloc, d, e, quote),
        Outcome::NoReturn | Outcome::Other => Ok(Deed::Refused(LineFault::Outcome)),
    }
}

// What the numbers past the greatest one are told as.
const PAST: u64 = 4_294_967_296;

// A write that answers a number: a success writes the whole text.
fn wrote(alloc: Global, d: &Descriptor, n: u64, quote: &Quote) -> Result<Deed, NoMemory>
    ensures { OrNoMemory result (λ deed. (pid : ℕ) (p : known.Parts) → deed_is pid deed p
        ≡ wrote pid d.now n (quote_is quote.now) p) }
{
    let Quote::Bytes(text) = quote else {
        return Ok(Deed::Refused(LineFault::Argument(2)));
    };
    if n != text.len() as u64 {
        return Ok(Deed::Refused(LineFault::Outcome));
    }
    match written_call(alloc, d, text)? {
        Some(call) => Ok(Deed::Does(call, Res::Done)),
        None => Ok(Deed::Refused(LineFault::Argument(2))),
    }
}

// A write that fails.
fn failed(alloc: Global, d: &Descriptor, e: Errno, quote: &Quote) -> Result<Deed, NoMemory>
    ensures { OrNoMemory result (λ deed. (pid : ℕ) (p : known.Parts) → deed_is pid deed p
        ≡ failed_write pid d.now (res.Err e) (quote_is quote.now) p) }
{
    let Quote::Bytes(text) = quote else {
        return Ok(Deed::Quiet);
    };
    match written_call(alloc, d, text)? {
        Some(call) => Ok(Deed::Does(call, Res::Err(e))),
        None => Ok(Deed::Quiet),
    }
}

// The call that a text written to a descriptor is.
fn written_call(alloc: Global, d: &Descriptor, text: &[u8]) -> Result<Option<Call>, NoMemory>
    ensures { OrNoMemory result (λ call. option_map call_of call ≡ written_call d.now.file d.now.space text.now) }
{
    match d.file {
        Followed::UidMap => match read_extents(alloc, text)? {
            Some(extents) => Ok(Some(Call::WriteUidMap(d.space, extents))),
            None => Ok(None),
        },
        Followed::GidMap => match read_extents(alloc, text)? {
            Some(extents) => Ok(Some(Call::WriteGidMap(d.space, extents))),
            None => Ok(None),
        },
        Followed::SetgroupsWord => match read_written_word(text) {
            Some(deny) => Ok(Some(Call::WriteSetgroups {
                space: d.space,
                deny,
            })),
            None => Ok(None),
        },
        Followed::UserSpace => Ok(None),
    }
}
