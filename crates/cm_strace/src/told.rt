// What births, setns(2) and copies of descriptors do to what is known, as calls that are told (model_strace/specs,
// Turn). What gives an event is left to be done.
ghost use Rattle.std.specs.Prelude.{◌≡◌, ℕ, Some};
ghost use Rattle.cm_base.specs.Outcome.{OrNoMemory};
ghost use Rattle.cm_base.specs.declared.res.Res.TheVariants.{Child};
ghost use Rattle.cm_state.specs.Call.{call_of};
ghost use Rattle.cm_strace.specs.Deeds.{deed_is, Waits};
ghost use Rattle.cm_strace_parts.specs.Savepoints.{LeftOnErr};
ghost use Rattle.cm_strace_values.specs.Outcomes.{outcome_is};
ghost use Rattle.model_strace.specs.Parts as known;
ghost use Rattle.model_strace.specs.Parts.{descriptor_of};
ghost use Rattle.model_strace.specs.Turn.{birth_call, bears, followed, for_space, joins_unknown, joins};
ghost use Rattle.model_strace.specs.Turn.{copies, copies_to};

use crate::deed::{Birth, Deed};
use cm_base::{LineFault, NoMemory, Pid, Res};
use cm_state::Call;
use cm_strace_parts::{Descriptor, Parts};
use cm_strace_values::{Outcome, has_flag};
use std::alloc::Global;

// ---- births

/// The call of a birth.
pub(crate) fn birth_call(user: bool) -> Call
    ensures { call_of result ≡ birth_call user }
{
    if user { Call::CloneUser } else { Call::Fork }
}

/// A birth with its result: followed descriptors can't be shared.
pub(crate) fn bears(parts: &Parts, pid: Pid, user: bool, shares: bool, answer: Res) -> Deed
    ensures { deed_is pid result parts.now.known ≡ bears pid user shares answer parts.now.known }
{
    match answer {
        Res::Child(child) => bears_child(parts, pid, user, shares, child),
        Res::Done | Res::Id(_) | Res::Err(_) => Deed::Does(birth_call(user), answer),
    }
}

// The birth of a child.
fn bears_child(parts: &Parts, pid: Pid, user: bool, shares: bool, child: Pid) -> Deed
    ensures { deed_is pid result parts.now.known ≡ bears pid user shares (Child child) parts.now.known }
{
    if shares && parts.has_descriptor(pid) {
        return Deed::Refused(LineFault::Descriptor);
    }
    Deed::Bears(Birth {
        user,
        shares,
        child,
    })
}

// ---- setns(2)

// The descriptor of that number, where there is a number and it is followed.
fn followed(parts: &Parts, pid: Pid, number: Option<u32>) -> Option<Descriptor>
    ensures { result ≡ followed pid number parts.now.known }
{
    match number {
        Some(number) => parts.descriptor_of(pid, u64::from(number)),
        None => None,
    }
}

// The same, where it is for a user namespace.
fn for_space(parts: &Parts, pid: Pid, number: Option<u32>) -> Option<Descriptor>
    ensures { result ≡ for_space (followed pid number parts.now.known) }
{
    match followed(parts, pid, number) {
        Some(d) => if d.file.is_space() { Some(d) } else { None },
        None => None,
    }
}

/// A setns on a descriptor.
pub(crate) fn joins(
    parts: &Parts,
    pid: Pid,
    number: Option<u32>,
    flags: &[u8],
    outcome: Outcome,
) -> Deed
    ensures { deed_is pid result parts.now.known ≡ joins pid (for_space (followed pid number parts.now.known)) flags.now
        (outcome_is outcome) parts.now.known }
{
    match for_space(parts, pid, number) {
        Some(d) => joins_known(&d, flags, outcome),
        None => joins_unknown(flags, outcome.success()),
    }
}

// One that isn't followed could be for any user namespace.
fn joins_unknown(flags: &[u8], success: Option<u64>) -> Deed
    ensures { (pid : ℕ) (p : known.Parts) → deed_is pid result p ≡ joins_unknown flags.now success p }
{
    match success {
        Some(_) => if flags == b"0".as_slice() || has_flag(b"CLONE_NEWUSER", flags) {
            Deed::Refused(LineFault::Descriptor)
        } else {
            Deed::Quiet
        },
        None => Deed::Quiet,
    }
}

// One that is for a user namespace.
fn joins_known(d: &Descriptor, flags: &[u8], outcome: Outcome) -> Deed
    ensures { (pid : ℕ) (p : known.Parts) → deed_is pid result p
        ≡ joins pid (Some d.now) flags.now (outcome_is outcome) p }
{
    if flags == b"0".as_slice() || flags == b"CLONE_NEWUSER".as_slice() {
        match outcome.plain() {
            Some(answer) => Deed::Does(Call::SetNs(d.space), answer),
            None => Deed::Refused(LineFault::Outcome),
        }
    } else {
        Deed::Quiet
    }
}

// ---- dup(2)

/// The copy of a descriptor, which can't be followed.
pub(crate) fn copies(parts: &Parts, pid: Pid, number: u32) -> Deed
    ensures { deed_is pid result parts.now.known ≡ copies (descriptor_of pid number parts.now.known) parts.now.known }
{
    match parts.descriptor_of(pid, u64::from(number)) {
        Some(_) => Deed::Refused(LineFault::Descriptor),
        None => Deed::Quiet,
    }
}

/// A copy that takes the place of another descriptor. It fails only where memory runs out, and then leaves the parts as
/// they were, or to be rolled back.
pub(crate) fn copies_to(
    alloc: Global,
    parts: &mut Parts,
    pid: Pid,
    from: Option<u32>,
    number: u64,
) -> Result<Deed, NoMemory>
    ensures turn { OrNoMemory result (λ deed. deed_is pid deed parts.new.known
        ≡ copies_to pid (followed pid from parts.old.known) number parts.old.known) }
    ensures saved { parts.new.saved ≡ parts.old.saved }
    ensures unchanged { LeftOnErr result parts.new parts.old }
    ensures waits { OrNoMemory result (λ deed. Waits deed parts.new parts.old) }
    ensures spaces { OrNoMemory result (λ _. parts.new.known.spaces ≡ parts.old.known.spaces) }
{
    match followed(parts, pid, from) {
        Some(_) => Ok(Deed::Refused(LineFault::Descriptor)),
        None => {
            parts.forget_descriptor(alloc, pid, number)?;
            Ok(Deed::Quiet)
        }
    }
}
