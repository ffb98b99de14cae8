// The result of a call as it is written, which is the rest of its line.
ghost use Rattle.std.specs.Prelude.{◌≡◌, IfSome};
ghost use Rattle.model_text.specs.Token.{res_text};
ghost use Rattle.model_text.specs.Written.{IsBirth, IsOldId, IsOutcome, MayAnswer};

use super::numbers::{take_decimal, take_pid};
use crate::results::{read_error, read_excluded};
use cm_base::Res;
use cm_filter::CallKind;

/// The result of a call of that kind. None says nothing of the text.
#[inline]
pub(crate) fn own_result(kind: CallKind, text: &[u8]) -> Option<Res>
    ensures written { IfSome result (λ res. res_text res ≡ text.now) }
    ensures may { IfSome result (λ res. MayAnswer kind res) }
{
    match kind {
        CallKind::SetFsUid | CallKind::SetFsGid => own_old_id(text),
        CallKind::Fork | CallKind::CloneUser => own_birth(text),
        CallKind::Exit => own_done(text),
        _ => own_outcome(text),
    }
}

// The id from before, or EPERM.
#[inline]
fn own_old_id(text: &[u8]) -> Option<Res>
    ensures written { IfSome result (λ res. res_text res ≡ text.now) }
    ensures may { IfSome result (λ res. IsOldId res) }
{
    match take_decimal(text) {
        Some((id, [])) => Some(Res::Id(id)),
        _ => read_excluded(text),
    }
}

// The child's pid, or an error.
#[inline]
fn own_birth(text: &[u8]) -> Option<Res>
    ensures written { IfSome result (λ res. res_text res ≡ text.now) }
    ensures may { IfSome result (λ res. IsBirth res) }
{
    match take_pid(text) {
        Some((pid, [])) => Some(Res::Child(pid)),
        _ => read_error(text),
    }
}

// Done.
#[inline]
fn own_done(text: &[u8]) -> Option<Res>
    ensures { IfSome result (λ res. (res ≡ Res.Done) × (res_text res ≡ text.now)) }
{
    match text {
        [b'0'] => Some(Res::Done),
        _ => None,
    }
}

// Done, or an error.
#[inline]
fn own_outcome(text: &[u8]) -> Option<Res>
    ensures written { IfSome result (λ res. res_text res ≡ text.now) }
    ensures may { IfSome result (λ res. IsOutcome res) }
{
    match own_done(text) {
        Some(res) => Some(res),
        None => read_error(text),
    }
}
