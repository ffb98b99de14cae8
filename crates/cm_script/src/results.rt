// The result of a call in a script line, which its last token tells.
ghost use Rattle.std.specs.Prelude.{◌≡◌, IfSome, option_map};
ghost use Rattle.cm_base.specs.Names.{errno_of};
ghost use Rattle.model_text.specs.Line.{result_of_kind};
ghost use Rattle.model_text.specs.Token.{birth_token, done_token, excluded_token, old_id_token, res_text, result_token};
ghost use Rattle.model_text.specs.Written.{IsBirth, IsOldId, IsOutcome};

use cm_base::{Errno, Res, read_u32};
use cm_filter::CallKind;
use cm_tokens::read_pid;

/// The result of a call of that kind: setfsuid and setfsgid tell the id from before, and have no error but EPERM, where
/// a filter excludes them; births tell their child's pid; exit has no error. None where the token is none of these.
pub(crate) fn read_result(kind: CallKind, token: &[u8]) -> Option<Res>
    ensures { result ≡ result_of_kind kind token.now }
{
    match kind {
        CallKind::SetFsUid | CallKind::SetFsGid => read_old_id(token),
        CallKind::Fork | CallKind::CloneUser => read_birth(token),
        CallKind::Exit => read_done(token),
        _ => read_outcome(token),
    }
}

fn read_old_id(token: &[u8]) -> Option<Res>
    ensures { result ≡ old_id_token token.now }
{
    match read_u32(token) {
        Ok(id) => Some(Res::Id(id)),
        Err(_) => read_excluded(token),
    }
}

/// The refusal of a call that the caller's filter excludes. What is read is written so again.
pub(crate) fn read_excluded(token: &[u8]) -> Option<Res>
    ensures read { result ≡ excluded_token token.now }
    ensures written { IfSome result (λ res. res_text res ≡ token.now) }
    ensures may { IfSome result (λ res. IsOldId res) }
{
    if token == Errno::EPERM.name().as_bytes() {
        Some(Res::Err(Errno::EPERM))
    } else {
        None
    }
}

fn read_outcome(token: &[u8]) -> Option<Res>
    ensures { result ≡ result_token token.now }
{
    if token == b"0".as_slice() {
        return Some(Res::Done);
    }
    read_error(token)
}

fn read_birth(token: &[u8]) -> Option<Res>
    ensures { result ≡ birth_token token.now }
{
    match read_pid(token) {
        Some(pid) => Some(Res::Child(pid)),
        None => read_error(token),
    }
}

fn read_done(token: &[u8]) -> Option<Res>
    ensures { result ≡ done_token token.now }
{
    if token == b"0".as_slice() {
        Some(Res::Done)
    } else {
        None
    }
}

/// An error by its name. What is read is written so again, and is a result of calls and of births.
#[tactic(auto, using(crate::proofs::OwnWords::error_is_named))]
pub(crate) fn read_error(token: &[u8]) -> Option<Res>
    ensures named { result ≡ option_map Res.Err (errno_of token.now) }
    ensures written { IfSome result (λ res. res_text res ≡ token.now) }
    ensures outcome { IfSome result (λ res. IsOutcome res) }
    ensures birth { IfSome result (λ res. IsBirth res) }
{
    let error = Errno::from_name(token)?;
    Some(Res::Err(error))
}
