// The calls that set ids: setuid(2), setreuid(2), setresuid(2), setfsuid(2), and the same of groups.
ghost use Rattle.std.specs.Prelude.{◌≡◌, IsTrue};
ghost use Rattle.cm_filter.specs.Shapes.{shape_of};
ghost use Rattle.cm_state.specs.Call.{call_of};
ghost use Rattle.cm_strace_calls.specs.Made.{has_ids};
ghost use Rattle.cm_strace_calls.specs.Readers.{next_is, next_read};
ghost use Rattle.cm_strace_calls.specs.Told.{and_make, told_is};
ghost use Rattle.cm_strace_text.specs.Depths.{arguments_in};
ghost use Rattle.cm_strace_values.specs.Outcomes.{outcome_is};
ghost use Rattle.model_cred.specs.World.{World};
ghost use Rattle.model_strace.specs.Calls.{ids_result, ids_read, ids_told};
ghost use Rattle.model_text.specs.Token.{id_token};

use crate::told::Told;
use cm_base::{LineFault, Res};
use cm_filter::{CallKind, Shape};
use cm_state::Call;
use cm_strace_text::next_argument;
use cm_strace_values::Outcome;
use cm_tokens::read_id;

/// A line of such a call.
pub(crate) fn read<'a>(kind: CallKind, arguments: Option<&[u8]>, outcome: Outcome) -> Told<'a>
    requires { IsTrue (has_ids (shape_of kind)) }
    ensures { (w : World) → told_is result
        ≡ ids_told w kind (arguments_in arguments.entry) (outcome_is outcome) }
{
    let Some(res) = result(kind, outcome) else {
        return Told::Faulty(LineFault::Outcome);
    };
    match read_call(kind, arguments) {
        Ok(call) => Told::Does(call, res),
        Err(why) => Told::Faulty(why),
    }
}

// setfsuid(2) and setfsgid(2) answer the id from before, and don't fail.
fn result(kind: CallKind, outcome: Outcome) -> Option<Res>
    ensures { result ≡ ids_result kind (outcome_is outcome) }
{
    match kind {
        CallKind::SetFsUid | CallKind::SetFsGid => outcome.old_id(),
        _ => outcome.plain(),
    }
}

// The call of its arguments.
fn read_call(kind: CallKind, arguments: Option<&[u8]>) -> Result<Call, LineFault>
    requires { IsTrue (has_ids (shape_of kind)) }
    ensures { (w : World) → and_make call_of result ≡ ids_read w kind (arguments_in arguments.entry) }
{
    let (first, left) = id(1, arguments)?;
    match kind.shape() {
        Shape::OneId => Ok(Call::with_id(kind, first)),
        Shape::TwoIds => {
            let (second, _) = id(2, left)?;
            Ok(Call::with_two_ids(kind, first, second))
        }
        _ => {
            let (second, left) = id(2, left)?;
            let (third, _) = id(3, left)?;
            Ok(Call::with_three_ids(kind, first, second, third))
        }
    }
}

// The id that the next argument is, which has that number, and what is left after it; or its fault.
fn id(number: u32, left: Option<&[u8]>) -> Result<(u32, Option<&[u8]>), LineFault>
    ensures { and_make next_is result ≡ next_read id_token number (arguments_in left.entry) }
{
    let Some((text, rest)) = next_argument(left) else {
        return Err(LineFault::Argument(number));
    };
    match read_id(text) {
        Some(id) => Ok((id, rest)),
        None => Err(LineFault::Argument(number)),
    }
}
