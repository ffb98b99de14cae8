// What a run that is put forward comes to.
ghost use Rattle.std.specs.Prelude.{◌≡◌, ◌<◌, ◌^◌, length, IfOk};
ghost use Rattle.cm_base.specs.Outcome.{OrNoMemory};
ghost use Rattle.cm_cli.specs.Claims.{IsLogAnswer};
ghost use Rattle.cm_cli.specs.LogReport.{IsPut};
ghost use Rattle.cm_confirm.specs.Confirmed.{confirmed_of};
ghost use Rattle.cm_declared.specs.World.{world_of};
ghost use Rattle.cm_state.specs.Right.{right_of};
ghost use Rattle.model_confirm.specs.Confirm.{confirm_of};
ghost use Rattle.model_plans.specs.Firsts.{PidsAscend};
ghost use Rattle.model_report.specs.Answer.{confirmed_report};
ghost use Rattle.model_report.specs.Replay.{IsWithin};
ghost use Rattle.model_text.specs.Reading.{script_reading};

use crate::answers::{put_numbered, put_refused};
use cm_audit::Question;
use cm_base::{NoMemory, Status};
use cm_confirm::{Confirmed, confirm};
use cm_declared::World;
use cm_machine::Machine;
use cm_report::put_limit;
use std::alloc::Global;

/// Confirms a run of these bytes for a question, and says the status.
pub(crate) fn put_confirm(
    alloc: Global,
    w: &World,
    machine: Machine,
    question: Question,
    bytes: &[u8],
    text: &mut Vec<u8>,
) -> Result<Status, NoMemory>
    requires within { IsWithin machine.state }
    requires ascends { PidsAscend question.members.items }
    requires size { length bytes.now < 2 ^ 31 }
    ensures report { OrNoMemory result (λ status. IsPut
        (confirmed_report (confirm_of (world_of w.now) machine.state question.members.items
        (right_of question.right) (script_reading (world_of w.now) bytes.now))) text.old.items text.new.items status) }
    ensures answers { IfOk result IsLogAnswer }
{
    let Question { right, members } = question;
    let confirmed = confirm(alloc, w, machine, members, &right, bytes)?;
    put_confirmed(text, confirmed)
}

// What a run comes to, and the status.
fn put_confirmed(text: &mut Vec<u8>, confirmed: Confirmed) -> Result<Status, NoMemory>
    ensures report { OrNoMemory result (λ status. IsPut
        (confirmed_report (confirmed_of confirmed)) text.old.items text.new.items status) }
    ensures answers { IfOk result IsLogAnswer }
{
    match confirmed {
        Confirmed::Confirms(pid) => {
            put_numbered(text, b"confirmed ", u64::from(pid.number()))?;
            Ok(Status::Accepted)
        }
        Confirmed::RefusesLine(number) => {
            put_numbered(text, b"refused line ", number)?;
            Ok(Status::Refused)
        }
        Confirmed::RefusesEnd => put_refused(text, b"end"),
        Confirmed::PastLimit(limit) => {
            put_limit(text, limit)?;
            Ok(Status::Limit)
        }
    }
}
