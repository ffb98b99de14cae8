// What a certificate comes to: why it isn't read, or what its bounds are found to be.
ghost use Rattle.std.specs.Prelude.{◌≡◌, ◌<◌, ◌^◌, Ok, List, length, IfOk, IsSomeAnd};
ghost use Rattle.cm_base.specs.Outcome.{OrNoMemory};
ghost use Rattle.cm_box.specs.Rules.{rule_of};
ghost use Rattle.cm_cert.specs.Answers.{fault_of};
ghost use Rattle.cm_cli.specs.Checking.{checked_of, not_closed_report};
ghost use Rattle.cm_cli.specs.Claims.{IsLogAnswer};
ghost use Rattle.cm_cli.specs.LogReport.{IsPut};
ghost use Rattle.cm_declared.specs.World.{world_of};
ghost use Rattle.cm_state.specs.Right.{right_of};
ghost use Rattle.model_box.specs.Bounds.{BoxRow};
ghost use Rattle.model_box.specs.Meets.{IsOverStanding};
ghost use Rattle.model_box.specs.Row.{row_at};
ghost use Rattle.model_cert.specs.Document.{certificate};
ghost use Rattle.model_report.specs.Answer.{certificate_report, checked_report, fault_words, refused};
ghost use Rattle.model_report.specs.Checked as model;
ghost use Rattle.model_report.specs.Checked.{IsChecked};
ghost use Rattle.model_run.specs.Never.{MountsStand};

use crate::answers::{put_refused, put_refused_row, put_row};
use cm_audit::Question;
use cm_base::{NoMemory, Status};
use cm_box::Rule;
use cm_cert::{BadCert, read_bounds};
use cm_declared::{Names, World};
use cm_machine::Machine;
use cm_sound::{Checked, check};
use cm_state::Spaces;
use cm_tokens::put;
use std::alloc::Global;

/// Checks a certificate of these bytes for a question, and says the status.
pub(crate) fn put_check(
    alloc: Global,
    w: &World,
    m: &Machine,
    question: &Question,
    bytes: &[u8],
    text: &mut Vec<u8>,
) -> Result<Status, NoMemory>
    requires few { length m.now.state.spaces < 2 ^ 31 }
    requires named { IsOverStanding m.now.state.spaces (right_of question.now.right) }
    requires mounts { MountsStand (world_of w.now) m.now.state }
    ensures report { (checked : model.Checked) →
        ((rows : List BoxRow) → certificate (length m.now.state.spaces) bytes.now ≡ Ok rows →
        IsChecked (world_of w.now) m.now.state question.now.members.items (right_of question.now.right) rows checked) →
        OrNoMemory result (λ status. IsPut (certificate_report (world_of w.now) m.now.state.spaces checked
        (certificate (length m.now.state.spaces) bytes.now)) text.old.items text.new.items status) }
    ensures answers { IfOk result IsLogAnswer }
{
    let spaces = &m.state.spaces;
    match read_bounds(alloc, bytes, spaces.count()) {
        Ok(bounds) => {
            let checked = check(w, m, &question.members, &question.right, &bounds);
            put_checked(text, w, spaces, checked)
        }
        Err(why) => put_bad(text, &w.names, spaces, why),
    }
}

// What bounds are found to be.
fn put_checked(
    text: &mut Vec<u8>,
    w: &World,
    spaces: &Spaces,
    checked: Checked,
) -> Result<Status, NoMemory>
    ensures report { OrNoMemory result (λ status. IsPut
        (checked_report (world_of w.now) spaces.now (checked_of checked))
        text.old.items text.new.items status) }
    ensures answers { IfOk result IsLogAnswer }
{
    let names = &w.names;
    match checked {
        Checked::Holds => {
            put(text, b"holds\n")?;
            Ok(Status::Accepted)
        }
        Checked::NotStart(row) => put_refused_row(text, b"not-start ", names, spaces, row),
        Checked::NotClosed { rule, row } => put_not_closed(text, names, spaces, rule, row),
        Checked::Meets(row) => put_refused_row(text, b"meets ", names, spaces, row),
    }
}

// The bounds aren't closed by the rule at the row.
fn put_not_closed(
    text: &mut Vec<u8>,
    names: &Names,
    spaces: &Spaces,
    rule: Rule,
    row: u32,
) -> Result<Status, NoMemory>
    ensures report { OrNoMemory result (λ status. IsPut
        (not_closed_report names.now spaces.now (rule_of rule) (row_at row))
        text.old.items text.new.items status) }
    ensures answers { IfOk result IsLogAnswer }
{
    put(text, b"refused not-closed ")?;
    put(text, rule.name().as_bytes())?;
    put(text, b" ")?;
    put_row(text, names, spaces, row)?;
    put(text, b"\n")?;
    Ok(Status::Refused)
}

// Why the bytes are no certificate.
fn put_bad(
    text: &mut Vec<u8>,
    names: &Names,
    spaces: &Spaces,
    why: BadCert,
) -> Result<Status, NoMemory>
    ensures report { OrNoMemory result (λ status. IsSomeAnd (fault_of why) (λ fault.
        IsPut (refused (fault_words names.now spaces.now fault)) text.old.items text.new.items status)) }
    ensures answers { IfOk result IsLogAnswer }
{
    match why {
        BadCert::Json => put_refused(text, b"json"),
        BadCert::Shape(None) => put_refused(text, b"shape document"),
        BadCert::Shape(Some(row)) => put_refused_row(text, b"shape ", names, spaces, row),
        BadCert::Order(row) => put_refused_row(text, b"order ", names, spaces, row),
        BadCert::NoMemory => Err(NoMemory),
    }
}
