// The lines that answer what is asked after a log, written at the end of a byte buffer, each with its LF.
ghost use Rattle.std.specs.Prelude.{◌≡◌, ◌++◌, [], ◌∷◌, codes, map, Some, None, IfOk};
ghost use Rattle.cm_base.specs.Outcome.{OrNoMemory};
ghost use Rattle.cm_cli.specs.Claims.{IsLogAnswer};
ghost use Rattle.cm_cli.specs.LogReport.{IsPut};
ghost use Rattle.cm_maker.specs.Sweeping.{blame_told};
ghost use Rattle.cm_declared.specs.World.{world_of};
ghost use Rattle.model_box.specs.Row.{row_at};
ghost use Rattle.model_report.specs.Answer.{bad_query, blamed_rule, certificate_line, refused, row_text, run_lines};
ghost use Rattle.model_report.specs.Answer.{undecided_text};
ghost use Rattle.model_report.specs.Replay.{text_of, at_line, Plain};
ghost use Rattle.model_text.specs.Print.{event_text};

use cm_base::{NoMemory, Pid, SpaceId, Status};
use cm_box::{Bounds, Rule};
use cm_cert::write_bounds;
use cm_declared::{Names, World, put_space};
use cm_script::put_line;
use cm_state::{Event, Spaces};
use cm_tokens::{put, put_decimal};
use std::alloc::Global;

/// No member ever holds the right, as these bounds show.
pub(crate) fn put_yes(alloc: Global, text: &mut Vec<u8>, bounds: &Bounds) -> Result<(), NoMemory>
    ensures { OrNoMemory result (λ _. text.new.items ≡ text.old.items
        ++ text_of (Plain (codes "yes") ∷ certificate_line bounds.now ∷ [])) }
{
    put(text, b"yes\n")?;
    put_certificate(alloc, text, bounds)
}

/// The certificate of bounds, on a line of its own.
pub(crate) fn put_certificate(
    alloc: Global,
    text: &mut Vec<u8>,
    bounds: &Bounds,
) -> Result<(), NoMemory>
    ensures { OrNoMemory result (λ _. text.new.items ≡ text.old.items ++ text_of (certificate_line bounds.now ∷ [])) }
{
    let written = write_bounds(alloc, bounds)?;
    put(text, &written)?;
    put(text, b"\n")
}

/// One can, by these calls: how many, each as a script line, and who holds the right at their end.
pub(crate) fn put_run(
    text: &mut Vec<u8>,
    w: &World,
    holder: Pid,
    run: &[Event],
) -> Result<(), NoMemory>
    ensures { OrNoMemory result (λ _. text.new.items ≡ text.old.items
        ++ text_of (run_lines (world_of w.now) (record { run = run.now; holder = holder }))) }
{
    put_numbered(text, b"no ", run.len() as u64)?;
    put_calls(text, w, run)?;
    put_numbered(text, b"holder ", u64::from(holder.number()))
}

fn put_calls(text: &mut Vec<u8>, w: &World, run: &[Event]) -> Result<(), NoMemory>
    ensures { OrNoMemory result (λ _. text.new.items ≡ text.old.items ++ text_of
        (map (λ e. Plain (event_text (world_of w.now) e)) run.now)) }
{
    for event in run {
        put_call_line(text, w, event)?;
    }
    Ok(())
}

fn put_call_line(text: &mut Vec<u8>, w: &World, event: &Event) -> Result<(), NoMemory>
    ensures { OrNoMemory result (λ _. text.new.items ≡ text.old.items ++ text_of
        (Plain (event_text (world_of w.now) event.now) ∷ [])) }
{
    put_line(text, event, w)?;
    put(text, b"\n")
}

/// Words with a number after them, on a line of their own.
pub(crate) fn put_numbered(text: &mut Vec<u8>, words: &[u8], number: u64) -> Result<(), NoMemory>
    ensures { OrNoMemory result (λ _. text.new.items ≡ text.old.items ++ text_of
        (Plain (at_line words.now number) ∷ [])) }
{
    put(text, words)?;
    put_decimal(text, number)?;
    put(text, b"\n")
}

/// Neither is so: the rule and the row by which the right comes into the bounds, or `start` and the row by which the
/// start bounds meet it.
pub(crate) fn put_undecided(
    text: &mut Vec<u8>,
    names: &Names,
    spaces: &Spaces,
    rule: Option<Rule>,
    row: u32,
) -> Result<(), NoMemory>
    ensures { OrNoMemory result (λ _. text.new.items ≡ text.old.items
        ++ text_of (Plain (undecided_text names.now spaces.now (blame_told rule row)) ∷ [])) }
{
    put(text, b"undecided ")?;
    put_rule(text, rule, row)?;
    put(text, b" ")?;
    put_row(text, names, spaces, row)?;
    put(text, b"\n")
}

// The name of the rule that is blamed at the row; `start` without one.
fn put_rule(text: &mut Vec<u8>, rule: Option<Rule>, row: u32) -> Result<(), NoMemory>
    ensures { OrNoMemory result (λ _. text.new.items ≡ text.old.items ++ blamed_rule (blame_told rule row)) }
{
    match rule {
        Some(x) => put(text, x.name().as_bytes()),
        None => put(text, b"start"),
    }
}

/// What tells the row of that number.
#[tactic(auto, using(crate::proofs::RowText::text_past, crate::proofs::RowText::text_standing, crate::proofs::RowText::text_fresh))]
pub(crate) fn put_row(
    text: &mut Vec<u8>,
    names: &Names,
    spaces: &Spaces,
    row: u32,
) -> Result<(), NoMemory>
    ensures { OrNoMemory result (λ _. text.new.items ≡ text.old.items ++ row_text names.now spaces.now
        (Some (row_at row))) }
{
    let n = row / 2;
    if n >= spaces.count() {
        return put(text, b"document");
    }
    if row % 2 == 0 {
        return put_space(text, SpaceId(n), names);
    }
    put(text, b"fresh(")?;
    put_space(text, SpaceId(n), names)?;
    put(text, b")")
}

/// The query names no live process, no right, or a space that doesn't stand: which of them. It says the status.
pub(crate) fn put_bad_query(text: &mut Vec<u8>, word: &[u8]) -> Result<Status, NoMemory>
    ensures report { OrNoMemory result (λ status. IsPut (bad_query word.now) text.old.items text.new.items status) }
    ensures answers { IfOk result IsLogAnswer }
{
    put(text, b"bad query: ")?;
    put(text, word)?;
    put(text, b"\n")?;
    Ok(Status::BadQuery)
}

/// A certificate or a run is refused, for this reason. It says the status.
pub(crate) fn put_refused(text: &mut Vec<u8>, why: &[u8]) -> Result<Status, NoMemory>
    ensures report { OrNoMemory result (λ status. IsPut (refused why.now) text.old.items text.new.items status) }
    ensures answers { IfOk result IsLogAnswer }
{
    put(text, b"refused ")?;
    put(text, why)?;
    put(text, b"\n")?;
    Ok(Status::Refused)
}

/// A certificate is refused by this word at the row. It says the status.
pub(crate) fn put_refused_row(
    text: &mut Vec<u8>,
    word: &[u8],
    names: &Names,
    spaces: &Spaces,
    row: u32,
) -> Result<Status, NoMemory>
    ensures report { OrNoMemory result (λ status. IsPut
        (refused (word.now ++ row_text names.now spaces.now (Some (row_at row))))
        text.old.items text.new.items status) }
    ensures answers { IfOk result IsLogAnswer }
{
    put(text, b"refused ")?;
    put(text, word)?;
    put_row(text, names, spaces, row)?;
    put(text, b"\n")?;
    Ok(Status::Refused)
}
