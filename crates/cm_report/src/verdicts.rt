// The lines that end a report.
ghost use Rattle.std.specs.Prelude.{◌≡◌, ◌≢◌, ◌++◌, [], ◌∷◌, codes};
ghost use Rattle.cm_base.specs.Outcome.{OrNoMemory};
ghost use Rattle.cm_report.specs.Reason.{reason_of};
ghost use Rattle.model_report.specs.Replay.{text_of, reason, Plain, ended, impossible_text, bad_log, fault_text, limit_hit};
ghost use Rattle.model_report.specs.Report.{bad_world_text, usage};
ghost use Rattle.model_run.specs.Step.{Wrong};

use cm_base::{Limited, LineFault, NoMemory, Res, Table, WorldFault};
use cm_machine::StepError;
use cm_script::put_res;
use cm_tokens::{put, put_decimal};

const USAGE: &[u8] = b"usage: credaudit replay WORLD LOG
usage: credaudit audit WORLD LOG PID RIGHT
usage: credaudit check WORLD LOG PID RIGHT CERT
usage: credaudit confirm WORLD LOG PID RIGHT RUN
usage: credaudit drill N
";

/// `end` and how many events the log told.
pub fn put_end(text: &mut Vec<u8>, count: u64) -> Result<(), NoMemory>
    ensures { OrNoMemory result (λ _. text.new.items ≡ text.old.items ++ text_of (ended count).lines) }
{
    put(text, b"end ")?;
    put_decimal(text, count)?;
    put(text, b"\n")
}

/// The event of that line is impossible, for this reason; out of memory is none, and is handed on.
pub fn put_impossible(text: &mut Vec<u8>, number: u64, why: &StepError) -> Result<(), NoMemory>
    ensures line { OrNoMemory result (λ _. text.new.items ≡ text.old.items
        ++ text_of (Plain (impossible_text number (reason_of why.now)) ∷ [])) }
    ensures refusal { OrNoMemory result (λ _. why.now ≢ StepError.NoMemory) }
{
    put(text, b"impossible line ")?;
    put_decimal(text, number)?;
    put(text, b": ")?;
    put_reason(text, why)?;
    put(text, b"\n")
}

fn put_reason(text: &mut Vec<u8>, why: &StepError) -> Result<(), NoMemory>
    ensures reason { OrNoMemory result (λ _. text.new.items ≡ text.old.items ++ reason_of why.now) }
    ensures refusal { OrNoMemory result (λ _. why.now ≢ StepError.NoMemory) }
{
    match why {
        StepError::NoProcess => put(text, b"no process"),
        StepError::NoSpace => put(text, b"no space"),
        StepError::PidInUse => put(text, b"pid in use"),
        StepError::Wrong { rules_give } => put_given(text, rules_give),
        StepError::NoMemory => Err(NoMemory),
    }
}

fn put_given(text: &mut Vec<u8>, given: &Res) -> Result<(), NoMemory>
    ensures { OrNoMemory result (λ _. text.new.items ≡ text.old.items ++ reason (Wrong given.now)) }
{
    put(text, b"the rules give ")?;
    put_res(text, given)
}

/// That line of the log has this fault.
pub fn put_bad_log(text: &mut Vec<u8>, number: u64, why: LineFault) -> Result<(), NoMemory>
    ensures { OrNoMemory result (λ _. text.new.items ≡ text.old.items ++ text_of (bad_log number why).lines) }
{
    put(text, b"bad log line ")?;
    put_decimal(text, number)?;
    put(text, b": ")?;
    put_line_fault(text, why)?;
    put(text, b"\n")
}

// The fault of a line; an argument has its number.
fn put_line_fault(text: &mut Vec<u8>, why: LineFault) -> Result<(), NoMemory>
    ensures { OrNoMemory result (λ _. text.new.items ≡ text.old.items ++ fault_text why) }
{
    put(text, why.word().as_bytes())?;
    match why {
        LineFault::Argument(n) => {
            put(text, b" ")?;
            put_decimal(text, n as u64)
        }
        _ => Ok(()),
    }
}

/// That row of a table of the world has this fault; the whole text and the filter have the row 0.
pub fn put_bad_world(
    text: &mut Vec<u8>,
    table: Table,
    row: u32,
    why: WorldFault,
) -> Result<(), NoMemory>
    ensures { OrNoMemory result (λ _. text.new.items ≡ text.old.items ++ text_of (Plain (bad_world_text table row why) ∷ [])) }
{
    put(text, b"bad world ")?;
    put(text, table.name().as_bytes())?;
    put(text, b" ")?;
    put_decimal(text, row as u64)?;
    put(text, b": ")?;
    put(text, why.word().as_bytes())?;
    put(text, b"\n")
}

/// The limit was exceeded.
pub fn put_limit(text: &mut Vec<u8>, limit: Limited) -> Result<(), NoMemory>
    ensures { OrNoMemory result (λ _. text.new.items ≡ text.old.items ++ text_of (limit_hit limit).lines) }
{
    put(text, b"limit ")?;
    put(text, limit.name().as_bytes())?;
    put(text, b" ")?;
    put_decimal(text, limit.number())?;
    put(text, b"\n")
}

/// The five forms of the command line.
pub fn put_usage(text: &mut Vec<u8>) -> Result<(), NoMemory>
    ensures { OrNoMemory result (λ _. text.new.items ≡ text.old.items ++ text_of usage.lines) }
{
    put(text, USAGE)
}
