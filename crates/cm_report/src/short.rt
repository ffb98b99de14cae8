// Telling a report of one piece, which no log has a part in: what is written goes to the sink, and the answer says how it
// went.
ghost use Rattle.std.specs.Prelude.{◌≡◌, ◌++◌};
ghost use Rattle.cm_base.specs.Outcome.{OrNoMemory};
ghost use Rattle.cm_report.specs.Telling.{TellsReport, short_report, stopped_by};
ghost use Rattle.model_report.specs.Replay.{text_of};

use crate::sending::send;
use crate::verdicts::{put_bad_world, put_limit, put_usage};
use cm_base::{Limited, NoMemory, Status, Table, WorldFault};
use cm_io::{Outside, Sink};
use std::alloc::Global;

/// A report of one piece, which no log has a part in.
#[derive(Clone, Copy, Debug)]
pub enum Short {
    Usage,
    BadWorld(Table, u32, WorldFault),
    Limit(Limited),
}

/// Tells a report of one piece.
pub fn tell_short<K: Sink>(alloc: Global, short: Short, out: &mut K) -> Status
    ensures { TellsReport (short_report short) result (K.written out.old) (K.written out.new) (K.faults out.old) (K.faults out.new) }
{
    let mut text = Vec::new(alloc);
    match put_short(&mut text, short) {
        Ok(()) => {}
        Err(NoMemory) => return Status::NoMemory,
    }
    match send(&mut text, out) {
        Ok(()) => status_of(short),
        Err(why) => stopped(why),
    }
}

fn put_short(text: &mut Vec<u8>, short: Short) -> Result<(), NoMemory>
    ensures { OrNoMemory result (λ _. text.new.items ≡ text.old.items ++ text_of (short_report short).lines) }
{
    match short {
        Short::Usage => put_usage(text),
        Short::BadWorld(table, row, why) => put_bad_world(text, table, row, why),
        Short::Limit(limit) => put_limit(text, limit),
    }
}

fn status_of(short: Short) -> Status
    ensures { result ≡ (short_report short).status }
{
    match short {
        Short::Usage => Status::Usage,
        Short::BadWorld(_, _, _) => Status::BadWorld,
        Short::Limit(_) => Status::Limit,
    }
}

/// The answer where a report could not be told to its end.
pub fn stopped(why: Outside) -> Status
    ensures { result ≡ stopped_by why }
{
    match why {
        Outside::Failed => Status::WriteFault,
        Outside::NoMemory => Status::NoMemory,
    }
}
