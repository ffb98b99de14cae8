// The top call.
ghost use Rattle.std.specs.Prelude.{◌≡◌, ◌≢◌, IfSome};
ghost use Rattle.cm_cli.specs.Answers.{AnswersReport, CountsReads, NoneRose};
ghost use Rattle.cm_cli.specs.Answers.{IsValid, ComesByCause, IsCompleted, IsDecided, AsksOfSettled};
ghost use Rattle.cm_cli.specs.BeforeFault.{WritesBeforeFault, WritesLines};
ghost use Rattle.cm_cli.specs.Carried.{CarriesOut};
ghost use Rattle.cm_cli.specs.Headline.{Headline, SaysYes, SaysNo, SaysUndecided};
ghost use Rattle.cm_cli.specs.Reading.{TakesFor, ReadsFor, ReadsInOrder};
ghost use Rattle.cm_io.specs.Account.{account};
ghost use Rattle.cm_io.specs.Shelf.{bytes_at, AsksForPieces};
ghost use Rattle.cm_cli.specs.Words.{asking, bytes_of, command_in, command_view};
ghost use Rattle.cm_report.specs.Telling.{IsOfReport, CountsWrites};
ghost use Rattle.model_report.specs.Command.{files_of};

use crate::drilling::tell_drill;
use crate::query::Task;
use crate::reading::{Unready, read_world_file};
use crate::telling::tell_log;
use crate::words::{Command, read_words};
use cm_base::Status;
use cm_io::{Shelf, Sink, SureShelf, SureSink};
use cm_report::{Short, tell_short};
use std::alloc::Global;

/// Carries out the command that the words name: reads the files from the shelf, and writes the report to the sink.
///
/// The answer is the report's status. `ReadFault` comes only where a read of a file that the words name failed,
/// `WriteFault` only where a write failed, and `NoMemory` only where neither did: then a front of the report is
/// written. That is none of it where the world couldn't be read, or a file of `check` or `confirm`; and where it was
/// the log of a replay or an audit, it holds the lines at the start. No other file is read, and of each no more than
/// its limit and one byte; the log, which is read as it is told and never kept, only after a world that stands, and a
/// certificate or a run only after an accepted log and for a query that stands.
pub fn run<H: Shelf, K: Sink>(
    alloc: Global,
    words: &Vec<String>,
    shelf: &mut H,
    out: &mut K,
) -> Status
    // Where the shelf tells what it holds, the answer is the report's status, and its text is written, with each
    // verdict that the words and the files give; after a fault a front of it is. Words of no form give the usage, and
    // no other words do.
    ensures report { AnswersReport (H.held shelf.old) (command_in words.now.items) result
        (K.written out.old) (K.written out.new) }

    // A count of faults changes with its own fault alone: that of a file that the words name with the answer
    // `ReadFault`, where nothing that is read before it is refused; the sink's with `WriteFault`. So with `NoMemory`
    // none does.
    ensures read_faults { CountsReads (H.held shelf.old) (command_in words.now.items) result
        (H.faults shelf.old) (H.faults shelf.new) }
    ensures write_faults { CountsWrites result (K.faults out.old) (K.faults out.new) }

    // Before a fault of reading nothing is written where it was the world's, or no replay is shown; the lines at the
    // start, at the least, where it was the log's.
    ensures before_fault { WritesBeforeFault (H.held shelf.old) (H.counted shelf.old) (command_in words.now.items)
        result (H.faults shelf.old) (H.faults shelf.new) (K.written out.old) (K.written out.new) }

    // Before a fault of reading the log of a replay that is shown, all that is told of the whole lines among the bytes
    // that were taken is written too, where both are told.
    ensures lines_told { WritesLines (H.held shelf.old) (H.counted shelf.old) (command_in words.now.items)
        result (H.faults shelf.old) (H.faults shelf.new) (H.taken shelf.old) (H.taken shelf.new)
        (K.written out.old) (K.written out.new) }

    // Of each file that the words name at most its limit and one byte are taken, and it is read at most once for each
    // byte that is taken, and once more; no other name is read. The log isn't read where the world couldn't be or
    // doesn't stand, and a third file not where either couldn't be, or anything in them is refused, or the query.
    ensures takes { TakesFor (files_of (command_in words.now.items)) (H.taken shelf.old) (H.taken shelf.new) }
    ensures reads { ReadsFor (files_of (command_in words.now.items)) (H.reads shelf.old) (H.reads shelf.new)
        (H.taken shelf.old) (H.taken shelf.new) }
    ensures waits { ReadsInOrder (H.held shelf.old) (H.counted shelf.old) (command_in words.now.items)
        (H.faults shelf.old) (H.faults shelf.new) (H.reads shelf.old) (H.reads shelf.new) }

    // No read is asked for more than 65,536 bytes.
    ensures pieces { AsksForPieces (H.widest shelf.old) (H.widest shelf.new) }
    ensures held { H.held shelf.new ≡ H.held shelf.old }

    // Each answer of a report has its cause in the words and the files, and each cause its answer.
    ensures answers { IfSome (H.held shelf.old) (λ files.
        IsOfReport result → ComesByCause (bytes_of words.now.items) files result) }

    // What the answers say. With status 0 of an audit, which writes yes, and of the check of a certificate: after no
    // later list of calls, by members of the family in any order, does a member hold the right; and of the confirmation
    // of a run: it is a later run, after which one does. With status 1: the run that is written is the first of the
    // list of plans that ends with a holder, and is a later run. With status 2: all closed covering bounds meet the
    // right, no plan ends with a holder, and the family isn't settled.
    ensures yes { IfSome (H.held shelf.old) (λ files.
        result ≡ Status.Accepted → SaysYes (bytes_of words.now.items) files) }
    ensures no { IfSome (H.held shelf.old) (λ files. result ≡ Status.No → SaysNo (bytes_of words.now.items) files) }
    ensures undecided { IfSome (H.held shelf.old) (λ files.
        result ≡ Status.Undecided → SaysUndecided (bytes_of words.now.items) files) }

    // The headline: all that is said above of the report and the faults, and what a replay, yes, no and undecided mean.
    ensures headline { Headline (H.held shelf.old) (H.counted shelf.old) (bytes_of words.now.items) result
        (K.written out.old) (K.written out.new)
        (H.faults shelf.old) (H.faults shelf.new) (K.faults out.old) (K.faults out.new) }

    // Where nothing in the input is refused, and no fault was counted, of a file that the words name or of the sink, a
    // replay and a drill are accepted, an audit answers yes, no or undecided, of a settled family yes or no, and a
    // certificate or a run is accepted or refused; or the answer is `NoMemory`, which is free.
    ensures complete { IfSome (H.held shelf.old) (λ files. IsValid (bytes_of words.now.items) (bytes_at files) →
        NoneRose (files_of (command_in words.now.items)) (H.faults shelf.old) (H.faults shelf.new)
        (K.faults out.old) (K.faults out.new) →
        IsCompleted (command_in words.now.items) result) }
    ensures settled { IfSome (H.held shelf.old) (λ files. IsValid (bytes_of words.now.items) (bytes_at files) →
        NoneRose (files_of (command_in words.now.items)) (H.faults shelf.old) (H.faults shelf.new)
        (K.faults out.old) (K.faults out.new) →
        AsksOfSettled (bytes_of words.now.items) files → IsDecided result) }
{
    carry_out(alloc, read_words(words), shelf, out)
}

/// `run` over a shelf and a sink that never fail: no fault is answered. Where nothing in the input is refused, a replay
/// and a drill are accepted, an audit answers yes, no or undecided, of a settled family yes or no, and a certificate or
/// a run is accepted or refused; or the answer is `NoMemory`, which is free.
pub fn run_surely(
    alloc: Global,
    words: &Vec<String>,
    shelf: &mut SureShelf,
    out: &mut SureSink,
) -> Status
    ensures no_read_fault { result ≢ Status.ReadFault }
    ensures no_write_fault { result ≢ Status.WriteFault }
    ensures complete { IfSome (⟦<SureShelf as Shelf>⟧.held shelf.old) (λ files.
        IsValid (bytes_of words.now.items) (bytes_at files) → IsCompleted (command_in words.now.items) result) }
    ensures settled { IfSome (⟦<SureShelf as Shelf>⟧.held shelf.old) (λ files.
        IsValid (bytes_of words.now.items) (bytes_at files) → AsksOfSettled (bytes_of words.now.items) files
        → IsDecided result) }

    // The rest is as for every shelf and sink.
    ensures report { AnswersReport (⟦<SureShelf as Shelf>⟧.held shelf.old) (command_in words.now.items) result
        (⟦<SureSink as Sink>⟧.written out.old) (⟦<SureSink as Sink>⟧.written out.new) }
    ensures takes { TakesFor (files_of (command_in words.now.items))
        (⟦<SureShelf as Shelf>⟧.taken shelf.old) (⟦<SureShelf as Shelf>⟧.taken shelf.new) }
    ensures reads { ReadsFor (files_of (command_in words.now.items))
        (⟦<SureShelf as Shelf>⟧.reads shelf.old) (⟦<SureShelf as Shelf>⟧.reads shelf.new)
        (⟦<SureShelf as Shelf>⟧.taken shelf.old) (⟦<SureShelf as Shelf>⟧.taken shelf.new) }
    ensures waits { ReadsInOrder (⟦<SureShelf as Shelf>⟧.held shelf.old) (⟦<SureShelf as Shelf>⟧.counted shelf.old)
        (command_in words.now.items)
        (⟦<SureShelf as Shelf>⟧.faults shelf.old) (⟦<SureShelf as Shelf>⟧.faults shelf.new)
        (⟦<SureShelf as Shelf>⟧.reads shelf.old) (⟦<SureShelf as Shelf>⟧.reads shelf.new) }
    ensures held { ⟦<SureShelf as Shelf>⟧.held shelf.new ≡ ⟦<SureShelf as Shelf>⟧.held shelf.old }
    ensures answers { IfSome (⟦<SureShelf as Shelf>⟧.held shelf.old) (λ files.
        IsOfReport result → ComesByCause (bytes_of words.now.items) files result) }
    ensures yes { IfSome (⟦<SureShelf as Shelf>⟧.held shelf.old) (λ files.
        result ≡ Status.Accepted → SaysYes (bytes_of words.now.items) files) }
    ensures no { IfSome (⟦<SureShelf as Shelf>⟧.held shelf.old) (λ files.
        result ≡ Status.No → SaysNo (bytes_of words.now.items) files) }
    ensures undecided { IfSome (⟦<SureShelf as Shelf>⟧.held shelf.old) (λ files.
        result ≡ Status.Undecided → SaysUndecided (bytes_of words.now.items) files) }
    ensures headline { Headline (⟦<SureShelf as Shelf>⟧.held shelf.old) (⟦<SureShelf as Shelf>⟧.counted shelf.old)
        (bytes_of words.now.items) result
        (⟦<SureSink as Sink>⟧.written out.old) (⟦<SureSink as Sink>⟧.written out.new)
        (⟦<SureShelf as Shelf>⟧.faults shelf.old) (⟦<SureShelf as Shelf>⟧.faults shelf.new)
        (⟦<SureSink as Sink>⟧.faults out.old) (⟦<SureSink as Sink>⟧.faults out.new) }
{
    run(alloc, words, shelf, out)
}

// What carrying out a command comes to.
fn carry_out<H: Shelf, K: Sink>(
    alloc: Global,
    command: Command<'_>,
    shelf: &mut H,
    out: &mut K,
) -> Status
    ensures { CarriesOut (command_view command.entry) result
        (account H.Shelf shelf.old) (account H.Shelf shelf.new)
        (K.written out.old) (K.written out.new) (K.faults out.old) (K.faults out.new) }
{
    match command {
        Command::NoForm => tell_short(alloc, Short::Usage, out),
        Command::Drill(n) => tell_drill(alloc, n, out),
        Command::Log { world, log, task } => run_log(alloc, world, log, task, shelf, out),
    }
}

// The replay of a log in a world, and the answer to what is asked after it.
fn run_log<H: Shelf, K: Sink>(
    alloc: Global,
    world: &str,
    log: &str,
    task: Task<'_>,
    shelf: &mut H,
    out: &mut K,
) -> Status
    ensures { CarriesOut (asking task.entry world.now log.now) result
        (account H.Shelf shelf.old) (account H.Shelf shelf.new)
        (K.written out.old) (K.written out.new) (K.faults out.old) (K.faults out.new) }
{
    match read_world_file(alloc, shelf, world) {
        Ok(w) => tell_log(alloc, &w, log, task, shelf, out),
        Err(Unready::Refused(short)) => tell_short(alloc, short, out),
        Err(Unready::ReadFault) => Status::ReadFault,
        Err(Unready::NoMemory) => Status::NoMemory,
    }
}
