// The words of the command line, and which command they name (choice).
ghost use Rattle.std.specs.Prelude.{◌≡◌, ◌∷◌, string_bytes};
ghost use Rattle.cm_cli.specs.Query.{query_view};
ghost use Rattle.cm_cli.specs.Words.{command_view, command_in, bytes_of};
ghost use Rattle.model_report.specs.Command.{command_of, replay_words, audit_words, check_words, confirm_words};
ghost use Rattle.model_report.specs.Command.{drill_words, drill_of, query};
ghost use Rattle.model_text.specs.Token.{number_token};

use crate::query::{Claim, ClaimKind, Query, Task};
use cm_base::read_u32;

/// What the words ask for: the replay of a log in a world, with what is asked after it; a drill of so many events; or
/// none of the forms.
#[derive(Clone, Copy, Debug)]
pub(crate) enum Command<'a> {
    Log {
        world: &'a str,
        log: &'a str,
        task: Task<'a>,
    },
    Drill(u32),
    NoForm,
}

/// The command that the words name.
pub(crate) fn read_words(words: &[String]) -> Command<'_>
    ensures { command_view result ≡ command_in words.now }
{
    match words {
        [] => Command::NoForm,
        [name, rest @ ..] => read_named(name.as_str(), rest),
    }
}

fn read_named<'a>(name: &str, words: &'a [String]) -> Command<'a>
    ensures { command_view result ≡ command_of (name.now ∷ bytes_of words.now) }
{
    if name == "replay" {
        read_replay(words)
    } else if name == "audit" {
        read_audit(words)
    } else if name == "check" {
        read_check(words)
    } else if name == "confirm" {
        read_confirm(words)
    } else if name == "drill" {
        read_drill(words)
    } else {
        Command::NoForm
    }
}

fn read_replay(words: &[String]) -> Command<'_>
    ensures { command_view result ≡ replay_words (bytes_of words.now) }
{
    match words {
        [world, log] => Command::Log {
            world: world.as_str(),
            log: log.as_str(),
            task: Task::Nothing,
        },
        _ => Command::NoForm,
    }
}

fn read_audit(words: &[String]) -> Command<'_>
    ensures { command_view result ≡ audit_words (bytes_of words.now) }
{
    match words {
        [world, log, pid, right] => Command::Log {
            world: world.as_str(),
            log: log.as_str(),
            task: Task::Judge(query(pid, right)),
        },
        _ => Command::NoForm,
    }
}

fn read_check(words: &[String]) -> Command<'_>
    ensures { command_view result ≡ check_words (bytes_of words.now) }
{
    match words {
        [world, log, pid, right, certificate] => Command::Log {
            world: world.as_str(),
            log: log.as_str(),
            task: Task::Claims(Claim {
                kind: ClaimKind::Certificate,
                query: query(pid, right),
                file: certificate.as_str(),
            }),
        },
        _ => Command::NoForm,
    }
}

fn read_confirm(words: &[String]) -> Command<'_>
    ensures { command_view result ≡ confirm_words (bytes_of words.now) }
{
    match words {
        [world, log, pid, right, run] => Command::Log {
            world: world.as_str(),
            log: log.as_str(),
            task: Task::Claims(Claim {
                kind: ClaimKind::Run,
                query: query(pid, right),
                file: run.as_str(),
            }),
        },
        _ => Command::NoForm,
    }
}

// The query of two words.
fn query<'a>(pid: &'a String, right: &'a String) -> Query<'a>
    ensures { query_view result ≡ query (string_bytes pid.now) (string_bytes right.now) }
{
    Query {
        pid: pid.as_str(),
        right: right.as_str(),
    }
}

fn read_drill(words: &[String]) -> Command<'_>
    ensures { command_view result ≡ drill_words (bytes_of words.now) }
{
    match words {
        [n] => drill_of(n.as_bytes()),
        _ => Command::NoForm,
    }
}

// The drill of a number of events: at most 100000.
fn drill_of<'a>(text: &[u8]) -> Command<'a>
    ensures { command_view result ≡ drill_of (number_token text.now) }
{
    match read_u32(text) {
        Ok(n) if n <= 100_000 => Command::Drill(n),
        _ => Command::NoForm,
    }
}
