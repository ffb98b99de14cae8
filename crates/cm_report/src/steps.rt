// The lines of an event that is a step: the event with the number of its line, and credential lines.
ghost use Rattle.std.specs.Prelude.{◌≡◌, ◌++◌, [], ◌∷◌, IfSome};
ghost use Rattle.cm_base.specs.Outcome.{OrNoMemory};
ghost use Rattle.cm_credentials.specs.Kept.{Keeps};
ghost use Rattle.cm_declared.specs.World.{world_of};
ghost use Rattle.cm_tokens.specs.Pieces.{Appends};
ghost use Rattle.model_cred.specs.Process.{process_at};
ghost use Rattle.model_report.specs.Replay.{text_of, step_lines, credentials_if, Credentials};
ghost use Rattle.model_text.specs.Print.{event_text};

use cm_base::{NoMemory, Pid, Res};
use cm_credentials::{KeptLines, put_credential_line};
use cm_declared::{Placed, World};
use cm_script::put_line;
use cm_state::{Event, Proc, State};
use cm_tokens::put;

/// The lines of a step to the state: the event, the caller's credentials where it lives on, and those of a child that
/// was born. Where the event's line stands as events are written, it is given as `own`, and is copied; the number of the
/// line and the credential lines are made of those that are kept, and are kept.
pub fn put_step(
    text: &mut Vec<u8>,
    w: &World,
    state: &State,
    event: &Placed,
    own: Option<&[u8]>,
    kept: &mut KeptLines,
) -> Result<(), NoMemory>
    requires own { IfSome own (λ line. event_text (world_of w.now) event.now.event ≡ line.now) }
    requires keeps { Keeps w.now.names kept.old }
    ensures text { OrNoMemory result (λ _. text.new.items ≡ text.old.items ++ text_of (step_lines (world_of w.now) state.now event.now)) }
    ensures keeps { OrNoMemory result (λ _. Keeps w.now.names kept.new) }
{
    let e = &event.event;
    kept.put_number(text, event.line)?;
    put_event(text, w, e, own)?;
    put(text, b"\n")?;
    put_living(text, w, state, e.pid, kept)?;
    match e.res {
        Res::Child(pid) => put_living(text, w, state, pid, kept),
        _ => Ok(()),
    }
}

// The event as a script line.
#[inline]
fn put_event(
    text: &mut Vec<u8>,
    w: &World,
    event: &Event,
    own: Option<&[u8]>,
) -> Result<(), NoMemory>
    requires own { IfSome own (λ line. event_text (world_of w.now) event.now ≡ line.now) }
    ensures { OrNoMemory result (λ _. Appends text.old.items text.new.items (event_text (world_of w.now) event.now)) }
{
    match own {
        Some(line) => put(text, line),
        None => put_line(text, event, w),
    }
}

// The credential line of the live process of that pid, where there is one, made of what is kept.
#[inline]
fn put_living(
    text: &mut Vec<u8>,
    w: &World,
    state: &State,
    pid: Pid,
    kept: &mut KeptLines,
) -> Result<(), NoMemory>
    requires keeps { Keeps w.now.names kept.old }
    ensures text { OrNoMemory result (λ _. text.new.items ≡ text.old.items ++ text_of (credentials_if (world_of w.now) (process_at state.now.processes pid))) }
    ensures keeps { OrNoMemory result (λ _. Keeps w.now.names kept.new) }
{
    match state.procs.find(pid) {
        Some(at) => {
            let procs = state.procs.items();
            let p = &procs[at];
            kept.put(text, &p.cred, p.pid, p.space, w)
        }
        None => Ok(()),
    }
}

/// The credential line of a process.
#[inline]
pub fn put_process(text: &mut Vec<u8>, w: &World, p: &Proc) -> Result<(), NoMemory>
    ensures { OrNoMemory result (λ _. text.new.items ≡ text.old.items ++ text_of (Credentials (world_of w.now) p.now ∷ [])) }
{
    put_credential_line(text, &p.cred, p.pid, p.space, w)
}
