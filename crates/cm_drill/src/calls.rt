// The calls that are drawn, by the table of sixteen rows.
ghost use Rattle.std.specs.Prelude.{◌≡◌, ◌<◌, ◌∷◌, [], OnOk, get_or};
ghost use Rattle.cm_base.specs.Outcome.{OrNoMemory};
ghost use Rattle.cm_state.specs.Call.{call_of};
ghost use Rattle.model_cred.specs.Call as model;
ghost use Rattle.model_drill.specs.Drill.{call_drawn};
ghost use Rattle.model_drill.specs.Rows.{exit_or_run as model_exit_or_run, fork_or_exit as model_fork_or_exit, groups_drawn, row_at, unshare_or_bar as model_unshare_or_bar};

use crate::draws::Draws;
use cm_base::{FileRef, NoMemory};
use cm_idmap::Extent;
use cm_state::{Call, Cred, Extents, Ids, Proc, State};
use std::alloc::Global;

/// So many processes live at most, and so many spaces stand at most.
const MOST: usize = 16;

/// The call of that row for the process, its items drawn.
pub(crate) fn draw_call(
    alloc: Global,
    draws: &mut Draws,
    st: &State,
    p: &Proc,
    row: u32,
) -> Result<Call, NoMemory>
    requires { row < 16 }
    ensures call { OrNoMemory result (λ call. call_of call ≡ (call_drawn st.now p.now (row_at row) draws.old).call) }
    ensures number { OnOk result (draws.new ≡ (call_drawn st.now p.now (row_at row) draws.old).number) }
{
    match row {
        0 => {
            let r = draws.id();
            let e = draws.id();
            let s = draws.id();
            Ok(Call::SetResUid(r, e, s))
        }
        1 => {
            let r = draws.id();
            let e = draws.id();
            Ok(Call::SetReUid(r, e))
        }
        2 => Ok(Call::SetUid(draws.id())),
        3 => Ok(Call::SetFsUid(draws.id())),
        4 => {
            let r = draws.id();
            let e = draws.id();
            let s = draws.id();
            Ok(Call::SetResGid(r, e, s))
        }
        5 => {
            let draw = draws.draw();
            Ok(Call::SetGroups(groups_of(alloc, draw)?))
        }
        6 => Ok(raise_all(&p.cred)),
        7 => Ok(Call::BsetDrop(draws.draw() % 42)),
        8 => Ok(Call::AmbRaise(draws.draw() % 42)),
        9 => Ok(Call::KeepCaps(draws.draw() % 2)),
        10 => Ok(Call::SecureBits(draws.draw() % 256)),
        11 => Ok(fork_or_exit(st)),
        12 => Ok(unshare_or_bar(st)),
        13 => {
            let list = zero_to_1000(alloc)?;
            Ok(Call::WriteUidMap(p.space, list))
        }
        14 => Ok(Call::Exec(FileRef::Row(0))),
        _ => Ok(exit_or_run(st)),
    }
}

// The groups that a draw stands for.
fn groups_of(alloc: Global, draw: u32) -> Result<Ids, NoMemory>
    ensures { OrNoMemory result (λ ids. ids ≡ groups_drawn draw) }
{
    let ids = match draw % 3 {
        0 => Vec::new(alloc),
        1 => vec![in alloc; 10]?,
        _ => vec![in alloc; 10, 11]?,
    };
    Ok(Ids::from_vec(ids))
}

// capset that makes what is permitted effective, and leaves the other sets.
fn raise_all(c: &Cred) -> Call
    ensures { call_of result ≡ model.CapSet c.now.permitted c.now.permitted c.now.inheritable }
{
    Call::CapSet {
        eff: c.prm,
        prm: c.prm,
        inh: c.inh,
    }
}

// A birth where there is room, else an exit.
fn fork_or_exit(st: &State) -> Call
    ensures { call_of result ≡ model_fork_or_exit st.now }
{
    if st.procs.items().len() < MOST {
        Call::Fork
    } else {
        Call::Exit
    }
}

// A new space where there is room, else no_new_privs.
fn unshare_or_bar(st: &State) -> Call
    ensures { call_of result ≡ model_unshare_or_bar st.now }
{
    if (st.spaces.count() as usize) < MOST {
        Call::Unshare
    } else {
        Call::NoNewPrivs(1)
    }
}

// The map that takes 0 to 1000.
fn zero_to_1000(alloc: Global) -> Result<Extents, NoMemory>
    ensures { OrNoMemory result (λ list. list ≡ record { inside = 0; outside = 1000; length = 1 } ∷ []) }
{
    let extent = Extent {
        inside: 0,
        outside: 1000,
        length: 1,
    };
    let list = vec![in alloc; extent]?;
    Ok(Extents::from_vec(list))
}

// An exit where another process lives, else an execve of the plain file.
fn exit_or_run(st: &State) -> Call
    ensures { call_of result ≡ model_exit_or_run st.now }
{
    if st.procs.items().len() > 1 {
        Call::Exit
    } else {
        Call::Exec(FileRef::Plain)
    }
}
