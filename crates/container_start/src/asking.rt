// The question: can the process, or what it starts, ever be root outside of the container? One call asks it and writes
// the certificate; another, which trusts nothing of the first, reads the certificate and checks it.
ghost use Rattle.std.specs.Prelude.{◌↔◌, ◌<◌, ◌^◌, IsTrue, length};
ghost use Rattle.cm_declared.specs.World.{world_of};
ghost use Rattle.model_run.specs.Never.{MountsStand};

use crate::stop::Stop;
use cm_audit::{Verdict, audit};
use cm_base::{Kuid, Pid};
use cm_cert::{read_bounds, write_bounds};
use cm_declared::World;
use cm_machine::Machine;
use cm_sound::{Checked, check};
use cm_state::Right;
use std::alloc::Global;

/// What an audit comes to.
#[derive(Drop)]
pub(crate) enum Answer {
    /// Yes, with the certificate.
    Yes(Vec<u8>),
    /// The word of another verdict.
    Other(&'static str),
}

/// Asks whether no process of the family of `first` ever has that user id, as the initial user namespace has it.
pub(crate) fn ask(
    alloc: Global,
    w: &World,
    m: &Machine,
    first: Pid,
    id: Kuid,
) -> Result<Answer, Stop> {
    if !may_be_asked(w, m) {
        return Err(Stop::Refused);
    }
    match audit(alloc, w, m, first, &Right::Uid(id))? {
        Verdict::Yes(bounds) => Ok(Answer::Yes(write_bounds(alloc, &bounds)?)),
        Verdict::No { .. } => Ok(Answer::Other("no")),
        Verdict::Undecided { .. } => Ok(Answer::Other("undecided")),
    }
}

/// What a check of the certificate says, which stands on its text alone.
pub(crate) fn check_text(
    alloc: Global,
    w: &World,
    m: &Machine,
    first: Pid,
    id: Kuid,
    text: &[u8],
) -> Result<Checked, Stop> {
    if !may_be_asked(w, m) {
        return Err(Stop::Refused);
    }
    let members = m.family(alloc, first)?;
    let bounds = read_bounds(alloc, text, m.state.spaces.count())?;
    Ok(check(w, m, &members, &Right::Uid(id), &bounds))
}

// Few enough spaces stand, and the space of each mount does, as an audit and a check ask.
fn may_be_asked(w: &World, m: &Machine) -> bool
    ensures few { IsTrue result → length m.now.state.spaces < 2 ^ 31 }
    ensures mounts { IsTrue result → MountsStand (world_of w.now) m.now.state }
{
    m.state.spaces.count() <= 256 && mounts_stand(w, m)
}

// The space of each mount stands.
fn mounts_stand(w: &World, m: &Machine) -> bool
    ensures { IsTrue result ↔ MountsStand (world_of w.now) m.now.state }
{
    let spaces = m.state.spaces.count();
    w.files.mounts().iter().all(|mount| mount.space.0 < spaces)
}
