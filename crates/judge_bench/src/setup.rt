// What is judged: a world, the machine at the beginning of a log, and all processes as members.
ghost use Rattle.std.specs.Prelude.{◌<◌, ◌^◌, length, IfOk};
ghost use Rattle.cm_sound.specs.Never.{MountsStand};
ghost use Rattle.cm_declared.specs.World.{world_of};

use crate::stop::Stop;
use cm_base::{NoMemory, Pid};
use cm_declared::World;
use cm_machine::Machine;
use cm_state::Proc;
use cm_world::read_world;
use std::alloc::Global;

#[derive(Drop)]
pub(crate) struct Setup {
    pub w: World,
    pub m: Machine,
    pub members: Vec<Pid>,
}

// The most spaces that a world has.
const SPACES: u32 = 256;

// That of the world of the text.
pub(crate) fn start(alloc: Global, text: &[u8]) -> Result<Setup, Stop>
    ensures few { IfOk result (λ s. length s.m.state.spaces < 2 ^ 31) }
    ensures mounts { IfOk result (λ s. MountsStand (world_of s.w) s.m.state) }
{
    let w = read_world(alloc, text)?;
    let m = Machine::new(alloc, &w)?;
    if m.state.spaces.count() > SPACES {
        return Err(Stop::BadWorld);
    }
    let members = pids(alloc, m.state.procs.items())?;
    Ok(Setup { w, m, members })
}

// The pids of the processes.
fn pids(alloc: Global, list: &[Proc]) -> Result<Vec<Pid>, NoMemory> {
    let mut pids = Vec::new(alloc);
    for p in list {
        pids.push(p.pid)?;
    }
    Ok(pids)
}
