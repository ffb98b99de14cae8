// The state in which the first process of a container starts: root of a user namespace, whose ids are those from 100000
// on outside; and the calls that it makes before it runs the program.
ghost use Rattle.std.specs.Prelude.{◌≡◌, All, IfOk, Some, vec_len};
ghost use Rattle.cm_base.specs.Outcome.{OrNoMemory};
ghost use Rattle.model_cred.specs.Process.{Ascends};

use crate::stop::Stop;
use cm_base::{CapWord, Kgid, Kuid, NoMemory, Pid, SecBits, SpaceId};
use cm_declared::{LogForm, Names, World};
use cm_files::{FileTable, MapPair, Mount, Text};
use cm_filter::Filter;
use cm_idmap::{Extent, IdMap};
use cm_state::{Call, Cred, Groups, Ids, Proc, Procs, Space, Spaces, State};
use std::alloc::Global;

/// What stands at the start. No file has a set-id bit or an attribute: none is declared.
pub(crate) fn start_world(alloc: Global) -> Result<World, Stop> {
    let mut spaces = Spaces::first(alloc)?;
    let container = spaces.add(container_space(alloc)?)?;
    let procs = processes(alloc, container)?;
    Ok(World {
        start: State { procs, spaces },
        names: Names::none(alloc),
        files: no_files(alloc)?,
        filter: Filter::none(),
        form: LogForm::Script,
    })
}

/// The process that starts the container.
pub(crate) fn first_pid() -> Pid {
    Pid::new(1).unwrap()
}

/// The calls, in their order: the ids of a user of the container, and no_new_privs.
pub(crate) fn calls(alloc: Global) -> Result<Vec<Call>, NoMemory> {
    let mut list = Vec::new(alloc);
    list.push(Call::SetGroups(Ids::from_vec(Vec::new(alloc))))?;
    list.push(Call::SetResGid(33, 33, 33))?;
    list.push(Call::SetResUid(33, 33, 33))?;
    list.push(Call::NoNewPrivs(1))?;
    Ok(list)
}

// The container's user namespace. Ids 0 to 65535 inside it are 100000 to 165535 outside (user_namespaces(7)).
fn container_space(alloc: Global) -> Result<Space, Stop>
    ensures { IfOk result (λ space. space.parent ≡ Some 0) }
{
    let extent = Extent {
        inside: 0,
        outside: 100_000,
        length: 65_536,
    };
    Ok(Space {
        parent: Some(SpaceId(0)),
        owner: Kuid::of(0),
        uids: Some(IdMap::make(alloc, &[extent])?),
        gids: Some(IdMap::make(alloc, &[extent])?),
        deny: false,
        creator_setfcap: true,
    })
}

// The one process, in that space.
fn processes(alloc: Global, container: SpaceId) -> Result<Procs, NoMemory>
    ensures ascends { OrNoMemory result (λ procs. Ascends procs) }
    ensures inside { OrNoMemory result (λ procs. All (λ p. p.space ≡ container.0) procs) }
{
    let mut list = Vec::new(alloc);
    list.push(first_process(alloc, container)?)?;
    Ok(Procs::from_vec(list))
}

// Root of the container, with all capabilities over its user namespace.
fn first_process(alloc: Global, container: SpaceId) -> Result<Proc, NoMemory>
    ensures { OrNoMemory result (λ p. p.space ≡ container.0) }
{
    let user = Kuid::of(100_000);
    let group = Kgid::of(100_000);
    let cred = Cred {
        ruid: user,
        euid: user,
        suid: user,
        fsuid: user,
        rgid: group,
        egid: group,
        sgid: group,
        fsgid: group,
        groups: Groups::empty(alloc),
        inh: CapWord::empty(),
        prm: CapWord::full(),
        eff: CapWord::full(),
        bnd: CapWord::full(),
        amb: CapWord::empty(),
        sec: SecBits(0),
        nnp: false,
    };
    Ok(Proc {
        pid: first_pid(),
        forebear: None,
        space: container,
        cred: Box::new(alloc, cred)?,
        filter: Filter::none(),
    })
}

// The mount of the machine, and no file.
fn no_files(alloc: Global) -> Result<FileTable, Stop> {
    Ok(FileTable::make(alloc, mounts(alloc)?, Vec::new(alloc))?)
}

// That mount alone.
fn mounts(alloc: Global) -> Result<Vec<Mount>, NoMemory>
    ensures { OrNoMemory result (λ mounts. vec_len mounts ≡ 1) }
{
    let mut list = Vec::new(alloc);
    list.push(root_mount(alloc)?)?;
    Ok(list)
}

// The mount of the machine's first file system, which belongs to the initial user namespace.
fn root_mount(alloc: Global) -> Result<Mount, NoMemory> {
    Ok(Mount {
        name: Text::from_string(String::from_str(alloc, "root")?),
        fs: MapPair {
            uids: IdMap::initial(alloc)?,
            gids: IdMap::initial(alloc)?,
        },
        map: None,
        space: SpaceId(0),
        nosuid: false,
        noexec: false,
    })
}
