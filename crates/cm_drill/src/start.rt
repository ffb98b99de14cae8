// The world of the drill, made without a text: one process, which is root, and one set-user-ID-root program.
ghost use Rattle.std.specs.Prelude.{◌≡◌, [], ◌∷◌, codes};
ghost use Rattle.cm_base.specs.Outcome.{OrNoMemory};
ghost use Rattle.cm_files.specs.declared.fault.BadFiles.TheVariants as bad_files;
ghost use Rattle.cm_declared.specs.World.{world_of};
ghost use Rattle.model_cred.specs.Files.{plain_mount};
ghost use Rattle.model_drill.specs.DrillWorld.{drill_world, first_process, root_credential, su_row};

use cm_base::{CapWord, Kgid, Kuid, NoMemory, Pid, SecBits, SpaceId};
use cm_declared::{LogForm, Names, World};
use cm_files::{BadFiles, FileRow, FileTable, MapPair, Mount, Text};
use cm_filter::Filter;
use cm_idmap::IdMap;
use cm_state::{Cred, Groups, Proc, Procs, Spaces, State};
use std::alloc::Global;

/// The world of the drill. It fails only where memory runs out.
#[tactic(auto, unfolding(model_drill::specs::DrillWorld::drill_world))]
pub(crate) fn drill_world(alloc: Global) -> Result<World, NoMemory>
    ensures { OrNoMemory result (λ w. world_of w ≡ drill_world) }
{
    let procs = first_procs(alloc)?;
    let spaces = Spaces::first(alloc)?;
    let files = files(alloc)?;
    Ok(World {
        start: State { procs, spaces },
        names: Names::none(alloc),
        files,
        filter: Filter::none(),
        form: LogForm::Script,
    })
}

// The one process.
fn first_procs(alloc: Global) -> Result<Procs, NoMemory>
    ensures { OrNoMemory result (λ procs. procs ≡ first_process ∷ []) }
{
    let mut list = Vec::new(alloc);
    list.push(first_proc(alloc)?)?;
    Ok(Procs::from_vec(list))
}

fn first_proc(alloc: Global) -> Result<Proc, NoMemory>
    ensures { OrNoMemory result (λ p. p ≡ first_process) }
{
    let cred = Box::new(alloc, root_cred(alloc))?;
    Ok(Proc {
        pid: Pid::new(1).unwrap(),
        forebear: None,
        space: SpaceId(0),
        cred,
        filter: Filter::none(),
    })
}

fn root_cred(alloc: Global) -> Cred
    ensures { result ≡ root_credential }
{
    Cred {
        ruid: Kuid::of(0),
        euid: Kuid::of(0),
        suid: Kuid::of(0),
        fsuid: Kuid::of(0),
        rgid: Kgid::of(0),
        egid: Kgid::of(0),
        sgid: Kgid::of(0),
        fsgid: Kgid::of(0),
        groups: Groups::empty(alloc),
        inh: CapWord::empty(),
        prm: CapWord::full(),
        eff: CapWord::full(),
        bnd: CapWord::full(),
        amb: CapWord::empty(),
        sec: SecBits(0),
        nnp: false,
    }
}

// The mount `root`, and the program on it.
fn files(alloc: Global) -> Result<FileTable, NoMemory>
    ensures { OrNoMemory result (λ files. files ≡ record { mounts = plain_mount (codes "root") ∷ []; rows = su_row ∷ [] }) }
{
    let mut mounts = Vec::new(alloc);
    mounts.push(root_mount(alloc)?)?;
    let mut rows = Vec::new(alloc);
    rows.push(su(alloc)?)?;
    match FileTable::make(alloc, mounts, rows) {
        Ok(files) => Ok(files),
        Err(e) => Err(no_fault(e)),
    }
}

// Out of memory, which is all that refuses these files.
fn no_fault(e: BadFiles) -> NoMemory
    requires { e ≡ bad_files.NoMemory }
{
    match e {
        BadFiles::NoMemory => NoMemory,
        BadFiles::Twice(_) => unreachable!(),
        BadFiles::NoMount(_) => unreachable!(),
        BadFiles::NoInterpreter(_) => unreachable!(),
    }
}

fn root_mount(alloc: Global) -> Result<Mount, NoMemory>
    ensures { OrNoMemory result (λ m. m ≡ plain_mount (codes "root")) }
{
    let name = text(alloc, "root")?;
    let fs = MapPair {
        uids: IdMap::initial(alloc)?,
        gids: IdMap::initial(alloc)?,
    };
    Ok(Mount {
        name,
        fs,
        map: None,
        space: SpaceId(0),
        nosuid: false,
        noexec: false,
    })
}

fn su(alloc: Global) -> Result<FileRow, NoMemory>
    ensures { OrNoMemory result (λ row. row ≡ su_row) }
{
    Ok(FileRow {
        path: text(alloc, "/drill/su")?,
        mount: 0,
        uid: Kuid::of(0),
        gid: Kgid::of(0),
        mode: 0o4755,
        caps: None,
        interpreter: None,
    })
}

fn text(alloc: Global, text: &str) -> Result<Text, NoMemory>
    ensures { OrNoMemory result (λ made. made ≡ text.now) }
{
    let made = String::from_str(alloc, text)?;
    Ok(Text::from_string(made))
}
