// The mounts that a world's text declares (mount(2)). The mount `root` always stands as the first.
ghost use Rattle.std.specs.Prelude.{◌≡◌, ◌+◌, ◌<◌, ◌^◌, ◌++◌, ◌∷◌, [], IfOk, IfSome, bytes_eq, codes, length, map};
ghost use Rattle.cm_base.specs.Limited.{limit_number};
ghost use Rattle.cm_base.specs.Outcome.{OrNoMemory};
ghost use Rattle.cm_base.specs.declared.faults.Table.TheVariants as table;
ghost use Rattle.cm_base.specs.declared.limited.Limited.TheVariants as limit;
ghost use Rattle.cm_values.specs.Answers.{Gives};
ghost use Rattle.cm_values.specs.Keys.{keys_of};
ghost use Rattle.cm_world.specs.Answers.{Answers};
ghost use Rattle.model_cred.specs.Files.{plain_mount};
ghost use Rattle.model_text.specs.MountText as model;
ghost use Rattle.model_text.specs.NameText.{is_one_of};
ghost use Rattle.model_text.specs.Refusal.{first_standing, read_rows, row_of, unless};
ghost use Rattle.toml.specs.View.{items_view, table_view, view};

use crate::WorldError;
use crate::error::in_row;
use cm_base::{Limited, NoMemory, SpaceId, Table as TableName, WorldFault};
use cm_declared::Names;
use cm_files::{MapPair, Mount};
use cm_idmap::IdMap;
use cm_tokens::is_name;
use cm_values::{
    Key, Kind, MountMaps, Need, RowError, check_keys, flag_at, kept, maps_of_row, space_of_row,
    text_or,
};
use std::alloc::Global;
use std::marker::Model;
use toml::{Table, Value};

/// The declared mounts, after `root`, each named by its place, from 0 on.
#[derive(Debug, Drop)]
pub(crate) struct Mounts {
    list: Vec<Mount>,
}

impl Model for Mounts {
    ghost use Rattle.std.specs.Prelude.{List, ◌<◌, ◌^◌, length};
    ghost use Rattle.model_cred.specs.Files as model;

    ghost Value = { List model.Mount };

    ghost view = { λ m. m.list.items };

    ghost invariant = { λ m. length m.list.items < 2 ^ 32 };
}

static KEYS: [Key; 8] = [
    Key("name", Kind::Text, Need::Required),
    Key("space", Kind::Text, Need::Optional),
    Key("nosuid", Kind::Flag, Need::Optional),
    Key("noexec", Kind::Flag, Need::Optional),
    Key("fs_uid_map", Kind::Extents, Need::Optional),
    Key("fs_gid_map", Kind::Extents, Need::Optional),
    Key("uid_map", Kind::Extents, Need::Beside("gid_map")),
    Key("gid_map", Kind::Extents, Need::Beside("uid_map")),
];

/// The keys of a mount.
fn mount_keys() -> &'static [Key]
    ensures { keys_of result.now ≡ model.mount_keys }
{
    &KEYS
}

impl Mounts {
    /// The mount `root` alone. It fails only where memory runs out.
    fn root(alloc: Global) -> Result<Mounts, NoMemory>
        ensures { OrNoMemory result (λ mounts. mounts ≡ model.root_alone) }
    {
        let mut list = Vec::new(alloc);
        list.push(root_mount(alloc)?)?;
        Ok(Mounts { list })
    }

    /// One mount more. It fails only where memory runs out.
    fn with(self, m: Mount) -> Result<Mounts, NoMemory>
        requires { length self + 1 < 2 ^ 32 }
        ensures { OrNoMemory result (λ mounts. mounts ≡ self ++ m ∷ []) }
    {
        let Mounts { mut list } = self;
        list.push(m)?;
        Ok(Mounts { list })
    }

    /// A mount of that name is declared.
    fn has(&self, name: &[u8]) -> bool
        ensures { result ≡ is_one_of (map (λ m. m.name) self.now) name.now }
    {
        has_mount(&self.list, name)
    }

    /// The number of the first mount of that name. It takes no memory.
    pub(crate) fn named(&self, name: &[u8]) -> Option<u32>
        ensures number { result ≡ model.mount_named self.now name.now }
        ensures within { IfSome result (λ n. n < length self.now) }
    {
        match place_of(&self.list, name) {
            Some(place) => Some(place as u32),
            None => None,
        }
    }

    /// The mounts, in their order. It takes no memory.
    pub(crate) fn items(&self) -> &[Mount]
        ensures { result.now ≡ self.now }
    {
        &self.list
    }

    /// The same, as a list of its own. It takes no memory.
    pub(crate) fn into_vec(self) -> Vec<Mount>
        ensures mounts { result.items ≡ self }
        ensures few { length result.items < 2 ^ 32 }
    {
        let Mounts { list } = self;
        list
    }
}

/// The mount `root`: of the initial space, without maps or flags (choice). It fails only where memory runs out.
fn root_mount(alloc: Global) -> Result<Mount, NoMemory>
    ensures { OrNoMemory result (λ m. m ≡ plain_mount (codes "root")) }
{
    let fs = MapPair {
        uids: IdMap::initial(alloc)?,
        gids: IdMap::initial(alloc)?,
    };
    Ok(Mount {
        name: kept(alloc, "root")?,
        fs,
        map: None,
        space: SpaceId(0),
        nosuid: false,
        noexec: false,
    })
}

/// The declared mounts of the rows of a text, or the first refusal. The names are those of the declared spaces.
pub(crate) fn read_mounts(
    alloc: Global,
    names: &Names,
    rows: &[Value],
) -> Result<Mounts, WorldError>
    ensures { Answers result
        (read_rows table.Mount limit.Mounts 1 (model.mount_row names.now) model.root_alone (items_view rows.now)) }
{
    if rows.len() as u64 >= Limited::Mounts.number() {
        return Err(WorldError::Limit(Limited::Mounts));
    }
    let mut mounts = Mounts::root(alloc)?;
    for (i, row) in rows.iter().enumerate() {
        match with_row(alloc, names, mounts, row) {
            Ok(more) => mounts = more,
            Err(e) => return Err(in_row(e, TableName::Mount, i as u32 + 1)),
        }
    }
    Ok(mounts)
}

/// The mounts with that of one row more, which is a table.
fn with_row(alloc: Global, names: &Names, mounts: Mounts, row: &Value) -> Result<Mounts, RowError>
    requires { length mounts < limit_number limit.Mounts }
    ensures gives { Gives result (row_of (model.mount_row names.now mounts) (view row.now)) }
    ensures one { IfOk result (λ more. length more ≡ length mounts + 1) }
{
    let Value::Table(row) = row else {
        return Err(RowError::Fault(WorldFault::WrongType));
    };
    check_keys(row, mount_keys())?;
    let m = mount_of_row(alloc, names, &mounts, row)?;
    Ok(mounts.with(m)?)
}

/// The mount that a row declares, where the faults of its keys don't stand.
fn mount_of_row(
    alloc: Global,
    names: &Names,
    before: &Mounts,
    row: &Table,
) -> Result<Mount, RowError>
    ensures { Gives result (unless (first_standing (model.mount_checks names.now before.now (table_view row.now)))
        (model.mount_declared names.now (table_view row.now))) }
{
    let name = text_or(row, "name", "");
    if !is_name(name.as_bytes()) {
        return Err(RowError::Fault(WorldFault::BadName));
    }
    if before.has(name.as_bytes()) {
        return Err(RowError::Fault(WorldFault::TwiceNamed));
    }
    let Some(space) = space_of_row(names, row) else {
        return Err(RowError::Fault(WorldFault::NoSuchSpace));
    };
    let MountMaps { fs, own } = maps_of_row(alloc, row)?;
    Ok(Mount {
        name: kept(alloc, name)?,
        fs,
        map: own,
        space,
        nosuid: flag_at(row, "nosuid"),
        noexec: flag_at(row, "noexec"),
    })
}

/// One of the mounts has that name.
fn has_mount(mounts: &[Mount], name: &[u8]) -> bool
    ensures { result ≡ is_one_of (map (λ m. m.name) mounts.now) name.now }
{
    for m in mounts {
        if is_named(m, name) {
            return true;
        }
    }
    false
}

/// The place of the first of the mounts of that name.
fn place_of(mounts: &[Mount], name: &[u8]) -> Option<usize>
    ensures first { result ≡ model.mount_named mounts.now name.now }
    ensures within { IfSome result (λ place. place < length mounts.now) }
{
    mounts.iter().position(|m| is_named(m, name))
}

/// The mount has that name.
fn is_named(m: &Mount, name: &[u8]) -> bool
    ensures { result ≡ bytes_eq m.now.name name.now }
{
    m.name.items() == name
}
