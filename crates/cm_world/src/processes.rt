// The processes that a world's text declares, by ascending pid. The forebear of a process is its declared parent.
ghost use Rattle.std.specs.Prelude.{◌≡◌, ◌≢◌, ◌<◌, [], All, Err, IfOk, IfSome, length, option_map, true, false};
ghost use Rattle.cm_base.specs.Outcome.{OrNoMemory};
ghost use Rattle.cm_base.specs.declared.faults.Table.TheVariants as table;
ghost use Rattle.cm_base.specs.declared.limited.Limited.TheVariants as limit;
ghost use Rattle.cm_values.specs.Answers.{Gives};
ghost use Rattle.cm_values.specs.Keys.{keys_of};
ghost use Rattle.cm_world.specs.Answers.{Answers};
ghost use Rattle.cm_world.specs.RowChecks.{limited_checks};
ghost use Rattle.model_cred.specs.Process.{Ascends, insert_process, is_alive};
ghost use Rattle.model_text.specs.MountText.{space_of_row};
ghost use Rattle.model_text.specs.ProcessText as model;
ghost use Rattle.model_text.specs.Refusal.{first_standing, read_rows, row_of, unless};
ghost use Rattle.toml.specs.View.{items_view, table_view, view};

use crate::WorldError;
use crate::error::in_row;
use crate::spaces::Declared;
use cm_base::{
    Kgid, Kuid, LAST_PID, Limited, NoMemory, Pid, SpaceId, Table as TableName, WorldFault,
};
use cm_filter::Filter;
use cm_state::{Cred, Proc, Procs};
use cm_values::{
    FiveSets, Key, Kind, LAST_ID, LAST_SECUREBITS, Need, RowError, groups_of, ids_at, items_at,
    no_new_privs_of, number_at, number_or, range_fault, securebits_of, sets_declared, shape_fault,
    space_of_row,
};
use std::alloc::Global;
use toml::{Table, Value};

static KEYS: [Key; 13] = [
    Key(
        "pid",
        Kind::Number {
            low: 1,
            high: LAST_PID,
        },
        Need::Required,
    ),
    Key("uid", Kind::Ids, Need::Optional),
    Key(
        "parent",
        Kind::Number {
            low: 1,
            high: LAST_PID,
        },
        Need::Optional,
    ),
    Key("space", Kind::Text, Need::Optional),
    Key("gid", Kind::Ids, Need::Optional),
    Key("groups", Kind::Groups, Need::Optional),
    Key("permitted", Kind::Text, Need::Optional),
    Key("effective", Kind::Text, Need::Optional),
    Key("inheritable", Kind::Text, Need::Optional),
    Key("ambient", Kind::Text, Need::Optional),
    Key("bounding", Kind::Text, Need::Optional),
    Key(
        "securebits",
        Kind::Number {
            low: 0,
            high: LAST_SECUREBITS,
        },
        Need::Optional,
    ),
    Key("no_new_privs", Kind::Flag, Need::Optional),
];

/// The keys of a process.
fn process_keys() -> &'static [Key]
    ensures { keys_of result.now ≡ model.process_keys }
{
    &KEYS
}

/// The processes of the rows of a text, over its declared spaces, or the first refusal. Their pids ascend, in whatever
/// order the rows stand.
pub(crate) fn read_processes(
    alloc: Global,
    declared: &Declared,
    rows: &[Value],
) -> Result<Procs, WorldError>
    ensures answers { Answers result
        (read_rows table.Process limit.Processes 0 (model.process_row declared.now.names) [] (items_view rows.now)) }
    ensures ordered { IfOk result (λ procs. Ascends procs) }
    ensures stands { IfOk result (λ procs. All (λ p. p.space < length declared.now.spaces) procs) }
{
    if rows.len() as u64 > Limited::Processes.number() {
        return Err(WorldError::Limit(Limited::Processes));
    }
    let mut procs = Procs::from_vec(Vec::new(alloc));
    for (i, row) in rows.iter().enumerate() {
        match with_row(alloc, declared, procs, row) {
            Ok(more) => procs = more,
            Err(e) => return Err(in_row(e, TableName::Process, i as u32 + 1)),
        }
    }
    Ok(procs)
}

/// The processes with that of one row more, which is a table.
fn with_row(
    alloc: Global,
    declared: &Declared,
    procs: Procs,
    row: &Value,
) -> Result<Procs, RowError>
    requires ordered { Ascends procs }
    requires stands { All (λ p. p.space < length declared.now.spaces) procs }
    ensures gives { Gives result (row_of (model.process_row declared.now.names procs) (view row.now)) }
    ensures ordered { IfOk result (λ made. Ascends made) }
    ensures stands { IfOk result (λ made. All (λ p. p.space < length declared.now.spaces) made) }
{
    let Value::Table(row) = row else {
        return Err(RowError::Fault(WorldFault::WrongType));
    };
    check_row(row, process_keys())?;
    let p = process_of_row(alloc, declared, &procs, row)?;
    Ok(with_one(procs, p)?)
}

/// The row's first fault of its keys, or of the kinds and ranges of its values; too many groups come before a range. It
/// takes no memory.
fn check_row(row: &Table, keys: &[Key]) -> Result<(), RowError>
    ensures gives { Gives result (unless (first_standing (limited_checks (table_view row.now) (keys_of keys.now))) tt) }
    ensures no_memory { result ≢ Err RowError.NoMemory }
{
    if let Some(fault) = shape_fault(row, keys) {
        return Err(RowError::Fault(fault));
    }
    if has_many_groups(row) {
        return Err(RowError::Limit(Limited::Groups));
    }
    match range_fault(row, keys) {
        Some(fault) => Err(RowError::Fault(fault)),
        None => Ok(()),
    }
}

/// The list of groups is longer than the limit, repeats counted.
#[tactic(auto, using(cm_values::proofs::Members::count_items))]
fn has_many_groups(row: &Table) -> bool
    ensures { result ≡ model.has_many_groups (table_view row.now) }
{
    items_at(row, "groups").len() as u64 > Limited::Groups.number()
}

/// The processes with one more. It fails only where memory runs out.
fn with_one(procs: Procs, p: Proc) -> Result<Procs, NoMemory>
    requires ordered { Ascends procs }
    requires fresh { is_alive procs p.pid ≡ false }
    ensures placed { OrNoMemory result (λ made. made ≡ insert_process p procs) }
    ensures ordered { OrNoMemory result (λ made. Ascends made) }
{
    let mut procs = procs;
    procs.insert(p)?;
    Ok(procs)
}

/// The process that a row declares, where the faults of its keys don't stand.
fn process_of_row(
    alloc: Global,
    declared: &Declared,
    procs: &Procs,
    row: &Table,
) -> Result<Proc, RowError>
    requires { Ascends procs.now }
    ensures gives { Gives result (unless
        (first_standing (model.process_checks declared.now.names procs.now (table_view row.now)))
        (model.process_declared declared.now.names (table_view row.now))) }
    ensures fresh { IfOk result (λ p. is_alive procs.now p.pid ≡ false) }
    ensures stands { IfOk result (λ p. p.space < length declared.now.spaces) }
{
    if is_alive(procs, pid_of(row)) {
        return Err(RowError::Fault(WorldFault::TwiceNamed));
    }
    if !has_parent(procs, row) {
        return Err(RowError::Fault(WorldFault::NoSuchParent));
    }
    let Some(space) = declared_space(declared, row) else {
        return Err(RowError::Fault(WorldFault::NoSuchSpace));
    };
    let Some(sets) = sets_declared(row) else {
        return Err(RowError::Fault(WorldFault::BadCaps));
    };
    if !sets.are_included() {
        return Err(RowError::Fault(WorldFault::NotIncluded));
    }
    let cred = Box::new(alloc, cred_with(alloc, &sets, row)?)?;
    Ok(Proc {
        pid: pid_of(row),
        forebear: parent_of_row(row),
        space,
        cred,
        filter: Filter::none(),
    })
}

/// The pid that a row declares.
fn pid_of(row: &Table) -> Pid
    ensures { result ≡ model.pid_of (table_view row.now) }
{
    Pid::new(number_or(row, "pid", 1, LAST_PID, 1)).unwrap()
}

/// The parent that a row names, where it names one.
fn parent_of_row(row: &Table) -> Option<Pid>
    ensures { result ≡ model.parent_of_row (table_view row.now) }
{
    match number_at(row, "parent", 1, LAST_PID) {
        Some(parent) => Pid::new(parent),
        None => None,
    }
}

/// The parent that a row names, where it names one, is among the processes.
fn has_parent(procs: &Procs, row: &Table) -> bool
    requires { Ascends procs.now }
    ensures { result ≡ model.has_parent procs.now (model.parent_of_row (table_view row.now)) }
{
    match parent_of_row(row) {
        Some(parent) => is_alive(procs, parent),
        None => true,
    }
}

/// A process of that pid is among these.
fn is_alive(procs: &Procs, pid: Pid) -> bool
    requires { Ascends procs.now }
    ensures { result ≡ is_alive procs.now pid }
{
    procs.find(pid).is_some()
}

/// The declared space that a row names, the initial one where it names none. None where no space has that name.
fn declared_space(declared: &Declared, row: &Table) -> Option<SpaceId>
    ensures number { option_map (λ s. s.0) result ≡ space_of_row declared.now.names (table_view row.now) }
    ensures stands { IfSome result (λ s. s.0 < length declared.now.spaces) }
{
    space_of_row(&declared.names, row)
}

/// The credential with these sets that a row declares. It fails only where memory runs out.
fn cred_with(alloc: Global, sets: &FiveSets, row: &Table) -> Result<Cred, NoMemory>
    requires { model.are_included sets.now ≡ true }
    ensures { OrNoMemory result (λ cred. cred ≡ model.credential_with sets.now (table_view row.now)) }
{
    let uid = ids_at(row, "uid");
    let gid = ids_at(row, "gid");
    let groups = groups_of(alloc, row)?;
    Ok(Cred {
        ruid: Kuid::of(uid.real),
        euid: Kuid::of(uid.effective),
        suid: Kuid::of(uid.saved),
        fsuid: Kuid::of(uid.fs),
        rgid: Kgid::of(gid.real),
        egid: Kgid::of(gid.effective),
        sgid: Kgid::of(gid.saved),
        fsgid: Kgid::of(gid.fs),
        groups,
        inh: sets.inheritable,
        prm: sets.permitted,
        eff: sets.effective,
        bnd: sets.bounding,
        amb: sets.ambient,
        sec: securebits_of(row),
        nnp: no_new_privs_of(row),
    })
}
