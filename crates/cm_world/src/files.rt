// The files that a world's text declares (inode(7)), and the table that they make with the declared mounts.
ghost use Rattle.std.specs.Prelude.{◌≡◌, ◌+◌, ◌<◌, ◌^◌, ◌++◌, ◌∷◌, [], None, IfOk, length};
ghost use Rattle.cm_base.specs.Limited.{limit_number};
ghost use Rattle.cm_base.specs.Outcome.{OrNoMemory};
ghost use Rattle.cm_base.specs.declared.faults.Table.TheVariants as table;
ghost use Rattle.cm_base.specs.declared.limited.Limited.TheVariants as limit;
ghost use Rattle.cm_files.specs.Fault.{files_fault, first_fault, row_fault};
ghost use Rattle.cm_files.specs.declared.fault.BadFiles.TheVariants as bad_files;
ghost use Rattle.cm_values.specs.Answers.{Gives};
ghost use Rattle.cm_values.specs.Keys.{keys_of};
ghost use Rattle.cm_world.specs.Answers.{Answers};
ghost use Rattle.cm_world.specs.Tables.{table_with};
ghost use Rattle.model_text.specs.FileText as model;
ghost use Rattle.model_text.specs.Refusal.{first_standing, read_rows, row_of, then_read, unless};
ghost use Rattle.toml.specs.View.{items_view, table_view, view};

use crate::WorldError;
use crate::error::in_row;
use crate::mounts::Mounts;
use cm_base::{Kgid, Kuid, Limited, NoMemory, Table as TableName, WorldFault};
use cm_files::{BadFiles, FileRow, FileRows, FileTable, Mount};
use cm_tokens::is_path;
use cm_values::{
    Key, Kind, LAST_ID, Need, RowError, caps_of_row, check_keys, has_path, interpreter_of_row,
    kept, mode_of_text, number_or, text_or,
};
use std::alloc::Global;
use toml::{Table, Value};

static KEYS: [Key; 7] = [
    Key("path", Kind::Text, Need::Required),
    Key("mount", Kind::Text, Need::Optional),
    Key(
        "uid",
        Kind::Number {
            low: 0,
            high: LAST_ID,
        },
        Need::Required,
    ),
    Key(
        "gid",
        Kind::Number {
            low: 0,
            high: LAST_ID,
        },
        Need::Required,
    ),
    Key("mode", Kind::Text, Need::Required),
    Key("caps", Kind::Text, Need::Optional),
    Key("interpreter", Kind::Text, Need::Optional),
];

/// The keys of a file.
fn file_keys() -> &'static [Key]
    ensures { keys_of result.now ≡ model.file_keys }
{
    &KEYS
}

/// The table of the declared mounts and of the files of the rows of a text, or the first refusal.
pub(crate) fn read_files(
    alloc: Global,
    mounts: Mounts,
    rows: &[Value],
) -> Result<FileTable, WorldError>
    ensures { Answers result
        (then_read (read_rows table.File limit.Files 0 (model.file_row mounts) [] (items_view rows.now)) (table_with mounts)) }
{
    let files = files_of_rows(alloc, &mounts, rows)?;
    Ok(table_of(alloc, mounts.into_vec(), files.into_vec())?)
}

/// The table of mounts and files without a fault. It fails only where memory runs out.
fn table_of(alloc: Global, mounts: Vec<Mount>, rows: Vec<FileRow>) -> Result<FileTable, NoMemory>
    requires mounts { length mounts.items < 2 ^ 32 }
    requires rows { length rows.items < 2 ^ 32 }
    requires fine { files_fault mounts.items rows.items ≡ None }
    ensures { OrNoMemory result (λ made. made ≡ record { mounts = mounts.items; rows = rows.items }) }
{
    match FileTable::make(alloc, mounts, rows) {
        Ok(made) => Ok(made),
        Err(e) => Err(no_fault(e)),
    }
}

/// Out of memory, which is all that refuses files without a fault.
fn no_fault(e: BadFiles) -> NoMemory
    requires { e ≡ bad_files.NoMemory }
{
    match e {
        BadFiles::NoMemory => NoMemory,
        BadFiles::Twice(_) => unreachable!(),
        BadFiles::NoMount(_) => unreachable!(),
        BadFiles::NoInterpreter(_) => unreachable!(),
    }
}

/// The files of the rows of a text, or the first refusal.
fn files_of_rows(alloc: Global, mounts: &Mounts, rows: &[Value]) -> Result<FileRows, WorldError>
    ensures answers { Answers result
        (read_rows table.File limit.Files 0 (model.file_row mounts.now) [] (items_view rows.now)) }
    ensures fine { IfOk result (λ files. first_fault (length mounts.now) [] files ≡ None) }
{
    if rows.len() as u64 > Limited::Files.number() {
        return Err(WorldError::Limit(Limited::Files));
    }
    let mut files = FileRows::none(alloc);
    for (i, row) in rows.iter().enumerate() {
        match with_row(alloc, mounts, files, row) {
            Ok(more) => files = more,
            Err(e) => return Err(in_row(e, TableName::File, i as u32 + 1)),
        }
    }
    Ok(files)
}

/// The files with that of one row more, which is a table.
fn with_row(
    alloc: Global,
    mounts: &Mounts,
    files: FileRows,
    row: &Value,
) -> Result<FileRows, RowError>
    requires few { length files < limit_number limit.Files }
    requires fine { first_fault (length mounts.now) [] files ≡ None }
    ensures gives { Gives result (row_of (model.file_row mounts.now files) (view row.now)) }
    ensures one { IfOk result (λ more. length more ≡ length files + 1) }
    ensures fine { IfOk result (λ more. first_fault (length mounts.now) [] more ≡ None) }
{
    let Value::Table(row) = row else {
        return Err(RowError::Fault(WorldFault::WrongType));
    };
    check_keys(row, file_keys())?;
    let made = file_of_row(alloc, mounts, &files, row)?;
    Ok(files.with(made)?)
}

/// The file that a row declares, where the faults of its keys don't stand.
fn file_of_row(
    alloc: Global,
    mounts: &Mounts,
    before: &FileRows,
    row: &Table,
) -> Result<FileRow, RowError>
    ensures gives { Gives result (unless (first_standing (model.file_checks mounts.now before.now (table_view row.now)))
        (model.file_declared mounts.now before.now (table_view row.now))) }
    ensures fits { IfOk result (λ made. row_fault (length mounts.now) before.now made ≡ None) }
{
    let path = text_or(row, "path", "");
    if !is_path(path.as_bytes()) {
        return Err(RowError::Fault(WorldFault::BadName));
    }
    if has_path(before, path.as_bytes()) {
        return Err(RowError::Fault(WorldFault::TwiceNamed));
    }
    let Some(mount) = mounts.named(text_or(row, "mount", "root").as_bytes()) else {
        return Err(RowError::Fault(WorldFault::NoSuchMount));
    };
    let interpreter = interpreter_of_row(before, row)?;
    let Some(mode) = mode_of_text(text_or(row, "mode", "").as_bytes()) else {
        return Err(RowError::Fault(WorldFault::BadMode));
    };
    let caps = caps_of_row(alloc, row)?;
    Ok(FileRow {
        path: kept(alloc, path)?,
        mount,
        uid: Kuid::of(number_or(row, "uid", 0, LAST_ID, 0)),
        gid: Kgid::of(number_or(row, "gid", 0, LAST_ID, 0)),
        mode,
        caps,
        interpreter,
    })
}
