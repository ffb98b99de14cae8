// The tables of a world's text, one after another, up to the first refusal: the whole table, spaces, mounts, files,
// processes, the filter.
ghost use Rattle.std.specs.Prelude.{◌≡◌, ◌<◌, All, codes, length, option_map};
ghost use Rattle.cm_values.specs.Keys.{keys_of};
ghost use Rattle.cm_world.specs.Answers.{Answers, IsAnswer};
ghost use Rattle.cm_world.specs.Tables.{world_made};
ghost use Rattle.cm_declared.specs.World.{form_of, world_of};
ghost use Rattle.model_cred.specs.Process.{Ascends};
ghost use Rattle.model_text.specs.WorldText as model;
ghost use Rattle.toml.specs.View.{table_view};

use crate::files::read_files;
use crate::filter::read_filter;
use crate::mounts::read_mounts;
use crate::processes::read_processes;
use crate::spaces::{Declared, read_spaces};
use crate::{LogForm, World, WorldError};
use cm_base::Table as TableName;
use cm_files::FileTable;
use cm_filter::Filter;
use cm_state::{Procs, State};
use cm_values::{Key, Kind, Need, is_text_at, items_at, shape_fault, value_at};
use std::alloc::Global;
use toml::Table;

static KEYS: [Key; 6] = [
    Key("log", Kind::Word(&["script", "strace"]), Need::Required),
    Key("space", Kind::Rows, Need::Optional),
    Key("mount", Kind::Rows, Need::Optional),
    Key("file", Kind::Rows, Need::Optional),
    Key("process", Kind::Rows, Need::Optional),
    Key("filter", Kind::Section, Need::Optional),
];

/// The keys of the whole table.
fn whole_keys() -> &'static [Key]
    ensures { keys_of result.now ≡ model.whole_keys }
{
    &KEYS
}

/// The world of a text's whole table.
pub(crate) fn read_table(alloc: Global, top: &Table) -> Result<World, WorldError>
    ensures { IsAnswer result (model.table_world (table_view top.now)) }
{
    if let Some(why) = shape_fault(top, whole_keys()) {
        return Err(WorldError::Bad {
            table: TableName::Whole,
            row: 0,
            why,
        });
    }
    let declared = read_spaces(alloc, items_at(top, "space"))?;
    let mounts = read_mounts(alloc, &declared.names, items_at(top, "mount"))?;
    let files = read_files(alloc, mounts, items_at(top, "file"))?;
    let procs = read_processes(alloc, &declared, items_at(top, "process"))?;
    let filter = read_filter(alloc, value_at(top, "filter"))?;
    Ok(world_with(top, declared, files, procs, filter))
}

// The world of these parts.
fn world_with(
    top: &Table,
    declared: Declared,
    files: FileTable,
    procs: Procs,
    filter: Filter,
) -> World
    requires ordered { Ascends procs }
    requires stands { All (λ p. p.space < length declared.spaces) procs }
    ensures { world_of result ≡ world_made (table_view top.now) declared files procs filter }
{
    let Declared { names, spaces } = declared;
    World {
        start: State { procs, spaces },
        names,
        files,
        filter,
        form: form_of_table(top),
    }
}

// The form of the log.
fn form_of_table(top: &Table) -> LogForm
    ensures { form_of result ≡ model.form_of_row (table_view top.now) }
{
    if is_text_at(top, "log", "strace") {
        LogForm::Strace
    } else {
        LogForm::Script
    }
}
