// From the bytes of a text to its world: the bytes are UTF-8, that is TOML, and its tables have no fault.
ghost use Rattle.std.specs.Prelude.{◌≡◌, ℕ, Err, IfOk};
ghost use Rattle.cm_base.specs.declared.faults.Table.{Table as TableName};
ghost use Rattle.cm_base.specs.declared.faults.WorldFault.{WorldFault};
ghost use Rattle.cm_base.specs.declared.limited.Limited.{Limited};
ghost use Rattle.cm_world.specs.Answers.{IsAnswer};
ghost use Rattle.cm_declared.specs.World.{world_of};
ghost use Rattle.cm_world.specs.declared.error.WorldError.TheVariants as error;
ghost use Rattle.model_text.specs.WorldText.{Reads, Bad, Exceeds, read_text, world_text, document_world};
ghost use Rattle.model_text.specs.Written.{KeepsNames};
ghost use Rattle.toml.specs.Parse.{parse_document};

use crate::tables::read_table;
use crate::{World, WorldError};
use cm_base::{Table as TableName, WorldFault};
use std::alloc::Global;

/// The world that a text declares (choice; docs/FORMATS.md). Otherwise the text's first refusal, in this order: it isn't
/// UTF-8 or isn't TOML; the whole table; the spaces, the mounts, the files, the processes, the filter. `Bad` tells the
/// table, the row (from 1 on; 0 for the whole table and for the filter) and the row's first fault; `Limit` the count that is
/// past its limit. `NoMemory` may come with any text. The names and the paths of a world that it gives keep their rules.
pub fn read_world(alloc: Global, text: &[u8]) -> Result<World, WorldError>
    ensures read { IfOk result (λ w. world_text text.now ≡ Reads (world_of w)) }
    ensures names { IfOk result (λ w. KeepsNames (world_of w)) }
    ensures bad { (table : TableName) (row : ℕ) (why : WorldFault) → result ≡ Err (error.Bad table row why) → world_text text.now ≡ Bad table row why }
    ensures limit { (l : Limited) → result ≡ Err (error.Limit l) → world_text text.now ≡ Exceeds l }
{
    read_bytes(alloc, text)
}

/// The same, by the definition's result.
fn read_bytes(alloc: Global, text: &[u8]) -> Result<World, WorldError>
    ensures { IsAnswer result (read_text text.now) }
{
    match std::str::from_utf8(text) {
        Ok(text) => read_document(alloc, text),
        Err(_) => Err(no_toml()),
    }
}

/// The world of a text that is UTF-8.
fn read_document(alloc: Global, text: &str) -> Result<World, WorldError>
    ensures { IsAnswer result (document_world (parse_document text.now)) }
{
    match toml::table_from_str(alloc, text) {
        Ok(table) => read_table(alloc, &table),
        Err(why) if why.is_memory() => Err(WorldError::NoMemory),
        Err(_) => Err(no_toml()),
    }
}

/// The fault of a text that isn't TOML.
fn no_toml() -> WorldError
    ensures { result ≡ error.Bad TableName.Whole 0 WorldFault.Toml }
{
    WorldError::Bad {
        table: TableName::Whole,
        row: 0,
        why: WorldFault::Toml,
    }
}
