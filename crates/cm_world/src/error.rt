// Why a text gives no world, and out of memory as one of these reasons.
ghost use Rattle.std.specs.Prelude.{◌≡◌, option_map};
ghost use Rattle.cm_values.specs.Answers.{cause_of};
ghost use Rattle.cm_world.specs.Answers.{refusal_of};
ghost use Rattle.cm_world.specs.declared.error.WorldError.TheVariants.{NoMemory};
ghost use Rattle.model_text.specs.Refusal.{refusal_at};

use cm_base::{Limited, NoMemory, Table, WorldFault};
use cm_values::RowError;
use std::alloc::{AllocError, AllocFailed};

/// Why a text gives no world.
#[derive(Clone, Copy, Debug, PartialEq, Eq)]
pub enum WorldError {
    /// A row of a table has the fault. Rows count from 1; the whole table and the filter are row 0.
    Bad {
        table: Table,
        row: u32,
        why: WorldFault,
    },
    /// A count of the text is past the limit.
    Limit(Limited),
    /// There was no memory to read it, which says nothing of the text.
    NoMemory,
}

impl From<AllocError> for WorldError {
    ghost from_gives = { λ _ e. e ≡ NoMemory };

    fn from(_: AllocError) -> WorldError {
        WorldError::NoMemory
    }
}

impl<T: Drop> From<AllocFailed<T>> for WorldError {
    ghost from_gives = { λ _ e. e ≡ NoMemory };

    fn from(_: AllocFailed<T>) -> WorldError {
        WorldError::NoMemory
    }
}

impl From<NoMemory> for WorldError {
    ghost from_gives = { λ _ e. e ≡ NoMemory };

    fn from(_: NoMemory) -> WorldError {
        WorldError::NoMemory
    }
}

/// The error of a row of the table.
pub(crate) fn in_row(e: RowError, table: Table, row: u32) -> WorldError
    ensures { refusal_of result ≡ option_map (refusal_at table row) (cause_of e) }
{
    match e {
        RowError::Fault(why) => WorldError::Bad { table, row, why },
        RowError::Limit(limit) => WorldError::Limit(limit),
        RowError::NoMemory => WorldError::NoMemory,
    }
}
