//! The rows of a world's text: the keys that a table may have and the kinds of their values, the faults of a row that are
//! alike for all tables, the values at keys, and what these stand for: ids, sets, id maps, modes, attributes. The
//! definitions are in model_text/specs (Toml, Keys, MapText, MountText, FileText, ProcessText).
#![tactic(auto)]

mod checks;
mod error;
mod extents;
mod file_parts;
mod flags;
mod ids;
mod kept_text;
mod key;
mod kinds;
mod maps;
mod mount_maps;
mod row_space;
mod sets;
mod values;

pub use checks::{check_keys, range_fault, shape_fault};
pub use error::RowError;
pub use extents::extents_at;
pub use file_parts::{caps_of_row, has_path, interpreter_of_row, mode_of_text};
pub use flags::{LAST_SECUREBITS, no_new_privs_of, securebits_of};
pub use ids::{groups_of, ids_at};
pub use kept_text::kept;
pub use key::{Key, Kind, Need};
pub use kinds::LAST_ID;
pub use maps::{map_at, stored_under};
pub use mount_maps::{MountMaps, maps_of_row};
pub use row_space::space_of_row;
pub use sets::{FiveSets, sets_declared};
pub use values::{
    flag_at, has_key, is_text_at, items_at, number_at, number_from, number_or, text_at, text_or,
    value_at,
};
