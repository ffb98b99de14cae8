// The user namespace, called a space here, that the row of a mount or of a process names (choice).
ghost use Rattle.std.specs.Prelude.{◌≡◌, ◌≤◌, IfSome, length, option_map};
ghost use Rattle.model_text.specs.MountText.{space_of_row};
ghost use Rattle.toml.specs.View.{table_view};

use crate::text_or;
use cm_base::SpaceId;
use cm_declared::Names;
use toml::Table;

/// The space that a row names, the initial one where it names none. None where no space has that name.
pub fn space_of_row(names: &Names, row: &Table) -> Option<SpaceId>
    ensures number { option_map (λ s. s.0) result ≡ space_of_row names.now (table_view row.now) }
    ensures range { IfSome result (λ s. s.0 ≤ length names.now) }
{
    names.named(text_or(row, "space", "init").as_bytes())
}
