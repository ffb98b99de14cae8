// The securebits and no_new_privs that a row declares (capabilities(7), prctl(2)).
ghost use Rattle.std.specs.Prelude.{◌≡◌, codes};
ghost use Rattle.model_text.specs.Toml.{flag_of, number_or};
ghost use Rattle.toml.specs.Data.{get_member};
ghost use Rattle.toml.specs.View.{table_view};

use crate::{flag_at, number_or};
use cm_base::SecBits;
use toml::Table;

/// The greatest number of securebits: eight flags (capabilities(7)).
pub const LAST_SECUREBITS: u32 = 255;

/// The securebits that a row declares, 0 where it declares none.
pub fn securebits_of(row: &Table) -> SecBits
    ensures { result.0 ≡ number_or 0 255 0 (codes "securebits") (table_view row.now) }
{
    SecBits(number_or(row, "securebits", 0, LAST_SECUREBITS, 0) as u8)
}

/// The row sets no_new_privs.
pub fn no_new_privs_of(row: &Table) -> bool
    ensures { result ≡ flag_of (get_member (codes "no_new_privs") (table_view row.now)) }
{
    flag_at(row, "no_new_privs")
}
