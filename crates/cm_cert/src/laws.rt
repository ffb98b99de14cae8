// Laws of the texts of bounds. The functions do nothing but look at the bounds: what their types keep makes them rows
// of which the laws of the definitions speak.
ghost use Rattle.std.specs.Prelude.{◌≡◌, ◌*◌, Ok, length};
ghost use Rattle.model_cert.specs.Document.{certificate};
ghost use Rattle.model_cert.specs.Laws.{AreRows};
ghost use Rattle.model_cert.specs.Written.{certificate_text};

use crate::seeing::see_rows;
use cm_box::Bounds;

/// Whoever made the bounds: in each row the intervals of the sets of ids ascend and are apart, and the sets of
/// capabilities have capabilities alone.
pub fn bounds_have_lawful_sets(b: &Bounds)
    ensures { AreRows b.now }
{
    see_rows(b.rows.items());
}

/// What `write_bounds` writes, `read_bounds` reads as the same bounds, where there are two rows for each space.
#[tactic(auto, using(model_cert::proofs::Stated::round_trip))]
pub fn written_bounds_are_read(b: &Bounds, spaces: u32)
    requires { length b.now ≡ 2 * spaces }
    ensures { certificate spaces (certificate_text b.now) ≡ Ok b.now }
{
    bounds_have_lawful_sets(b);
}

/// For two bounds `write_bounds` writes two texts.
#[tactic(auto, using(model_cert::proofs::Stated::one_text_one_bounds))]
pub fn two_bounds_have_two_texts(one: &Bounds, other: &Bounds)
    ensures { certificate_text one.now ≡ certificate_text other.now → one.now ≡ other.now }
{
    bounds_have_lawful_sets(one);
    bounds_have_lawful_sets(other);
}
