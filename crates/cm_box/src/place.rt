// Rows by what they are for.
ghost use Rattle.std.specs.Prelude.{◌≡◌, ◌<◌, ◌^◌};
ghost use Rattle.cm_box.specs.Places.{row_of};
ghost use Rattle.model_box.specs.Row.{row_at, row_number, space_under};

use cm_base::SpaceId;

/// The row of the members in a standing space, or of those in later spaces of which it is the nearest standing
/// ancestor.
#[derive(Clone, Copy, Debug, PartialEq, Eq)]
pub(crate) enum Place {
    Standing(SpaceId),
    Fresh(SpaceId),
}

impl Place {
    // The row of that number.
    pub(crate) fn of_number(number: u32) -> Place
        ensures { row_of result ≡ row_at number }
    {
        if number % 2 == 0 {
            Place::Standing(SpaceId(number / 2))
        } else {
            Place::Fresh(SpaceId(number / 2))
        }
    }

    // Its number.
    pub(crate) fn number(self) -> u32
        requires { space_under (row_of self) < 2 ^ 31 }
        ensures { result ≡ row_number (row_of self) }
    {
        match self {
            Place::Standing(n) => 2 * n.0,
            Place::Fresh(n) => 2 * n.0 + 1,
        }
    }

    // The standing space that it belongs to.
    pub(crate) fn space(self) -> SpaceId
        ensures { result.0 ≡ space_under (row_of self) }
    {
        match self {
            Place::Standing(n) => n,
            Place::Fresh(n) => n,
        }
    }
}
