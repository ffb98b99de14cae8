// The maps of a space, by the kind of their ids.
ghost use Rattle.std.specs.Prelude.{◌≡◌, is_some};
ghost use Rattle.cm_box.specs.Mapping.{call_for, map_of};

use cm_box_rows::IdKind;
use cm_filter::CallKind;
use cm_state::Space;

// The call that writes the map of these ids.
pub(crate) fn map_call(kind: IdKind) -> CallKind
    ensures { result ≡ call_for kind }
{
    match kind {
        IdKind::Users => CallKind::WriteUidMap,
        IdKind::Groups => CallKind::WriteGidMap,
    }
}

// The map of these ids is written.
pub(crate) fn is_written(kind: IdKind, space: &Space) -> bool
    ensures { result ≡ is_some (map_of kind space.now) }
{
    match kind {
        IdKind::Users => space.uids.is_some(),
        IdKind::Groups => space.gids.is_some(),
    }
}
