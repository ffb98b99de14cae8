// The two kinds of ids, and the sets of a row by kind.
ghost use Rattle.cm_sets.specs.Sets.{AreSame};
ghost use Rattle.cm_idset.specs.Held.{Held};
ghost use Rattle.cm_box_rows.specs.Kinds.{effective, fs};
ghost use Rattle.cm_box_rows.specs.Rows.{RowHolds};

use crate::BoxRow;
use cm_idset::IdSet;

/// Ids of users and of groups, where one piece of code serves both.
#[derive(Clone, Copy, Debug, PartialEq, Eq)]
pub enum IdKind {
    Users,
    Groups,
}

// The effective ids of the kind.
pub(crate) fn effective_ids(kind: IdKind, row: &BoxRow) -> &IdSet
    ensures { AreSame (Held result.now) (RowHolds row.now (effective kind)) }
{
    match kind {
        IdKind::Users => &row.eu,
        IdKind::Groups => &row.eg,
    }
}

// The fs ids of the kind.
pub(crate) fn fs_ids(kind: IdKind, row: &BoxRow) -> &IdSet
    ensures { AreSame (Held result.now) (RowHolds row.now (fs kind)) }
{
    match kind {
        IdKind::Users => &row.fu,
        IdKind::Groups => &row.fg,
    }
}
