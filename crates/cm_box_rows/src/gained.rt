// What the calls that set ids, groups, capabilities and securebits add to a row, as a row.
ghost use Rattle.std.specs.Prelude.{◌≡◌, IsTrue};
ghost use Rattle.cm_base.specs.Outcome.{OrNoMemory};
ghost use Rattle.cm_idset.specs.Held.{Held};
ghost use Rattle.cm_sets.specs.Sets.{AreSame};
ghost use Rattle.cm_box_rows.specs.Kinds.{SettableId, SpreadsId, GainsFsId, id_row};
ghost use Rattle.cm_box_rows.specs.Rows.{RowHolds, AreSameRows};
ghost use Rattle.model_box.specs.Gains.{GainsGroups, GainsInheritable, GainsRoot};

use crate::BoxRow;
use crate::ids::settable;
use crate::kind::{IdKind, effective_ids};
use cm_base::{Cap, NoMemory};
use cm_idset::IdSet;
use cm_sets::{Flag, SetLike};
use std::alloc::Global;

/// New effective ids, with what becomes of them and of the old ones. It fails only where memory runs out.
pub fn ids_gained(alloc: Global, kind: IdKind, row: &BoxRow, new: IdSet) -> Result<BoxRow, NoMemory>
    ensures { OrNoMemory result (λ r. AreSameRows (RowHolds r) (SpreadsId kind (RowHolds row.now) (Held new))) }
{
    let old = effective_ids(kind, row);
    let three = old.join(alloc, &new)?;
    let fs = old.join(alloc, &new)?;
    Ok(ids_alone(alloc, kind, three, new, fs))
}

// A row that holds ids of one kind alone.
fn ids_alone(alloc: Global, kind: IdKind, three: IdSet, effective: IdSet, fs: IdSet) -> BoxRow
    ensures { result ≡ id_row kind three effective fs }
{
    match kind {
        IdKind::Users => BoxRow {
            u: three,
            eu: effective,
            fu: fs,
            ..BoxRow::least(alloc)
        },
        IdKind::Groups => BoxRow {
            g: three,
            eg: effective,
            fg: fs,
            ..BoxRow::least(alloc)
        },
    }
}

/// By setuid(2), setreuid(2) and setresuid(2), or the calls for group ids alike. It fails only where memory runs out.
pub fn set_ids_gained(alloc: Global, kind: IdKind, row: &BoxRow) -> Result<BoxRow, NoMemory>
    ensures { OrNoMemory result (λ r. AreSameRows (RowHolds r)
        (SpreadsId kind (RowHolds row.now) (SettableId kind (RowHolds row.now)))) }
{
    let new = settable_ids(alloc, kind, row)?;
    ids_gained(alloc, kind, row, new)
}

/// By setfsuid(2) or setfsgid(2). It fails only where memory runs out.
pub fn set_fs_gained(alloc: Global, kind: IdKind, row: &BoxRow) -> Result<BoxRow, NoMemory>
    ensures { OrNoMemory result (λ r. AreSameRows (RowHolds r) (GainsFsId kind (RowHolds row.now))) }
{
    let fs = settable_ids(alloc, kind, row)?;
    let none = IdSet::empty(alloc);
    Ok(ids_alone(alloc, kind, none, IdSet::empty(alloc), fs))
}

// The ids that members can set.
fn settable_ids(alloc: Global, kind: IdKind, row: &BoxRow) -> Result<IdSet, NoMemory>
    ensures { OrNoMemory result (λ ids. AreSame (Held ids) (SettableId kind (RowHolds row.now))) }
{
    match kind {
        IdKind::Users => settable(alloc, &row.u, &row.mu, row.p.holds(&Cap::SETUID)),
        IdKind::Groups => settable(alloc, &row.g, &row.mg, row.p.holds(&Cap::SETGID)),
    }
}

/// By setgroups(2), where the word of the space isn't "deny".
pub fn set_groups_gained(alloc: Global, row: &BoxRow) -> Result<BoxRow, NoMemory>
    ensures { OrNoMemory result (λ r. AreSameRows (RowHolds r) (GainsGroups (RowHolds row.now))) }
{
    if !row.p.holds(&Cap::SETGID) {
        return Ok(BoxRow::least(alloc));
    }
    let s = row.mg.join(alloc, &row.mg)?;
    Ok(BoxRow {
        s,
        ..BoxRow::least(alloc)
    })
}

/// By capset(2).
pub fn cap_set_gained(alloc: Global, row: &BoxRow) -> Result<BoxRow, NoMemory>
    ensures { OrNoMemory result (λ r. AreSameRows (RowHolds r) (GainsInheritable (RowHolds row.now))) }
{
    let i = settable(alloc, &row.p, &row.b, row.p.holds(&Cap::SETPCAP))?;
    Ok(BoxRow {
        i,
        ..BoxRow::least(alloc)
    })
}

/// By PR_SET_SECUREBITS (prctl(2)).
pub fn secure_bits_gained(alloc: Global, row: &BoxRow) -> BoxRow
    ensures { AreSameRows (RowHolds result) (GainsRoot (RowHolds row.now)) }
{
    if !row.p.holds(&Cap::SETPCAP) {
        return BoxRow::least(alloc);
    }
    let r = Flag(row.k.holds(&()));
    BoxRow {
        r,
        ..BoxRow::least(alloc)
    }
}
