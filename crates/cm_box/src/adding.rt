// What a rule adds to bounds, and the bounds with it.
ghost use Rattle.std.specs.Prelude.{◌≡◌, ◌↔◌, ◌⊎◌, ℕ, ◌<◌, ◌*◌, ◌^◌, length, IfNone, IfSome};
ghost use Rattle.cm_base.specs.Outcome.{OrNoMemory};
ghost use Rattle.cm_sets.specs.Sets.{AreSame};
ghost use Rattle.cm_idset.specs.Held.{Held};
ghost use Rattle.cm_filter.specs.Filters.{permits};
ghost use Rattle.cm_box.specs.Places.{row_of};
ghost use Rattle.cm_box_rows.specs.Rows.{RowHolds, RowsHold, AreSameRows};
ghost use Rattle.cm_box.specs.Rules.{rule_of};
ghost use Rattle.cm_box.specs.Closing.{Gains, GroupsAllowed, ByMaking, ByJoins, WithAdded, IsJoinedAt};
ghost use Rattle.cm_box.specs.Mapping.{IdsWritten};
ghost use Rattle.cm_box_rows.specs.Kinds.{SpreadsId, mapped};
ghost use Rattle.cm_box_rows.specs.Programs.{GivenByFile};
ghost use Rattle.cm_box_rows.specs.Spread.{MadeIn};
ghost use Rattle.model_box.specs.Closed.{Adds, ClosedAt, ByMaps, OnlyCaps, CapByFile, CapByRoot};
ghost use Rattle.model_box.specs.Row.{row_at, space_under};

use crate::caps::{caps_by_files, caps_by_root};
use crate::closedness::{closed_at, permits_rule};
use crate::joins::joins_gained;
use crate::maps::{is_written, map_call};
use crate::place::Place;
use crate::{Bounds, BoxRow, Rule, Setting};
use cm_base::{NoMemory, SpaceId};
use cm_box_rows::{
    IdKind, brought, can_make, cap_set_gained, fresh_ids, ids_gained, ids_given, new_ids,
    secure_bits_gained, set_fs_gained, set_groups_gained, set_ids_gained,
};
use cm_files::FileTable;
use cm_filter::Filter;
use cm_idset::IdSet;
use cm_sets::SetLike;
use cm_state::{Spaces, State};
use std::alloc::Global;

/// The bounds with what the rule adds to the row. The bounds have two rows for each space, the row is one of them, and
/// fewer than 2^31 spaces stand. It fails only where memory runs out.
pub fn rule(
    alloc: Global,
    rule: Rule,
    row: u32,
    setting: &Setting<'_>,
    bounds: &Bounds,
) -> Result<Bounds, NoMemory>
    requires rows { length bounds.now ≡ 2 * length setting.now.state.now.spaces }
    requires few { length setting.now.state.now.spaces < 2 ^ 31 }
    requires there { row < length bounds.now }
    ensures count { OrNoMemory result (λ new. length new ≡ length bounds.now) }
    ensures joined { OrNoMemory result (λ new. IsJoinedAt row (RowsHold bounds.now)
        (Adds (permits setting.now.filter) setting.now.files.now setting.now.state.now.spaces (RowsHold bounds.now)
        (rule_of rule) (row_at row)) (RowsHold new)) }
{
    let wider = with_added(alloc, rule, row, setting, bounds)?;
    let mut new = bounds.copy(alloc)?;
    new.put(row, wider);
    Ok(new)
}

/// The row as the rule would leave it, None exactly where it holds already what the rule adds to it. The bounds have
/// two rows for each space, the row is one of them, and fewer than 2^31 spaces stand. It fails only where memory runs
/// out.
pub fn widened(
    alloc: Global,
    rule: Rule,
    row: u32,
    setting: &Setting<'_>,
    bounds: &Bounds,
) -> Result<Option<BoxRow>, NoMemory>
    requires rows { length bounds.now ≡ 2 * length setting.now.state.now.spaces }
    requires few { length setting.now.state.now.spaces < 2 ^ 31 }
    requires there { row < length bounds.now }
    ensures closed { OrNoMemory result (λ o. IfNone o (ClosedAt (permits setting.now.filter) setting.now.files.now
        setting.now.state.now.spaces (RowsHold bounds.now) (rule_of rule) (row_at row))) }
    ensures open { OrNoMemory result (λ o. IfSome o (λ _. ClosedAt (permits setting.now.filter) setting.now.files.now
        setting.now.state.now.spaces (RowsHold bounds.now) (rule_of rule) (row_at row) → ⊥)) }
    ensures wider { OrNoMemory result (λ o. IfSome o (λ r. AreSameRows (RowHolds r) (WithAdded
        (permits setting.now.filter) setting.now.files.now setting.now.state.now.spaces (RowsHold bounds.now)
        (rule_of rule) (row_at row)))) }
{
    if closed_at(
        setting.state,
        setting.files,
        setting.filter,
        bounds,
        rule,
        Place::of_number(row),
    ) {
        return Ok(None);
    }
    let wider = with_added(alloc, rule, row, setting, bounds)?;
    Ok(Some(wider))
}

// The row with what the rule adds to it.
fn with_added(
    alloc: Global,
    rule: Rule,
    row: u32,
    setting: &Setting<'_>,
    bounds: &Bounds,
) -> Result<BoxRow, NoMemory>
    requires rows { length bounds.now ≡ 2 * length setting.now.state.now.spaces }
    requires few { length setting.now.state.now.spaces < 2 ^ 31 }
    requires there { row < length bounds.now }
    ensures { OrNoMemory result (λ r. AreSameRows (RowHolds r) (WithAdded (permits setting.now.filter)
        setting.now.files.now setting.now.state.now.spaces (RowsHold bounds.now) (rule_of rule) (row_at row))) }
{
    let at = Place::of_number(row);
    let more = added(alloc, setting, bounds, rule, at)?;
    bounds.row(at).joined(alloc, &more)
}

// What the rule adds to the row, as a row.
fn added(
    alloc: Global,
    setting: &Setting<'_>,
    bounds: &Bounds,
    rule: Rule,
    at: Place,
) -> Result<BoxRow, NoMemory>
    requires rows { length bounds.now ≡ 2 * length setting.now.state.now.spaces }
    requires few { length setting.now.state.now.spaces < 2 ^ 31 }
    requires stands { space_under (row_of at) < length setting.now.state.now.spaces }
    ensures { OrNoMemory result (λ row. AreSameRows (RowHolds row) (Adds (permits setting.now.filter)
        setting.now.files.now setting.now.state.now.spaces (RowsHold bounds.now) (rule_of rule) (row_of at))) }
{
    if !permits_rule(setting.filter, rule) {
        return Ok(BoxRow::least(alloc));
    }
    let st = setting.state;
    match rule {
        Rule::Create => made(alloc, &st.spaces, bounds, at),
        Rule::Join => joined(alloc, &st.spaces, bounds, at),
        Rule::Maps => written(alloc, setting.filter, &st.spaces, bounds, at),
        _ => {
            let row = bounds.row(at);
            if row.eu.is_empty() {
                return Ok(BoxRow::least(alloc));
            }
            gained(alloc, st, setting.files, bounds, rule, at)
        }
    }
}

// What the members of the row gain by one of the first eleven rules.
fn gained(
    alloc: Global,
    st: &State,
    files: &FileTable,
    bounds: &Bounds,
    rule: Rule,
    at: Place,
) -> Result<BoxRow, NoMemory>
    requires rows { length bounds.now ≡ 2 * length st.now.spaces }
    requires few { length st.now.spaces < 2 ^ 31 }
    requires stands { space_under (row_of at) < length st.now.spaces }
    ensures { OrNoMemory result (λ row. AreSameRows (RowHolds row)
        (Gains files.now st.now.spaces (RowsHold bounds.now) (rule_of rule) (row_of at))) }
{
    let row = bounds.row(at);
    let n = at.space();
    match rule {
        Rule::SetUid => set_ids_gained(alloc, IdKind::Users, row),
        Rule::SetFsUid => set_fs_gained(alloc, IdKind::Users, row),
        Rule::SetGid => set_ids_gained(alloc, IdKind::Groups, row),
        Rule::SetFsGid => set_fs_gained(alloc, IdKind::Groups, row),
        Rule::SetGroups => groups_gained(alloc, &st.spaces, n, row),
        Rule::CapSet => cap_set_gained(alloc, row),
        Rule::SecureBits => Ok(secure_bits_gained(alloc, row)),
        Rule::ExecUid => exec_ids_gained(alloc, IdKind::Users, files, &st.spaces, n, row),
        Rule::ExecGid => exec_ids_gained(alloc, IdKind::Groups, files, &st.spaces, n, row),
        Rule::ExecCaps => exec_caps_gained(alloc, files, &st.spaces, bounds, at),
        Rule::ExecRoot => exec_root_gained(alloc, &st.spaces, bounds, at),
        _ => Ok(BoxRow::least(alloc)),
    }
}

// By setgroups(2), which the word "deny" of the space excludes.
fn groups_gained(
    alloc: Global,
    spaces: &Spaces,
    n: SpaceId,
    row: &BoxRow,
) -> Result<BoxRow, NoMemory>
    requires { n.0 < length spaces.now }
    ensures { OrNoMemory result (λ r. AreSameRows (RowHolds r) (GroupsAllowed spaces.now n.0 (RowHolds row.now))) }
{
    let space = spaces.standing(n);
    if space.deny {
        return Ok(BoxRow::least(alloc));
    }
    set_groups_gained(alloc, row)
}

// By set-user-ID or set-group-ID programs, with what becomes of the effective ids.
fn exec_ids_gained(
    alloc: Global,
    kind: IdKind,
    files: &FileTable,
    spaces: &Spaces,
    n: SpaceId,
    row: &BoxRow,
) -> Result<BoxRow, NoMemory>
    requires { n.0 < length spaces.now }
    ensures { OrNoMemory result (λ r. AreSameRows (RowHolds r)
        (SpreadsId kind (RowHolds row.now) (GivenByFile kind files.now spaces.now n.0 (RowHolds row.now)))) }
{
    let new = ids_given(alloc, kind, files, spaces, n, row)?;
    ids_gained(alloc, kind, row, new)
}

// By the attributes of programs.
fn exec_caps_gained(
    alloc: Global,
    files: &FileTable,
    spaces: &Spaces,
    bounds: &Bounds,
    at: Place,
) -> Result<BoxRow, NoMemory>
    requires rows { length bounds.now ≡ 2 * length spaces.now }
    requires few { length spaces.now < 2 ^ 31 }
    requires stands { space_under (row_of at) < length spaces.now }
    ensures { OrNoMemory result (λ r. AreSameRows (RowHolds r)
        (OnlyCaps (CapByFile files.now spaces.now (RowsHold bounds.now) (row_of at)))) }
{
    let p = caps_by_files(alloc, files, spaces, bounds, at)?;
    Ok(BoxRow {
        p,
        ..BoxRow::least(alloc)
    })
}

// By root's ids.
fn exec_root_gained(
    alloc: Global,
    spaces: &Spaces,
    bounds: &Bounds,
    at: Place,
) -> Result<BoxRow, NoMemory>
    requires rows { length bounds.now ≡ 2 * length spaces.now }
    requires few { length spaces.now < 2 ^ 31 }
    requires stands { space_under (row_of at) < length spaces.now }
    ensures { OrNoMemory result (λ r. AreSameRows (RowHolds r)
        (OnlyCaps (CapByRoot spaces.now (RowsHold bounds.now) (row_of at)))) }
{
    let p = caps_by_root(alloc, spaces, bounds, at)?;
    Ok(BoxRow {
        p,
        ..BoxRow::least(alloc)
    })
}

// By making spaces: what the members of the standing row bring to the fresh one.
fn made(alloc: Global, spaces: &Spaces, bounds: &Bounds, at: Place) -> Result<BoxRow, NoMemory>
    requires rows { length bounds.now ≡ 2 * length spaces.now }
    requires few { length spaces.now < 2 ^ 31 }
    requires stands { space_under (row_of at) < length spaces.now }
    ensures { OrNoMemory result (λ r. AreSameRows (RowHolds r) (ByMaking spaces.now (RowsHold bounds.now)
        (row_of at))) }
{
    match at {
        Place::Standing(_) => Ok(BoxRow::least(alloc)),
        Place::Fresh(n) => made_in(alloc, spaces, n, bounds.row(Place::Standing(n))),
    }
}

// What the members of the standing row bring, if they can make a space.
fn made_in(alloc: Global, spaces: &Spaces, n: SpaceId, row: &BoxRow) -> Result<BoxRow, NoMemory>
    requires { n.0 < length spaces.now }
    ensures { OrNoMemory result (λ r. AreSameRows (RowHolds r) (MadeIn spaces.now n.0 (RowHolds row.now))) }
{
    if !can_make(spaces, n, row) {
        return Ok(BoxRow::least(alloc));
    }
    brought(alloc, row)
}

// By joining the space of a standing row.
fn joined(alloc: Global, spaces: &Spaces, bounds: &Bounds, at: Place) -> Result<BoxRow, NoMemory>
    requires rows { length bounds.now ≡ 2 * length spaces.now }
    requires few { length spaces.now < 2 ^ 31 }
    requires stands { space_under (row_of at) < length spaces.now }
    ensures { OrNoMemory result (λ r. AreSameRows (RowHolds r) (ByJoins spaces.now (RowsHold bounds.now) (row_of at))) }
{
    match at {
        Place::Standing(n) => joins_gained(alloc, spaces, bounds, n),
        Place::Fresh(_) => Ok(BoxRow::least(alloc)),
    }
}

// By writing maps.
fn written(
    alloc: Global,
    filter: Filter,
    spaces: &Spaces,
    bounds: &Bounds,
    at: Place,
) -> Result<BoxRow, NoMemory>
    requires rows { length bounds.now ≡ 2 * length spaces.now }
    requires few { length spaces.now < 2 ^ 31 }
    requires stands { space_under (row_of at) < length spaces.now }
    ensures { OrNoMemory result (λ row. AreSameRows (RowHolds row)
        (ByMaps (permits filter) spaces.now (RowsHold bounds.now) (row_of at))) }
{
    let mu = ids_mapped(alloc, IdKind::Users, filter, spaces, bounds, at)?;
    let mg = ids_mapped(alloc, IdKind::Groups, filter, spaces, bounds, at)?;
    Ok(BoxRow {
        mu,
        mg,
        ..BoxRow::least(alloc)
    })
}

// The ids that can come into the maps of the row.
fn ids_mapped(
    alloc: Global,
    kind: IdKind,
    filter: Filter,
    spaces: &Spaces,
    bounds: &Bounds,
    at: Place,
) -> Result<IdSet, NoMemory>
    requires rows { length bounds.now ≡ 2 * length spaces.now }
    requires few { length spaces.now < 2 ^ 31 }
    requires stands { space_under (row_of at) < length spaces.now }
    ensures { OrNoMemory result (λ ids. AreSame (Held ids)
        (ByMaps (permits filter) spaces.now (RowsHold bounds.now) (row_of at) (mapped kind))) }
{
    if !filter.permits(map_call(kind)) {
        return Ok(IdSet::empty(alloc));
    }
    match at {
        Place::Standing(n) => ids_written(alloc, kind, spaces, bounds, n),
        Place::Fresh(n) => {
            let fresh = bounds.row(at);
            if fresh.eu.is_empty() {
                return Ok(IdSet::empty(alloc));
            }
            fresh_ids(alloc, kind, bounds.row(Place::Standing(n)), fresh)
        }
    }
}

// The ids that can come into the map of a standing space, if it isn't written.
fn ids_written(
    alloc: Global,
    kind: IdKind,
    spaces: &Spaces,
    bounds: &Bounds,
    n: SpaceId,
) -> Result<IdSet, NoMemory>
    requires rows { length bounds.now ≡ 2 * length spaces.now }
    requires few { length spaces.now < 2 ^ 31 }
    requires stands { n.0 < length spaces.now }
    ensures { OrNoMemory result (λ ids. AreSame (Held ids) (IdsWritten kind spaces.now (RowsHold bounds.now) n.0)) }
{
    let space = spaces.standing(n);
    if is_written(kind, space) {
        return Ok(IdSet::empty(alloc));
    }
    match spaces.parent(n) {
        Some(q) => new_ids(
            alloc,
            kind,
            bounds.row(Place::Standing(n)),
            bounds.row(Place::Standing(q)),
            space.owner,
        ),
        None => Ok(IdSet::empty(alloc)),
    }
}
