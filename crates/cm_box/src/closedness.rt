// Whether bounds are closed.
ghost use Rattle.std.specs.Prelude.{◌≡◌, ◌↔◌, ℕ, ◌<◌, ◌*◌, ◌^◌, IsTrue, IfNone, IfSome, length};
ghost use Rattle.cm_filter.specs.Filters.{permits};
ghost use Rattle.cm_box.specs.Places.{row_of};
ghost use Rattle.cm_box_rows.specs.Rows.{RowHolds, RowsHold, HoldsAll};
ghost use Rattle.cm_box.specs.Rules.{rule_of, is_permitted};
ghost use Rattle.cm_box.specs.Closing.{Gains, GroupsAllowed, CreateHeld, JoinHeld};
ghost use Rattle.cm_box.specs.Closing.{ClosedIn, IsFirstOpenRow, IsFirstOpen};
ghost use Rattle.cm_box.specs.Mapping.{IdsWritten};
ghost use Rattle.cm_box_rows.specs.Kinds.{SpreadsId, mapped};
ghost use Rattle.cm_sets.specs.Sets.{IsWithin};
ghost use Rattle.cm_box_rows.specs.Programs.{GivenByFile};
ghost use Rattle.cm_box_rows.specs.Spread.{CanMakeIn};
ghost use Rattle.model_box.specs.Closed.{Closed, ClosedAt, ByMaps};
ghost use Rattle.model_box.specs.Spread.{Brings};
ghost use Rattle.model_box.specs.Row.{Standing, HasMembers, space_under};

use crate::caps::{caps_by_files_held, caps_by_root_held};
use crate::joins::joins_held;
use crate::maps::{is_written, map_call};
use crate::place::Place;
use crate::rules::RULES;
use crate::{Bounds, BoxRow, Rule};
use cm_base::SpaceId;
use cm_box_rows::{
    IdKind, brings_held, can_make, cap_set_held, fresh_ids_held, given_within, new_ids_held,
    secure_bits_held, set_fs_held, set_groups_held, set_ids_held, spread_held,
};
use cm_files::FileTable;
use cm_filter::{CallKind, Filter};
use cm_sets::SetLike;
use cm_state::{Spaces, State};

// A call is permitted on which the rule rests.
pub(crate) fn permits_rule(filter: Filter, rule: Rule) -> bool
    ensures { result ≡ is_permitted (permits filter) (rule_of rule) }
{
    match rule {
        Rule::SetUid => filter.permits(CallKind::SetUid)
            || filter.permits(CallKind::SetReUid)
            || filter.permits(CallKind::SetResUid),
        Rule::SetFsUid => filter.permits(CallKind::SetFsUid),
        Rule::SetGid => filter.permits(CallKind::SetGid)
            || filter.permits(CallKind::SetReGid)
            || filter.permits(CallKind::SetResGid),
        Rule::SetFsGid => filter.permits(CallKind::SetFsGid),
        Rule::SetGroups => filter.permits(CallKind::SetGroups),
        Rule::CapSet => filter.permits(CallKind::CapSet),
        Rule::SecureBits => filter.permits(CallKind::SecureBits),
        Rule::ExecUid => filter.permits(CallKind::Exec),
        Rule::ExecGid => filter.permits(CallKind::Exec),
        Rule::ExecCaps => filter.permits(CallKind::Exec),
        Rule::ExecRoot => filter.permits(CallKind::Exec),
        Rule::Create => filter.permits(CallKind::Unshare) || filter.permits(CallKind::CloneUser),
        Rule::Join => filter.permits(CallKind::SetNs),
        Rule::Maps => filter.permits(CallKind::WriteUidMap)
            || filter.permits(CallKind::WriteGidMap),
    }
}

// The row holds what its members can gain by one of the first eleven rules.
fn gains_held(st: &State, files: &FileTable, bounds: &Bounds, rule: Rule, at: Place) -> bool
    requires rows { length bounds.now ≡ 2 * length st.now.spaces }
    requires few { length st.now.spaces < 2 ^ 31 }
    requires stands { space_under (row_of at) < length st.now.spaces }
    ensures { IsTrue result ↔ HoldsAll (RowsHold bounds.now (row_of at))
        (Gains files.now st.now.spaces (RowsHold bounds.now) (rule_of rule) (row_of at)) }
{
    let row = bounds.row(at);
    match rule {
        Rule::SetUid => set_ids_held(IdKind::Users, row),
        Rule::SetFsUid => set_fs_held(IdKind::Users, row),
        Rule::SetGid => set_ids_held(IdKind::Groups, row),
        Rule::SetFsGid => set_fs_held(IdKind::Groups, row),
        Rule::SetGroups => groups_held(&st.spaces, at.space(), row),
        Rule::CapSet => cap_set_held(row),
        Rule::SecureBits => secure_bits_held(row),
        Rule::ExecUid => exec_ids_held(IdKind::Users, files, &st.spaces, at.space(), row),
        Rule::ExecGid => exec_ids_held(IdKind::Groups, files, &st.spaces, at.space(), row),
        Rule::ExecCaps => caps_by_files_held(files, &st.spaces, bounds, at),
        Rule::ExecRoot => caps_by_root_held(&st.spaces, bounds, at),
        Rule::Create => true,
        Rule::Join => true,
        Rule::Maps => true,
    }
}

// The row holds what comes by setgroups(2), which the word "deny" of the space excludes.
fn groups_held(spaces: &Spaces, n: SpaceId, row: &BoxRow) -> bool
    requires { n.0 < length spaces.now }
    ensures { IsTrue result ↔ HoldsAll (RowHolds row.now) (GroupsAllowed spaces.now n.0 (RowHolds row.now)) }
{
    let space = spaces.standing(n);
    if space.deny {
        return true;
    }
    set_groups_held(row)
}

// The row holds the owners or groups that programs give, and the effective ids are among the real, saved and fs ids.
fn exec_ids_held(kind: IdKind, files: &FileTable, spaces: &Spaces, n: SpaceId, row: &BoxRow) -> bool
    requires { n.0 < length spaces.now }
    ensures { IsTrue result ↔ HoldsAll (RowHolds row.now)
        (SpreadsId kind (RowHolds row.now) (GivenByFile kind files.now spaces.now n.0 (RowHolds row.now))) }
{
    if !given_within(kind, files, spaces, n, row) {
        return false;
    }
    spread_held(kind, row)
}

// The fresh row of a space holds what its makers bring.
fn create_held(spaces: &Spaces, bounds: &Bounds, at: Place) -> bool
    requires rows { length bounds.now ≡ 2 * length spaces.now }
    requires few { length spaces.now < 2 ^ 31 }
    requires stands { space_under (row_of at) < length spaces.now }
    ensures { IsTrue result ↔ CreateHeld spaces.now (RowsHold bounds.now) (row_of at) }
{
    match at {
        Place::Standing(_) => true,
        Place::Fresh(n) => made_held(spaces, n, bounds.row(Place::Standing(n)), bounds.row(at)),
    }
}

// The fresh row holds what the members of the standing row bring, if they can make a space.
fn made_held(spaces: &Spaces, n: SpaceId, row: &BoxRow, fresh: &BoxRow) -> bool
    requires { n.0 < length spaces.now }
    ensures { IsTrue result ↔ (CanMakeIn spaces.now n.0 (RowHolds row.now)
        → HoldsAll (RowHolds fresh.now) (Brings (RowHolds row.now))) }
{
    if !can_make(spaces, n, row) {
        return true;
    }
    brings_held(row, fresh)
}

// The row of a standing space holds what those above it bring that can join it.
fn join_held(spaces: &Spaces, bounds: &Bounds, at: Place) -> bool
    requires rows { length bounds.now ≡ 2 * length spaces.now }
    requires few { length spaces.now < 2 ^ 31 }
    requires stands { space_under (row_of at) < length spaces.now }
    ensures { IsTrue result ↔ JoinHeld spaces.now (RowsHold bounds.now) (row_of at) }
{
    match at {
        Place::Standing(n) => joins_held(spaces, bounds, n, bounds.row(at)),
        Place::Fresh(_) => true,
    }
}

// The row holds what can come into the maps that aren't written.
fn maps_held(filter: Filter, spaces: &Spaces, bounds: &Bounds, at: Place) -> bool
    requires rows { length bounds.now ≡ 2 * length spaces.now }
    requires few { length spaces.now < 2 ^ 31 }
    requires stands { space_under (row_of at) < length spaces.now }
    ensures { IsTrue result ↔ HoldsAll (RowsHold bounds.now (row_of at))
        (ByMaps (permits filter) spaces.now (RowsHold bounds.now) (row_of at)) }
{
    if !ids_mapped_held(IdKind::Users, filter, spaces, bounds, at) {
        return false;
    }
    ids_mapped_held(IdKind::Groups, filter, spaces, bounds, at)
}

// The row maps the ids that can come into its maps of that kind.
fn ids_mapped_held(
    kind: IdKind,
    filter: Filter,
    spaces: &Spaces,
    bounds: &Bounds,
    at: Place,
) -> bool
    requires rows { length bounds.now ≡ 2 * length spaces.now }
    requires few { length spaces.now < 2 ^ 31 }
    requires stands { space_under (row_of at) < length spaces.now }
    ensures { IsTrue result ↔ IsWithin (ByMaps (permits filter) spaces.now (RowsHold bounds.now) (row_of at)
        (mapped kind)) (RowsHold bounds.now (row_of at) (mapped kind)) }
{
    if !filter.permits(map_call(kind)) {
        return true;
    }
    match at {
        Place::Standing(n) => ids_written_held(kind, spaces, bounds, n),
        Place::Fresh(n) => {
            let fresh = bounds.row(at);
            if fresh.eu.is_empty() {
                return true;
            }
            fresh_ids_held(kind, bounds.row(Place::Standing(n)), fresh)
        }
    }
}

// The row of a standing space maps the ids that can come into its map from its parent, where it isn't written.
fn ids_written_held(kind: IdKind, spaces: &Spaces, bounds: &Bounds, n: SpaceId) -> bool
    requires rows { length bounds.now ≡ 2 * length spaces.now }
    requires few { length spaces.now < 2 ^ 31 }
    requires stands { n.0 < length spaces.now }
    ensures { IsTrue result ↔ IsWithin (IdsWritten kind spaces.now (RowsHold bounds.now) n.0)
        (RowsHold bounds.now (Standing n.0) (mapped kind)) }
{
    let space = spaces.standing(n);
    if is_written(kind, space) {
        return true;
    }
    match spaces.parent(n) {
        Some(q) => new_ids_held(
            kind,
            bounds.row(Place::Standing(n)),
            bounds.row(Place::Standing(q)),
            space.owner,
        ),
        None => true,
    }
}

// The rule is closed at the row.
pub(crate) fn closed_at(
    st: &State,
    files: &FileTable,
    filter: Filter,
    bounds: &Bounds,
    rule: Rule,
    at: Place,
) -> bool
    requires rows { length bounds.now ≡ 2 * length st.now.spaces }
    requires few { length st.now.spaces < 2 ^ 31 }
    requires stands { space_under (row_of at) < length st.now.spaces }
    ensures { IsTrue result ↔ ClosedAt (permits filter) files.now st.now.spaces (RowsHold bounds.now) (rule_of rule)
        (row_of at) }
{
    if !permits_rule(filter, rule) {
        return true;
    }
    match rule {
        Rule::Create => create_held(&st.spaces, bounds, at),
        Rule::Join => join_held(&st.spaces, bounds, at),
        Rule::Maps => maps_held(filter, &st.spaces, bounds, at),
        _ => members_gain_held(st, files, bounds, rule, at),
    }
}

// The row holds what its members can gain by one of the first eleven rules, if it has any.
fn members_gain_held(st: &State, files: &FileTable, bounds: &Bounds, rule: Rule, at: Place) -> bool
    requires rows { length bounds.now ≡ 2 * length st.now.spaces }
    requires few { length st.now.spaces < 2 ^ 31 }
    requires stands { space_under (row_of at) < length st.now.spaces }
    ensures { IsTrue result ↔ (HasMembers (RowsHold bounds.now (row_of at)) → HoldsAll (RowsHold bounds.now (row_of at))
        (Gains files.now st.now.spaces (RowsHold bounds.now) (rule_of rule) (row_of at))) }
{
    let row = bounds.row(at);
    if row.eu.is_empty() {
        return true;
    }
    gains_held(st, files, bounds, rule, at)
}

// The first row at which the rule isn't closed.
fn open_row(
    st: &State,
    files: &FileTable,
    filter: Filter,
    bounds: &Bounds,
    rule: Rule,
) -> Option<u32>
    requires rows { length bounds.now ≡ 2 * length st.now.spaces }
    requires few { length st.now.spaces < 2 ^ 31 }
    ensures none { IfNone result (ClosedIn (permits filter) files.now st.now.spaces (RowsHold bounds.now)
        (rule_of rule)) }
    ensures first { IfSome result (IsFirstOpenRow (permits filter) files.now st.now.spaces (RowsHold bounds.now)
        (rule_of rule)) }
{
    for row in 0..2 * st.spaces.count() {
        if !closed_at(st, files, filter, bounds, rule, Place::of_number(row)) {
            return Some(row);
        }
    }
    None
}

/// The first rule and row at which the bounds aren't closed under the filter, by rule and then by row; None exactly
/// where they are closed. The bounds have two rows for each space, and fewer than 2^31 spaces stand. It takes no
/// memory.
pub fn closed(st: &State, files: &FileTable, filter: Filter, bounds: &Bounds) -> Option<(Rule, u32)>
    requires rows { length bounds.now ≡ 2 * length st.now.spaces }
    requires few { length st.now.spaces < 2 ^ 31 }
    ensures none { IfNone result (Closed (permits filter) files.now st.now.spaces (RowsHold bounds.now)) }
    ensures first { IfSome result (λ found. IsFirstOpen (permits filter) files.now st.now.spaces (RowsHold bounds.now)
        (rule_of found.0) found.1) }
{
    for k in 0..RULES {
        let rule = Rule::of_number(k);
        if let Some(row) = open_row(st, files, filter, bounds, rule) {
            return Some((rule, row));
        }
    }
    None
}
