// What the members of a row can do with one declared file: whether they may run it, and what of it can count for them.
ghost use Rattle.std.specs.Prelude.{◌≡◌, ◌↔◌, ◌<◌, ◌==◌, ◌&&◌, IsTrue, IfSome, Some, length};
ghost use Rattle.cm_base.specs.Limits.{id_count};
ghost use Rattle.model_cred.specs.Intervals.{IsCanonical};
ghost use Rattle.cm_idset.specs.Held.{Held};
ghost use Rattle.cm_box_rows.specs.Rows.{RowHolds};
ghost use Rattle.cm_box_rows.specs.Programs.{AsOwner, AsGroup, AsOther, ByOverride};
ghost use Rattle.model_box.specs.Files.{CanRun, SetIdCan, IdIn, HasOther};
ghost use Rattle.model_box.specs.Row.{NewPrivs};
ghost use Rattle.model_rules.specs.FileView.{may_raise_in as model_may_raise_in};

use crate::BoxRow;
use cm_base::{Cap, SpaceId};
use cm_files::FileView;
use cm_idset::{IdSet, Interval};
use cm_sets::SetLike;
use cm_state::Spaces;

/// A member may run the file.
pub fn can_run(row: &BoxRow, file: &FileView) -> bool
    ensures { IsTrue result ↔ CanRun (RowHolds row.now) file.now }
{
    if file.noexec {
        return false;
    }
    if runs_as_owner(row, file) {
        return true;
    }
    if runs_as_group(row, file) {
        return true;
    }
    if runs_as_other(row, file) {
        return true;
    }
    runs_by_override(row, file)
}

// The owner's bit can be the one that counts.
fn runs_as_owner(row: &BoxRow, file: &FileView) -> bool
    ensures { IsTrue result ↔ AsOwner (RowHolds row.now) file.now }
{
    if !file.has_bit(0o100) {
        return false;
    }
    has_id(&row.fu, owner_of(file))
}

// The group's bit can be.
fn runs_as_group(row: &BoxRow, file: &FileView) -> bool
    ensures { IsTrue result ↔ AsGroup (RowHolds row.now) file.now }
{
    if !file.has_bit(0o010) {
        return false;
    }
    if !has_other(&row.fu, owner_of(file)) {
        return false;
    }
    if has_id(&row.fg, group_of(file)) {
        return true;
    }
    has_id(&row.s, group_of(file))
}

// The bit of the others can be.
fn runs_as_other(row: &BoxRow, file: &FileView) -> bool
    ensures { IsTrue result ↔ AsOther (RowHolds row.now) file.now }
{
    if !file.has_bit(0o001) {
        return false;
    }
    if !has_other(&row.fu, owner_of(file)) {
        return false;
    }
    has_other(&row.fg, group_of(file))
}

// CAP_DAC_OVERRIDE allows it.
fn runs_by_override(row: &BoxRow, file: &FileView) -> bool
    ensures { IsTrue result ↔ ByOverride (RowHolds row.now) file.now }
{
    if !file.has_bit(0o111) {
        return false;
    }
    if !row.p.holds(&Cap::DAC_OVERRIDE) {
        return false;
    }
    if !has_id(&row.mu, owner_of(file)) {
        return false;
    }
    has_id(&row.mg, group_of(file))
}

// The file's set-id bits can count for a member in the row of that standing space.
pub(crate) fn set_id_can(spaces: &Spaces, n: SpaceId, row: &BoxRow, file: &FileView) -> bool
    requires { n.0 < length spaces.now }
    ensures { IsTrue result ↔ SetIdCan spaces.now n.0 (RowHolds row.now) file.now }
{
    if !may_gain(row) {
        return false;
    }
    if !may_raise_in(spaces, n, file) {
        return false;
    }
    if !has_id(&row.mu, owner_of(file)) {
        return false;
    }
    has_id(&row.mg, group_of(file))
}

/// A member may lack no_new_privs.
pub fn may_gain(row: &BoxRow) -> bool
    ensures { IsTrue result ↔ RowHolds row.now NewPrivs 0 }
{
    row.n.holds(&())
}

/// Programs of the file's mount may raise privilege in the space: the mount isn't nosuid, and the space is the mount's
/// or below it (choice).
pub fn may_raise_in(spaces: &Spaces, n: SpaceId, file: &FileView) -> bool
    requires { n.0 < length spaces.now }
    ensures { result ≡ model_may_raise_in spaces.now n.0 file.now }
{
    !file.nosuid && spaces.ancestor(file.space, n)
}

// The number of the file's owner, where it has one.
pub(crate) fn owner_of(file: &FileView) -> Option<u32>
    ensures value { result ≡ file.now.owner }
    ensures is_id { IfSome result (λ id. id < id_count) }
{
    match file.owner {
        Some(id) => Some(id.number()),
        None => None,
    }
}

// The number of the file's group, where it has one.
pub(crate) fn group_of(file: &FileView) -> Option<u32>
    ensures value { result ≡ file.now.group }
    ensures is_id { IfSome result (λ id. id < id_count) }
{
    match file.group {
        Some(id) => Some(id.number()),
        None => None,
    }
}

/// The root id of the file's attribute, where it has one.
pub fn root_of(file: &FileView) -> Option<u32>
    ensures value { result ≡ file.now.root }
    ensures is_id { IfSome result (λ id. id < id_count) }
{
    match file.root {
        Some(id) => Some(id.number()),
        None => None,
    }
}

/// The id is there, and is in the set.
pub fn has_id(set: &IdSet, id: Option<u32>) -> bool
    ensures { IsTrue result ↔ IdIn id (Held set.now) }
{
    match id {
        Some(id) => set.holds(&id),
        None => false,
    }
}

// The set has an id other than that one.
fn has_other(set: &IdSet, id: Option<u32>) -> bool
    ensures { IsTrue result ↔ HasOther (Held set.now) id }
{
    match id {
        Some(id) => has_other_than(set.intervals(), id),
        None => !set.is_empty(),
    }
}

// An interval has an id other than that one.
fn has_other_than(list: &[Interval], id: u32) -> bool
    requires { IsCanonical list.now }
    ensures { IsTrue result ↔ HasOther (Held list.now) (Some id) }
{
    for ids in list {
        if !is_just(ids, id) {
            return true;
        }
    }
    false
}

// The interval is that id alone.
fn is_just(ids: &Interval, id: u32) -> bool
    ensures { result ≡ (ids.now.first == id && ids.now.last == id) }
{
    ids.first == id && ids.last == id
}
