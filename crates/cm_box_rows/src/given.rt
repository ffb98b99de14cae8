// The ids that programs give to the members of a row by their set-id bits.
ghost use Rattle.std.specs.Prelude.{◌≡◌, ◌↔◌, ◌⊎◌, ℕ, ◌<◌, IsTrue, IfSome, Some, length};
ghost use Rattle.cm_base.specs.Limits.{id_count};
ghost use Rattle.cm_base.specs.Outcome.{OrNoMemory};
ghost use Rattle.cm_sets.specs.Sets.{AreSame, IsWithin};
ghost use Rattle.cm_idset.specs.Held.{Held};
ghost use Rattle.cm_box_rows.specs.Rows.{RowHolds};
ghost use Rattle.cm_box_rows.specs.Kinds.{effective};
ghost use Rattle.cm_box_rows.specs.Programs.{StandsFor, Given, IdGiven, GivenByFile};
ghost use Rattle.cm_box_rows.specs.Programs.{has_id_bit as model_has_id_bit};
ghost use Rattle.model_box.specs.Files.{is_program as model_is_program};
ghost use Rattle.model_rules.specs.FileView.{view};

use crate::BoxRow;
use crate::kind::{IdKind, effective_ids};
use crate::programs::{can_run, group_of, owner_of, set_id_can};
use cm_base::{NoMemory, SpaceId};
use cm_files::{FileTable, FileView};
use cm_idset::IdSet;
use cm_sets::SetLike;
use cm_state::Spaces;
use std::alloc::Global;

/// Each id that a program gives is among the effective ones of the row.
pub fn given_within(
    kind: IdKind,
    files: &FileTable,
    spaces: &Spaces,
    n: SpaceId,
    row: &BoxRow,
) -> bool
    requires { n.0 < length spaces.now }
    ensures { IsTrue result ↔ IsWithin (GivenByFile kind files.now spaces.now n.0 (RowHolds row.now))
        (RowHolds row.now (effective kind)) }
{
    for k in 0..files.rows().len() {
        if !file_within(kind, files, k, spaces, n, row) {
            return false;
        }
    }
    true
}

// The same of one file. Most files have no set-id bit, which is looked at first, since this is asked of each file for
// each row.
fn file_within(
    kind: IdKind,
    files: &FileTable,
    k: usize,
    spaces: &Spaces,
    n: SpaceId,
    row: &BoxRow,
) -> bool
    requires file { k < length files.now.rows }
    requires space { n.0 < length spaces.now }
    ensures { IsTrue result ↔ IsWithin (IdGiven kind files.now spaces.now n.0 (RowHolds row.now) k)
        (RowHolds row.now (effective kind)) }
{
    match id_lacking(kind, files, k, spaces, n, row) {
        Some(_) => false,
        None => true,
    }
}

/// The id that a file of the table gives, if it is a program and gives one, where the row lacks it among its effective
/// ones. Whether it gives the id is asked last, since most of what long chains of programs give is held already.
pub fn id_lacking(
    kind: IdKind,
    files: &FileTable,
    k: usize,
    spaces: &Spaces,
    n: SpaceId,
    row: &BoxRow,
) -> Option<u32>
    requires file { k < length files.now.rows }
    requires space { n.0 < length spaces.now }
    ensures is_id { IfSome result (λ id. id < id_count) }
    ensures given { (x : ℕ) → (result ≡ Some x) ↔ (IdGiven kind files.now spaces.now n.0 (RowHolds row.now) k x
        × (RowHolds row.now (effective kind) x → ⊥)) }
{
    let id = id_by_bit(kind, view_at(files, k))?;
    if effective_ids(kind, row).holds(&id) {
        return None;
    }
    given_at(kind, files, k, spaces, n, row)
}

/// The ids that programs give. It fails only where memory runs out.
pub fn ids_given(
    alloc: Global,
    kind: IdKind,
    files: &FileTable,
    spaces: &Spaces,
    n: SpaceId,
    row: &BoxRow,
) -> Result<IdSet, NoMemory>
    requires { n.0 < length spaces.now }
    ensures { OrNoMemory result (λ ids. AreSame (Held ids)
        (GivenByFile kind files.now spaces.now n.0 (RowHolds row.now))) }
{
    let mut ids = IdSet::empty(alloc);
    for k in 0..files.rows().len() {
        if has_id_bit(kind, view_at(files, k)) {
            let id = given_at(kind, files, k, spaces, n, row);
            ids = with_given(alloc, ids, id)?;
        }
    }
    Ok(ids)
}

// The id that a file of the table gives, if it is a program and gives one.
fn given_at(
    kind: IdKind,
    files: &FileTable,
    k: usize,
    spaces: &Spaces,
    n: SpaceId,
    row: &BoxRow,
) -> Option<u32>
    requires file { k < length files.now.rows }
    requires space { n.0 < length spaces.now }
    ensures is_id { IfSome result (λ id. id < id_count) }
    ensures given { (x : ℕ) → (result ≡ Some x) ↔ IdGiven kind files.now spaces.now n.0 (RowHolds row.now) k x }
{
    let id = given(kind, spaces, n, row, view_at(files, k))?;
    if !is_program(files, k) {
        return None;
    }
    Some(id)
}

// The ids with that one, if there is one. It fails only where memory runs out.
fn with_given(alloc: Global, ids: IdSet, id: Option<u32>) -> Result<IdSet, NoMemory>
    requires { IfSome id (λ id. id < id_count) }
    ensures { OrNoMemory result (λ more. (x : ℕ) → Held more x ↔ (Held ids x ⊎ (id ≡ Some x))) }
{
    let Some(id) = id else {
        return Ok(ids);
    };
    if ids.holds(&id) {
        return Ok(ids);
    }
    let one = IdSet::one(alloc, id)?;
    ids.join(alloc, &one)
}

// The id that a file gives to those who may run it.
fn given(kind: IdKind, spaces: &Spaces, n: SpaceId, row: &BoxRow, file: &FileView) -> Option<u32>
    requires { n.0 < length spaces.now }
    ensures is_id { IfSome result (λ id. id < id_count) }
    ensures given { (x : ℕ) → (result ≡ Some x) ↔ Given kind spaces.now n.0 (RowHolds row.now) file.now x }
{
    let id = id_by_bit(kind, file)?;
    if !set_id_can(spaces, n, row, file) {
        return None;
    }
    if !can_run(row, file) {
        return None;
    }
    Some(id)
}

// The id that its set-id bit stands for.
fn id_by_bit(kind: IdKind, file: &FileView) -> Option<u32>
    ensures is_id { IfSome result (λ id. id < id_count) }
    ensures id { (x : ℕ) → (result ≡ Some x) ↔ StandsFor kind file.now x }
{
    if !has_id_bit(kind, file) {
        return None;
    }
    match kind {
        IdKind::Users => owner_of(file),
        IdKind::Groups => group_of(file),
    }
}

// The file has the set-id bit of the kind, that of groups with the group execute bit alone (choice).
fn has_id_bit(kind: IdKind, file: &FileView) -> bool
    ensures { result ≡ model_has_id_bit kind file.now }
{
    match kind {
        IdKind::Users => file.has_bit(0o4000),
        IdKind::Groups => file.has_bit(0o2000) && file.has_bit(0o010),
    }
}

/// The file is no script.
pub fn is_program(files: &FileTable, k: usize) -> bool
    requires { k < length files.now.rows }
    ensures { result ≡ model_is_program files.now k }
{
    let row = &files.rows()[k];
    row.interpreter.is_none()
}

/// The file as its mount shows it.
pub fn view_at(files: &FileTable, k: usize) -> &FileView
    requires { k < length files.now.rows }
    ensures { result.now ≡ view files.now k }
{
    &files.views()[k]
}
