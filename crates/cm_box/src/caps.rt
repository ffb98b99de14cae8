// The capabilities that programs bring to the members of a row: by their attributes, and by root's ids.
ghost use Rattle.std.specs.Prelude.{◌≡◌, ◌↔◌, ℕ, ◌<◌, ◌*◌, ◌^◌, IsTrue, length};
ghost use Rattle.cm_base.specs.CapSet.{holds};
ghost use Rattle.cm_base.specs.Outcome.{OrNoMemory};
ghost use Rattle.cm_idset.specs.Held.{Held};
ghost use Rattle.cm_box_rows.specs.Programs.{AttributeCan, CapGiven};
ghost use Rattle.cm_box.specs.Closing.{RootRuns};
ghost use Rattle.cm_box.specs.Places.{row_of};
ghost use Rattle.cm_box_rows.specs.Rows.{RowHolds, RowsHold};
ghost use Rattle.model_box.specs.Closed.{CapByFile, CapByRoot};
ghost use Rattle.model_box.specs.Files.{FileGives, TakesCan, ZeroIn, MayBeZero};
ghost use Rattle.model_box.specs.Row.{Uids, PermittedCaps, space_under};
ghost use Rattle.model_box.specs.Spread.{Meet};

use crate::above::root_can;
use crate::place::Place;
use crate::{Bounds, BoxRow};
use cm_base::{CapWord, NoMemory};
use cm_box_rows::{can_run, is_program, may_gain, may_raise_in, meet, root_of, view_at};
use cm_files::{FileTable, FileView};
use cm_idset::IdSet;
use cm_sets::{CapSet, SetLike};
use cm_state::{Space, Spaces};
use std::alloc::Global;

// Each capability that a program's attribute can bring is in the row's permitted set.
pub(crate) fn caps_by_files_held(
    files: &FileTable,
    spaces: &Spaces,
    bounds: &Bounds,
    at: Place,
) -> bool
    requires rows { length bounds.now ≡ 2 * length spaces.now }
    requires few { length spaces.now < 2 ^ 31 }
    requires stands { space_under (row_of at) < length spaces.now }
    ensures { IsTrue result ↔ ((x : ℕ) → CapByFile files.now spaces.now (RowsHold bounds.now) (row_of at) x
        → RowsHold bounds.now (row_of at) PermittedCaps x) }
{
    for k in 0..files.rows().len() {
        if !caps_by_file_held(files, k, spaces, bounds, at) {
            return false;
        }
    }
    true
}

// The same of one file. Most files have no attribute, which is looked at first, since this is asked of each file for
// each row.
fn caps_by_file_held(
    files: &FileTable,
    k: usize,
    spaces: &Spaces,
    bounds: &Bounds,
    at: Place,
) -> bool
    requires file { k < length files.now.rows }
    requires rows { length bounds.now ≡ 2 * length spaces.now }
    requires few { length spaces.now < 2 ^ 31 }
    requires stands { space_under (row_of at) < length spaces.now }
    ensures { IsTrue result ↔ ((x : ℕ) → CapGiven files.now spaces.now (RowsHold bounds.now) (row_of at) k x
        → RowsHold bounds.now (row_of at) PermittedCaps x) }
{
    let file = view_at(files, k);
    if file.caps.is_none() {
        return true;
    }
    if !attribute_can(files, k, spaces, bounds, at) {
        return true;
    }
    gives_within(bounds.row(at), file)
}

// The file is a program that a member may run, and its attribute can take effect.
fn attribute_can(files: &FileTable, k: usize, spaces: &Spaces, bounds: &Bounds, at: Place) -> bool
    requires file { k < length files.now.rows }
    requires rows { length bounds.now ≡ 2 * length spaces.now }
    requires few { length spaces.now < 2 ^ 31 }
    requires stands { space_under (row_of at) < length spaces.now }
    ensures { IsTrue result ↔ AttributeCan files.now spaces.now (RowsHold bounds.now) (row_of at) k }
{
    if !is_program(files, k) {
        return false;
    }
    let file = view_at(files, k);
    if !takes_can(spaces, bounds, at, file) {
        return false;
    }
    can_run(bounds.row(at), file)
}

// The file's attribute can take effect for a member in the row.
fn takes_can(spaces: &Spaces, bounds: &Bounds, at: Place, file: &FileView) -> bool
    requires rows { length bounds.now ≡ 2 * length spaces.now }
    requires few { length spaces.now < 2 ^ 31 }
    requires stands { space_under (row_of at) < length spaces.now }
    ensures { IsTrue result ↔ TakesCan spaces.now (RowsHold bounds.now) (row_of at) file.now }
{
    if file.caps.is_none() {
        return false;
    }
    if !may_gain(bounds.row(at)) {
        return false;
    }
    if !may_raise_in(spaces, at.space(), file) {
        return false;
    }
    root_can(spaces, bounds, at, root_of(file))
}

// What the file's own sets can bring is in the row's permitted set.
fn gives_within(row: &BoxRow, file: &FileView) -> bool
    ensures { IsTrue result ↔ ((x : ℕ) → FileGives (RowHolds row.now) file.now x → RowHolds row.now PermittedCaps x) }
{
    match file.caps {
        Some(caps) => {
            if !row.i.meet_within(&CapSet(caps.inheritable), &row.p) {
                return false;
            }
            row.b.meet_within(&CapSet(caps.permitted), &row.p)
        }
        None => true,
    }
}

// What a program gives to root as root is in the row's permitted set.
pub(crate) fn caps_by_root_held(spaces: &Spaces, bounds: &Bounds, at: Place) -> bool
    requires rows { length bounds.now ≡ 2 * length spaces.now }
    requires few { length spaces.now < 2 ^ 31 }
    requires stands { space_under (row_of at) < length spaces.now }
    ensures { IsTrue result ↔ ((x : ℕ) → CapByRoot spaces.now (RowsHold bounds.now) (row_of at) x
        → RowsHold bounds.now (row_of at) PermittedCaps x) }
{
    if !root_runs(spaces, bounds, at) {
        return true;
    }
    let row = bounds.row(at);
    if !row.i.within(&row.p) {
        return false;
    }
    row.b.within(&row.p)
}

// A program can run as root for a member of the row.
fn root_runs(spaces: &Spaces, bounds: &Bounds, at: Place) -> bool
    requires rows { length bounds.now ≡ 2 * length spaces.now }
    requires few { length spaces.now < 2 ^ 31 }
    requires stands { space_under (row_of at) < length spaces.now }
    ensures { IsTrue result ↔ RootRuns spaces.now (RowsHold bounds.now) (row_of at) }
{
    let row = bounds.row(at);
    if !row.r.holds(&()) {
        return false;
    }
    if !may_gain(row) {
        return false;
    }
    meets_zero(spaces, bounds, at)
}

// A real, effective or saved user id can be inside 0 of the spaces of the row.
fn meets_zero(spaces: &Spaces, bounds: &Bounds, at: Place) -> bool
    requires rows { length bounds.now ≡ 2 * length spaces.now }
    requires few { length spaces.now < 2 ^ 31 }
    requires stands { space_under (row_of at) < length spaces.now }
    ensures { IsTrue result ↔ Meet (RowsHold bounds.now (row_of at) Uids) (ZeroIn spaces.now (RowsHold bounds.now)
        (row_of at)) }
{
    let row = bounds.row(at);
    match at {
        Place::Standing(n) => meets_zero_of(spaces.standing(n), &row.u, &row.mu),
        Place::Fresh(_) => meet(&row.u, &row.mu),
    }
}

// An id of the set can be inside 0 of the standing space.
fn meets_zero_of(space: &Space, ids: &IdSet, mapped: &IdSet) -> bool
    ensures { IsTrue result ↔ Meet (Held ids.now) (MayBeZero space.now.uids (Held mapped.now)) }
{
    if space.uids.is_none() {
        return meet(ids, mapped);
    }
    match space.zero() {
        Some(id) => ids.holds(&id),
        None => false,
    }
}

// The capabilities that the attributes of programs can bring. It fails only where memory runs out.
pub(crate) fn caps_by_files(
    alloc: Global,
    files: &FileTable,
    spaces: &Spaces,
    bounds: &Bounds,
    at: Place,
) -> Result<CapSet, NoMemory>
    requires rows { length bounds.now ≡ 2 * length spaces.now }
    requires few { length spaces.now < 2 ^ 31 }
    requires stands { space_under (row_of at) < length spaces.now }
    ensures { OrNoMemory result (λ caps. (x : ℕ) → IsTrue (holds caps.0 x)
        ↔ CapByFile files.now spaces.now (RowsHold bounds.now) (row_of at) x) }
{
    let mut caps = CapSet(CapWord::empty());
    for k in 0..files.rows().len() {
        let more = caps_by_file(alloc, files, k, spaces, bounds, at)?;
        caps = caps.join(alloc, &more)?;
    }
    Ok(caps)
}

// Those of one file.
fn caps_by_file(
    alloc: Global,
    files: &FileTable,
    k: usize,
    spaces: &Spaces,
    bounds: &Bounds,
    at: Place,
) -> Result<CapSet, NoMemory>
    requires file { k < length files.now.rows }
    requires rows { length bounds.now ≡ 2 * length spaces.now }
    requires few { length spaces.now < 2 ^ 31 }
    requires stands { space_under (row_of at) < length spaces.now }
    ensures { OrNoMemory result (λ caps. (x : ℕ) → IsTrue (holds caps.0 x)
        ↔ CapGiven files.now spaces.now (RowsHold bounds.now) (row_of at) k x) }
{
    let file = view_at(files, k);
    if file.caps.is_none() {
        return Ok(CapSet(CapWord::empty()));
    }
    if !attribute_can(files, k, spaces, bounds, at) {
        return Ok(CapSet(CapWord::empty()));
    }
    gives(alloc, bounds.row(at), file)
}

// What the file's own sets can bring.
fn gives(alloc: Global, row: &BoxRow, file: &FileView) -> Result<CapSet, NoMemory>
    ensures { OrNoMemory result (λ caps. (x : ℕ) → IsTrue (holds caps.0 x) ↔ FileGives (RowHolds row.now) file.now x) }
{
    match file.caps {
        Some(caps) => {
            let inherited = row.i.meet(alloc, &CapSet(caps.inheritable))?;
            let permitted = row.b.meet(alloc, &CapSet(caps.permitted))?;
            inherited.join(alloc, &permitted)
        }
        None => Ok(CapSet(CapWord::empty())),
    }
}

// What a program gives to root as root. It fails only where memory runs out.
pub(crate) fn caps_by_root(
    alloc: Global,
    spaces: &Spaces,
    bounds: &Bounds,
    at: Place,
) -> Result<CapSet, NoMemory>
    requires rows { length bounds.now ≡ 2 * length spaces.now }
    requires few { length spaces.now < 2 ^ 31 }
    requires stands { space_under (row_of at) < length spaces.now }
    ensures { OrNoMemory result (λ caps. (x : ℕ) → IsTrue (holds caps.0 x)
        ↔ CapByRoot spaces.now (RowsHold bounds.now) (row_of at) x) }
{
    if !root_runs(spaces, bounds, at) {
        return Ok(CapSet(CapWord::empty()));
    }
    let row = bounds.row(at);
    row.i.join(alloc, &row.b)
}
