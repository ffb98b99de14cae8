// Filling a table: row by row the index grows, and the view of the row is worked out.
ghost use Rattle.std.specs.Prelude.{◌≡◌, ◌+◌, ◌<◌, ◌^◌, ◌++◌, ◌∷◌, [], None, All, IfErr, IfOk, OnOk, length, map, take, slice_index_or};
ghost use Rattle.cm_files.specs.Fault.{Diagnoses, first_fault, row_fault};
ghost use Rattle.cm_files.specs.Index.{HasKeys, IsIndex, no_row};
ghost use Rattle.cm_files.specs.Table.{seen_on};
ghost use Rattle.model_cred.specs.Files.{KeepsRow};

use crate::fault::link_fault;
use crate::index::{Index, free_place};
use crate::view::view_on;
use crate::{BadFiles, FileRow, FileView, Mount};
use std::alloc::Global;

/// The index of rows and their views.
#[derive(Drop)]
pub(crate) struct Filled {
    pub index: Index,
    pub views: Vec<FileView>,
}

// The index and the views of all rows, or the fault of the first row that has one.
pub(crate) fn fill(alloc: Global, mounts: &[Mount], rows: &[FileRow]) -> Result<Filled, BadFiles>
    requires { length rows.now < 2 ^ 32 }
    ensures index { IfOk result (λ filled. IsIndex rows.now (length rows.now) filled.index.order.items) }
    ensures keys { IfOk result (λ filled. HasKeys rows.now filled.index.order.items filled.index.keys.items) }
    ensures seen { IfOk result (λ filled. filled.views.items ≡ map (seen_on mounts.now) rows.now) }
    ensures keeps { OnOk result (All KeepsRow rows.now) }
    ensures fine { OnOk result (first_fault (length mounts.now) [] rows.now ≡ None) }
    ensures refused { IfErr result (λ e. Diagnoses e (first_fault (length mounts.now) [] rows.now)) }
{
    let mut filled = Filled {
        index: Index::with_capacity(alloc, rows.len())?,
        views: Vec::with_capacity(alloc, rows.len())?,
    };
    for n in 0..rows.len() {
        add_row(mounts, rows, n, &mut filled)?;
    }
    Ok(filled)
}

// The row of that number comes to those before it, or its fault is told.
fn add_row(
    mounts: &[Mount],
    rows: &[FileRow],
    n: usize,
    filled: &mut Filled,
) -> Result<(), BadFiles>
    requires within { n < length rows.now }
    requires few { length rows.now < 2 ^ 32 }
    requires index { IsIndex rows.now n filled.old.index.order.items }
    requires keys { HasKeys rows.now filled.old.index.order.items filled.old.index.keys.items }
    ensures index { OnOk result (IsIndex rows.now (n + 1) filled.new.index.order.items) }
    ensures keys { OnOk result (HasKeys rows.now filled.new.index.order.items filled.new.index.keys.items) }
    ensures seen { OnOk result (filled.new.views.items ≡ filled.old.views.items ++ seen_on mounts.now (slice_index_or rows.now n no_row) ∷ []) }
    ensures keeps { OnOk result (KeepsRow (slice_index_or rows.now n no_row)) }
    ensures fine { OnOk result (row_fault (length mounts.now) (take n rows.now) (slice_index_or rows.now n no_row) ≡ None) }
    ensures refused { IfErr result (λ e. Diagnoses e (row_fault (length mounts.now) (take n rows.now) (slice_index_or rows.now n no_row))) }
{
    let Some(place) = free_place(rows, &filled.index, n) else {
        return Err(BadFiles::Twice(n as u32));
    };
    let row = &rows[n];
    if let Some(fault) = link_fault(mounts, &rows[..n], row) {
        return Err(fault);
    }
    filled.index.put(rows, n as u32, place)?;
    filled
        .views
        .push(view_on(&mounts[row.mount as usize], row))?;
    Ok(())
}
