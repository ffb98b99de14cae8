// The table of declared mounts and files.
ghost use Rattle.std.specs.Prelude.{◌≡◌, ◌<◌, ◌^◌, None, IfErr, IfOk, OnOk, length, map, unwrap_or};
ghost use Rattle.cm_files.specs.Fault.{Diagnoses, files_fault};
ghost use Rattle.cm_files.specs.Table.{PathsDiffer, seen_on};
ghost use Rattle.model_cred.specs.Files.{FileTable, IsDeclared, KeepsFiles, file_named};
ghost use Rattle.model_rules.specs.Exec.{interpreter_of};
ghost use Rattle.model_rules.specs.FileView.{view as view_of};

use crate::filling::{Filled, fill};
use crate::index::{Index, find};
use crate::mount::see_mounts;
use crate::{BadFiles, FileRow, FileView, Mount};
use cm_base::FileRef;
use std::alloc::Global;
use std::marker::Model;

/// Declared mounts and files, each named by its place, from 0 on. Each row's mount and interpreter are in the table, no
/// interpreter is a script itself, and no two rows have one path.
#[derive(Debug, Drop)]
pub struct FileTable {
    mounts: Vec<Mount>,
    rows: Vec<FileRow>,
    // Where each path is found.
    index: Index,
    // The rows as their mounts show them.
    views: Vec<FileView>,
}

impl Model for FileTable {
    ghost use Rattle.model_cred.specs.Files as model;
    ghost use Rattle.cm_files.specs.Table.{KeepsTable};

    ghost Value = { model.FileTable };

    ghost view = { λ t. record { mounts = t.mounts.items; rows = t.rows.items } };

    ghost invariant = { λ t. KeepsTable (record { mounts = t.mounts.items; rows = t.rows.items }) t.index.order.items t.index.keys.items t.views.items };
}

impl FileTable {
    /// The table of these mounts and files, fewer than 2^32 of each. The first row with a fault is answered, of that row
    /// in this order (choice): `Twice` where its path is that of an earlier row, `NoMount` where its mount isn't there,
    /// `NoInterpreter` where its interpreter isn't an earlier row without one. Beside these it fails only where memory
    /// runs out.
    pub fn make(
        alloc: Global,
        mounts: Vec<Mount>,
        rows: Vec<FileRow>,
    ) -> Result<FileTable, BadFiles>
        requires mounts { length mounts.items < 2 ^ 32 }
        requires rows { length rows.items < 2 ^ 32 }
        ensures made { IfOk result (λ t. t ≡ record { mounts = mounts.items; rows = rows.items }) }
        ensures fine { OnOk result (files_fault mounts.items rows.items ≡ None) }
        ensures refused { IfErr result (λ e. Diagnoses e (files_fault mounts.items rows.items)) }
    {
        let filled = fill(alloc, &mounts, &rows)?;
        see_mounts(&mounts);
        let Filled { index, views } = filled;
        Ok(FileTable {
            mounts,
            rows,
            index,
            views,
        })
    }

    /// What the path names: its row, or the plain file exactly where no row has that path. It takes no memory.
    pub fn find(&self, path: &[u8]) -> FileRef
        ensures named { result ≡ file_named self.now path.now }
        ensures declared { IsDeclared self.now result }
    {
        match find(&self.rows, &self.index, path) {
            Some(n) => FileRef::Row(n),
            None => FileRef::Plain,
        }
    }

    /// The files, as they were handed in. It takes no memory.
    pub fn rows(&self) -> &[FileRow]
        ensures value { result.now ≡ self.now.rows }
        ensures keeps { KeepsFiles self.now }
        ensures differ { PathsDiffer self.now.rows }
    {
        &self.rows
    }

    /// How many files are declared, fewer than 2^32. It takes no memory.
    pub fn count(&self) -> u32
        ensures { result ≡ length self.now.rows }
    {
        self.rows.len() as u32
    }

    /// The mounts, as they were handed in. It takes no memory.
    pub fn mounts(&self) -> &[Mount]
        ensures value { result.now ≡ self.now.mounts }
        ensures keeps { KeepsFiles self.now }
    {
        &self.mounts
    }

    /// The row that runs where the given one is run: for a script that of its interpreter, else the row itself (execve(2),
    /// "Interpreter scripts"). It takes no memory.
    pub fn program(&self, row: u32) -> u32
        requires { row < length self.now.rows }
        ensures program { result ≡ unwrap_or (interpreter_of self.now row) row }
        ensures within { result < length self.now.rows }
        ensures none { interpreter_of self.now result ≡ None }
    {
        let declared = &self.rows[row as usize];
        match declared.interpreter {
            Some(n) => n,
            None => row,
        }
    }

    /// The files as their mounts show them, in their order. It takes no memory.
    pub fn views(&self) -> &[FileView]
        ensures { result.now ≡ map (seen_on self.now.mounts) self.now.rows }
    {
        &self.views
    }

    /// A row of the table as its mount shows it. It takes no memory.
    pub fn view(&self, row: u32) -> FileView
        requires { row < length self.now.rows }
        ensures { result ≡ view_of self.now row }
    {
        let v = &self.views[row as usize];
        FileView {
            owner: v.owner,
            group: v.group,
            root: v.root,
            mode: v.mode,
            caps: v.caps,
            nosuid: v.nosuid,
            noexec: v.noexec,
            space: v.space,
        }
    }
}
