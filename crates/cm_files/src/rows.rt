// Files as they are declared, one after another, and the index of their paths, which grows with them.
ghost use Rattle.std.specs.Prelude.{◌≡◌, ◌+◌, ◌<◌, ◌^◌, ◌++◌, ◌∷◌, [], false, IfSome, length};
ghost use Rattle.cm_base.specs.Outcome.{OrNoMemory};
ghost use Rattle.cm_files.specs.Fault.{has_path};
ghost use Rattle.model_cred.specs.Files.{row_named};

use crate::FileRow;
use crate::index::{Index, find, free_place};
use cm_base::NoMemory;
use std::alloc::Global;
use std::marker::Model;

/// Declared files, fewer than 2^32, each named by its place, from 0 on. A path is found among them by halves.
#[derive(Debug, Drop)]
pub struct FileRows {
    list: Vec<FileRow>,
    // Where each path is found.
    index: Index,
}

impl Model for FileRows {
    ghost use Rattle.std.specs.Prelude.{List, ◌<◌, ◌^◌, length};
    ghost use Rattle.cm_files.specs.Index.{HasKeys, IsIndex};
    ghost use Rattle.model_cred.specs.Files as model;

    ghost Value = { List model.FileRow };

    ghost view = { λ rows. rows.list.items };

    ghost invariant = { λ rows.
        (length rows.list.items < 2 ^ 32)
        × (IsIndex rows.list.items (length rows.list.items) rows.index.order.items
        × HasKeys rows.list.items rows.index.order.items rows.index.keys.items) };
}

impl FileRows {
    /// No files. It takes no memory.
    pub fn none(alloc: Global) -> FileRows
        ensures { result ≡ [] }
    {
        FileRows {
            list: Vec::new(alloc),
            index: Index::none(alloc),
        }
    }

    /// One file more, whose path none of these has. It fails only where memory runs out.
    pub fn with(self, row: FileRow) -> Result<FileRows, NoMemory>
        requires fresh { has_path row.path self ≡ false }
        requires room { length self + 1 < 2 ^ 32 }
        ensures { OrNoMemory result (λ rows. rows ≡ self ++ row ∷ []) }
    {
        let FileRows {
            mut list,
            mut index,
        } = self;
        let n = list.len();
        list.push(row)?;
        match free_place(&list, &index, n) {
            Some(place) => index.put(&list, n as u32, place)?,
            None => unreachable!(),
        }
        Ok(FileRows { list, index })
    }

    /// The number of the file of that path. None exactly where none has it. It takes no memory.
    pub fn find(&self, path: &[u8]) -> Option<u32>
        ensures named { result ≡ row_named self.now path.now }
        ensures within { IfSome result (λ n. n < length self.now) }
    {
        find(&self.list, &self.index, path)
    }

    /// The files, in their order. It takes no memory.
    pub fn items(&self) -> &[FileRow]
        ensures { result.now ≡ self.now }
    {
        &self.list
    }

    /// The same, as a list of its own. It takes no memory.
    pub fn into_vec(self) -> Vec<FileRow>
        ensures rows { result.items ≡ self }
        ensures few { length result.items < 2 ^ 32 }
    {
        let FileRows { list, .. } = self;
        list
    }
}
