// Files that can't be read by place, such as pipes, FIFOs and terminals: what is read of one is gone.
use std::alloc::{AllocError, Global};
use std::fs::OpenFile;
use std::os::unix::fs::MetadataExt;

/// Which of some names stood for such a file when it was opened, and for which.
#[derive(Drop)]
pub(crate) struct Streams {
    known: Vec<Option<Stream>>,
}

/// Such a file, by what tells files apart (inode(7), "Device where inode resides", "Inode number").
#[derive(Clone, Copy, PartialEq, Eq)]
struct Stream {
    dev: u64,
    ino: u64,
}

impl Streams {
    /// Of so many names, none of which stood for one yet.
    pub(crate) fn none(alloc: Global, names: usize) -> Result<Streams, AllocError> {
        Ok(Streams {
            known: vec![in alloc; None; names]?,
        })
    }

    /// Whether the name at this place stood for one.
    pub(crate) fn has(&self, name: usize) -> bool {
        matches!(self.known.get(name), Some(Some(_)))
    }

    /// Notes that the name at this place stands for one. False where that can't be told, or it was opened before, under
    /// whatever name: some of its bytes may be gone.
    pub(crate) fn note(&mut self, name: usize, file: &impl OpenFile) -> bool {
        let Ok(found) = file.metadata() else {
            return false;
        };
        let stream = Some(Stream {
            dev: found.dev(),
            ino: found.ino(),
        });
        if self.known.contains(&stream) {
            return false;
        }
        match self.known.get_mut(name) {
            Some(known) => {
                *known = stream;
                true
            }
            None => false,
        }
    }
}
