// The set-id programs of a table, by who may run them. Only a help to find them fast: what a program gives to whom is
// asked of it each time, so nothing rests on what the lists hold.
ghost use Rattle.std.specs.Prelude.{◌<◌, length};

use cm_base::NoMemory;
use cm_box_rows::{IdKind, is_program, view_at};
use cm_files::FileTable;
use std::alloc::Global;

// An id, and a program that its holder may be able to run.
#[derive(Clone, Copy, Debug, PartialEq, Eq, PartialOrd, Ord)]
pub(crate) struct Runner {
    pub(crate) id: u32,
    pub(crate) program: u32,
}

// The programs that have a set-id bit; and for each that its owner may run, and each that its group may run, the owner
// and the group, ascending.
#[derive(Debug, Drop)]
pub(crate) struct Runners {
    pub(crate) programs: Vec<u32>,
    by_user: Vec<Runner>,
    by_group: Vec<Runner>,
}

impl Runners {
    // Those of the table. It fails only where memory runs out.
    pub(crate) fn of_table(alloc: Global, files: &FileTable) -> Result<Runners, NoMemory> {
        let mut runners = Runners {
            programs: Vec::new(alloc),
            by_user: Vec::new(alloc),
            by_group: Vec::new(alloc),
        };
        for k in 0..files.count() {
            runners.add(files, k)?;
        }
        runners.by_user.sort()?;
        runners.by_group.sort()?;
        Ok(runners)
    }

    // Puts a file to them, if it is a program with a set-id bit.
    fn add(&mut self, files: &FileTable, k: u32) -> Result<(), NoMemory>
        requires { k < length files.now.rows }
    {
        let file = view_at(files, k as usize);
        if !file.has_bit(0o6000) || !is_program(files, k as usize) {
            return Ok(());
        }
        self.programs.push(k)?;
        if file.has_bit(0o100) {
            if let Some(owner) = file.owner {
                self.by_user.push(Runner {
                    id: owner.number(),
                    program: k,
                })?;
            }
        }
        if file.has_bit(0o010) {
            if let Some(group) = file.group {
                self.by_group.push(Runner {
                    id: group.number(),
                    program: k,
                })?;
            }
        }
        Ok(())
    }

    // Those that the holder of the id may be able to run.
    pub(crate) fn of(&self, kind: IdKind, id: u32) -> &[Runner] {
        let list: &[Runner] = match kind {
            IdKind::Users => &self.by_user,
            IdKind::Groups => &self.by_group,
        };
        let first = list.partition_point(|runner| runner.id < id);
        let from = &list[first..];
        let end = from.partition_point(|runner| runner.id == id);
        &from[..end]
    }
}
