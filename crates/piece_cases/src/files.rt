// Tables of files: what is declared for one, and what a table answers.
use crate::values::id_or_none;
use case_lines::{Stop, bytes_of, named, number, word};
use cm_base::read_octal;
use cm_files::{FileRow, FileTable, FileView, Mount};
use std::alloc::Global;
use std::mem;

// The mounts and files that are declared for the next table, and the table that stands.
#[derive(Drop)]
pub(crate) struct Files {
    mounts: Vec<Mount>,
    rows: Vec<FileRow>,
    table: Option<FileTable>,
}

impl Files {
    pub(crate) fn none(alloc: Global) -> Files {
        Files {
            mounts: Vec::new(alloc),
            rows: Vec::new(alloc),
            table: None,
        }
    }

    pub(crate) fn add_mount(&mut self, mount: Mount) -> Result<(), Stop> {
        self.mounts.push(mount)?;
        Ok(())
    }

    pub(crate) fn add_row(&mut self, row: FileRow) -> Result<(), Stop> {
        self.rows.push(row)?;
        Ok(())
    }

    // The answer to a line on the table of a case.
    pub(crate) fn answer(
        &mut self,
        alloc: Global,
        asked: &str,
        rest: &str,
    ) -> Result<Vec<u8>, Stop> {
        if asked == "table" {
            return self.make(alloc);
        }
        match &self.table {
            Some(table) => table_answer(alloc, table, asked, rest),
            None => Err(Stop::Bad),
        }
    }

    // A table of what is declared, or why there is none.
    fn make(&mut self, alloc: Global) -> Result<Vec<u8>, Stop> {
        let mounts = mem::replace(&mut self.mounts, Vec::new(alloc));
        let rows = mem::replace(&mut self.rows, Vec::new(alloc));
        if mounts.len() >= 4_294_967_296 || rows.len() >= 4_294_967_296 {
            return Err(Stop::Bad);
        }
        match FileTable::make(alloc, mounts, rows) {
            Ok(table) => {
                self.table = Some(table);
                word(alloc, "made")
            }
            Err(fault) => named(alloc, &fault),
        }
    }
}

fn table_answer(
    alloc: Global,
    table: &FileTable,
    asked: &str,
    rest: &str,
) -> Result<Vec<u8>, Stop> {
    let words: Vec<&str> = rest.split_whitespace().collect(alloc)?;
    match (asked, words.as_slice()) {
        ("find", _) => named(alloc, &table.find(&bytes_of(alloc, rest)?)),
        ("rows", []) => paths(alloc, table.rows()),
        ("mounts", []) => names(alloc, table.mounts()),
        ("program", [n]) => program(alloc, table, number(n)?),
        ("view", [n]) => view_shown(alloc, &seen(table, number(n)?)?),
        ("bits", [n, bits]) => bits_shown(alloc, &seen(table, number(n)?)?, bits),
        _ => Err(Stop::Bad),
    }
}

// The paths of files, in their order.
fn paths(alloc: Global, rows: &[FileRow]) -> Result<Vec<u8>, Stop> {
    let mut text = Vec::new(alloc);
    for row in rows {
        put_after_blank(&mut text, row.path.items())?;
    }
    Ok(text)
}

// The names of mounts, in their order.
fn names(alloc: Global, mounts: &[Mount]) -> Result<Vec<u8>, Stop> {
    let mut text = Vec::new(alloc);
    for mount in mounts {
        put_after_blank(&mut text, mount.name.items())?;
    }
    Ok(text)
}

// Puts a piece to the end of a text, with a blank between them.
fn put_after_blank(text: &mut Vec<u8>, piece: &[u8]) -> Result<(), Stop> {
    if !text.is_empty() {
        text.push(b' ')?;
    }
    text.extend_from_slice(piece)?;
    Ok(())
}

// The row that runs where that one is run. Bad where there is no such row.
fn program(alloc: Global, table: &FileTable, row: u32) -> Result<Vec<u8>, Stop> {
    if row as usize >= table.rows().len() {
        return Err(Stop::Bad);
    }
    named(alloc, &table.program(row))
}

// The row as its mount shows it. Bad where there is no such row.
fn seen(table: &FileTable, row: u32) -> Result<FileView, Stop> {
    if row as usize >= table.rows().len() {
        return Err(Stop::Bad);
    }
    Ok(table.view(row))
}

fn view_shown(alloc: Global, v: &FileView) -> Result<Vec<u8>, Stop> {
    let owner = id_or_none(alloc, v.owner.map(|id| id.number()))?;
    let group = id_or_none(alloc, v.group.map(|id| id.number()))?;
    let root = id_or_none(alloc, v.root.map(|id| id.number()))?;
    let (mode, space) = (v.mode, v.space.0);
    let nosuid = if v.nosuid { "; nosuid" } else { "" };
    let noexec = if v.noexec { "; noexec" } else { "" };
    let attribute = if v.caps.is_some() { "; attribute" } else { "" };
    let text = format!(in alloc;
        "uid {owner}; gid {group}; root {root}; mode {mode:o}; space {space}{nosuid}{noexec}{attribute}"
    )?;
    word(alloc, text.as_str())
}

// Whether one of these mode bits is set.
fn bits_shown(alloc: Global, v: &FileView, bits: &str) -> Result<Vec<u8>, Stop> {
    let bits = read_octal(bits.as_bytes()).map_err(|_| Stop::Bad)?;
    word(alloc, if v.has_bit(bits) { "yes" } else { "no" })
}
