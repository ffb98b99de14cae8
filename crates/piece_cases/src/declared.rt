// Mounts and files as lines of cases declare them: a name or a path, and parts that `;` parts.
use crate::values::extent;
use case_lines::{Stop, number};
use cm_base::{CapWord, Kgid, Kuid, SpaceId};
use cm_files::{FileRow, MapPair, Mount, Text};
use cm_idmap::{Extent, IdMap};
use cm_vfscap::FileCaps;
use std::alloc::Global;

// CAP_NET_RAW, the one capability of each attribute here.
const NET_RAW: u64 = 0x2000;

// A mount of that name, of the initial space and with its maps where no part says otherwise.
pub(crate) fn declared_mount(alloc: Global, text: &str) -> Result<Mount, Stop> {
    let (name, parts) = text.split_once(';').unwrap_or((text, ""));
    let mut mount = Mount {
        name: text_of(alloc, name)?,
        fs: MapPair {
            uids: IdMap::initial(alloc)?,
            gids: IdMap::initial(alloc)?,
        },
        map: None,
        space: SpaceId(0),
        nosuid: false,
        noexec: false,
    };
    for part in parts.split(';') {
        let words: Vec<&str> = part.split_whitespace().collect(alloc)?;
        put_on_mount(alloc, &mut mount, &words)?;
    }
    Ok(mount)
}

fn put_on_mount(alloc: Global, mount: &mut Mount, words: &[&str]) -> Result<(), Stop> {
    match words {
        [] => {}
        ["fs_uids", numbers @ ..] => mount.fs.uids = map_of(alloc, extent(numbers)?)?,
        ["idmapped", numbers @ ..] => mount.map = Some(pair_of(alloc, extent(numbers)?)?),
        ["space", n] => mount.space = SpaceId(number(n)?),
        ["nosuid"] => mount.nosuid = true,
        _ => return Err(Stop::Bad),
    }
    Ok(())
}

fn map_of(alloc: Global, e: Extent) -> Result<IdMap, Stop> {
    Ok(IdMap::make(alloc, &[e])?)
}

fn pair_of(alloc: Global, e: Extent) -> Result<MapPair, Stop> {
    Ok(MapPair {
        uids: map_of(alloc, e)?,
        gids: map_of(alloc, e)?,
    })
}

// A file of that path, of mode 4755, of root's and on the first mount where no part says otherwise.
pub(crate) fn declared_file(alloc: Global, text: &str) -> Result<FileRow, Stop> {
    let (path, parts) = text.split_once(';').unwrap_or((text, ""));
    let mut row = FileRow {
        path: text_of(alloc, path)?,
        mount: 0,
        uid: Kuid::of(0),
        gid: Kgid::of(0),
        mode: 0o4755,
        caps: None,
        interpreter: None,
    };
    for part in parts.split(';') {
        let words: Vec<&str> = part.split_whitespace().collect(alloc)?;
        put_on_file(&mut row, &words)?;
    }
    Ok(row)
}

fn put_on_file(row: &mut FileRow, words: &[&str]) -> Result<(), Stop> {
    match words {
        [] => {}
        ["mount", n] => row.mount = number(n)?,
        ["uid", n] => row.uid = Kuid::new(number(n)?).ok_or(Stop::Bad)?,
        ["gid", n] => row.gid = Kgid::new(number(n)?).ok_or(Stop::Bad)?,
        ["root", n] => row.caps = Some(attribute(number(n)?)),
        ["interpreter", n] => row.interpreter = Some(number(n)?),
        _ => return Err(Stop::Bad),
    }
    Ok(())
}

// An attribute of that root id.
fn attribute(root: u32) -> FileCaps {
    FileCaps {
        permitted: CapWord::from_bits(NET_RAW),
        inheritable: CapWord::empty(),
        effective: true,
        root,
    }
}

fn text_of(alloc: Global, text: &str) -> Result<Text, Stop> {
    Ok(Text::from_string(String::from_str(alloc, text)?))
}
