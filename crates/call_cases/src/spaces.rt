// The calls of user namespaces, called spaces here. A process that makes or joins one is in it from then on.
use case_lines::Stop;
use cm_base::{Res, SpaceId};
use cm_idmap::Extent;
use cm_nscalls::{MapFile, join_space, new_space, write_gid_map, write_setgroups, write_uid_map};
use cm_state::{Call, Proc, Spaces};
use std::alloc::Global;

// What is answered. Bad where the call names a space that doesn't stand.
pub(crate) fn space_call(
    alloc: Global,
    p: &mut Proc,
    spaces: &mut Spaces,
    call: &Call,
) -> Result<Res, Stop> {
    match call {
        Call::Unshare => unshare(p, spaces),
        Call::SetNs(n) => join(p, spaces, *n),
        Call::WriteUidMap(n, list) => {
            write_map(alloc, p, spaces, MapFile::UidMap, *n, list.items())
        }
        Call::WriteGidMap(n, list) => {
            write_map(alloc, p, spaces, MapFile::GidMap, *n, list.items())
        }
        Call::WriteSetgroups { space, deny } => write_word(p, spaces, *space, *deny),
        _ => Err(Stop::Bad),
    }
}

fn unshare(p: &mut Proc, spaces: &mut Spaces) -> Result<Res, Stop> {
    let newest = SpaceId(spaces.count());
    if p.space.0 >= newest.0 || newest.0 == u32::MAX {
        return Err(Stop::Bad);
    }
    let res = new_space(&mut *p.cred, spaces, p.space)?;
    if res == Res::Done {
        p.space = newest;
    }
    Ok(res)
}

fn join(p: &mut Proc, spaces: &Spaces, n: SpaceId) -> Result<Res, Stop> {
    if n.0 >= spaces.count() {
        return Err(Stop::Bad);
    }
    let res = join_space(&mut *p.cred, spaces, p.space, n);
    if res == Res::Done {
        p.space = n;
    }
    Ok(res)
}

fn write_map(
    alloc: Global,
    p: &Proc,
    spaces: &mut Spaces,
    file: MapFile,
    n: SpaceId,
    list: &[Extent],
) -> Result<Res, Stop> {
    if n.0 >= spaces.count() {
        return Err(Stop::Bad);
    }
    let res = match file {
        MapFile::UidMap => write_uid_map(alloc, &p.cred, spaces, p.space, n, list)?,
        MapFile::GidMap => write_gid_map(alloc, &p.cred, spaces, p.space, n, list)?,
    };
    Ok(res)
}

fn write_word(p: &Proc, spaces: &mut Spaces, n: SpaceId, deny: bool) -> Result<Res, Stop> {
    if n.0 >= spaces.count() {
        return Err(Stop::Bad);
    }
    Ok(write_setgroups(&p.cred, spaces, p.space, n, deny))
}
