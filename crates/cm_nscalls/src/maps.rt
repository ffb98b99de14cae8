// Writing the maps of a space (user_namespaces(7), "Defining user and group ID mappings: writing to uid_map and gid_map").
// What is alike for the two maps is said once.
ghost use Rattle.std.specs.Prelude.{◌≡◌, ◌<◌, length, IfOk};
ghost use Rattle.cm_base.specs.Outcome.{OrNoMemory, UnchangedOnErr};
ghost use Rattle.cm_base.specs.declared.errno.Errno.{Errno};
ghost use Rattle.cm_base.specs.declared.res.Res.TheVariants.{Err};
ghost use Rattle.cm_nscalls.specs.Answers.{res_of, stored_list};
ghost use Rattle.cm_nscalls.specs.File.{file_of};
ghost use Rattle.model_rules.specs.Maps as model;

use crate::file::{MapFile, set_map};
use crate::stored::map_from;
use crate::writer::{Write, may_map, may_write, parent_map, setfcap_allows};
use cm_base::{Errno, NoMemory, Res, SpaceId};
use cm_idmap::{Extent, IdMap};
use cm_state::{Cred, Spaces};
use std::alloc::Global;

/// A process in the space `at` writes the uid_map of the target: `Done`; or `EPERM` where it may not write to it, `EINVAL`
/// for a list that is no map, `EPERM` where it may not map these ids (the order is a choice). Where it is refused or
/// memory runs out, the spaces are as they were.
pub fn write_uid_map(
    alloc: Global,
    c: &Cred,
    spaces: &mut Spaces,
    at: SpaceId,
    target: SpaceId,
    list: &[Extent],
) -> Result<Res, NoMemory>
    requires { target.0 < length spaces.old }
    ensures res { OrNoMemory result (λ r. r ≡ (model.write_uid_map spaces.old at.0 c.now target.0 list.now).res) }
    ensures spaces { OrNoMemory result (λ _. spaces.new ≡ (model.write_uid_map spaces.old at.0 c.now target.0 list.now).spaces) }
    ensures refused { OrNoMemory result (λ r. (e : Errno) → r ≡ Err e → spaces.new ≡ spaces.old) }
    ensures unchanged { UnchangedOnErr result spaces.new spaces.old }
{
    let w = Write {
        file: MapFile::UidMap,
        at,
        target,
    };
    write_map(alloc, w, c, spaces, list)
}

/// A process in the space `at` writes the gid_map of the target: as `write_uid_map`, with CAP_SETGID and its group id.
pub fn write_gid_map(
    alloc: Global,
    c: &Cred,
    spaces: &mut Spaces,
    at: SpaceId,
    target: SpaceId,
    list: &[Extent],
) -> Result<Res, NoMemory>
    requires { target.0 < length spaces.old }
    ensures res { OrNoMemory result (λ r. r ≡ (model.write_gid_map spaces.old at.0 c.now target.0 list.now).res) }
    ensures spaces { OrNoMemory result (λ _. spaces.new ≡ (model.write_gid_map spaces.old at.0 c.now target.0 list.now).spaces) }
    ensures refused { OrNoMemory result (λ r. (e : Errno) → r ≡ Err e → spaces.new ≡ spaces.old) }
    ensures unchanged { UnchangedOnErr result spaces.new spaces.old }
{
    let w = Write {
        file: MapFile::GidMap,
        at,
        target,
    };
    write_map(alloc, w, c, spaces, list)
}

// The write of either map.
fn write_map(
    alloc: Global,
    w: Write,
    c: &Cred,
    spaces: &mut Spaces,
    list: &[Extent],
) -> Result<Res, NoMemory>
    requires { w.target.0 < length spaces.old }
    ensures res { OrNoMemory result (λ r. r ≡ (model.write_map (file_of w.file) spaces.old w.at.0 c.now w.target.0 list.now).res) }
    ensures spaces { OrNoMemory result (λ _. spaces.new ≡ (model.write_map (file_of w.file) spaces.old w.at.0 c.now w.target.0 list.now).spaces) }
    ensures refused { OrNoMemory result (λ r. (e : Errno) → r ≡ Err e → spaces.new ≡ spaces.old) }
    ensures unchanged { UnchangedOnErr result spaces.new spaces.old }
{
    match map_to_store(alloc, w, c, spaces, list)? {
        Ok(map) => {
            set_map(w.file, spaces, w.target, map);
            Ok(Res::Done)
        }
        Err(why) => Ok(Res::Err(why)),
    }
}

/// What the write of the list stores: the map; or `EPERM` where the process may not write to it, `EINVAL` for a list that
/// is no map, `EPERM` where it may not map these ids (the order is a choice). Else it fails only where memory runs out.
pub fn map_to_store(
    alloc: Global,
    w: Write,
    c: &Cred,
    spaces: &Spaces,
    list: &[Extent],
) -> Result<Result<IdMap, Errno>, NoMemory>
    requires { w.target.0 < length spaces.now }
    ensures res { OrNoMemory result (λ r. res_of r ≡ (model.write_map (file_of w.file) spaces.now w.at.0 c.now w.target.0 list.now).res) }
    ensures map { OrNoMemory result (λ r. IfOk r (λ map. map ≡ stored_list (file_of w.file) spaces.now w.target.0 list.now)) }
{
    if !may_write(w, c, spaces) {
        return Ok(Err(Errno::EPERM));
    }
    let Some(given) = map_from(alloc, list)? else {
        return Ok(Err(Errno::EINVAL));
    };
    let Some(map) = given.under(alloc, parent_map(w, spaces))? else {
        return Ok(Err(Errno::EPERM));
    };
    if setfcap_allows(w, c, spaces, list) && may_map(w, c, spaces, map.extents()) {
        Ok(Ok(map))
    } else {
        Ok(Err(Errno::EPERM))
    }
}
