// Reading files whole: the world, and what is put forward.
ghost use Rattle.std.specs.Prelude.{◌≡◌, ◌≢◌, ◌≤◌, ◌<◌, ◌+◌, ◌^◌, length, Err, IfSome, IfOk};
ghost use Rattle.cm_cli.specs.Reading.{IsFileRead, IsWorldRead, unread_by, unready_by};
ghost use Rattle.cm_io.specs.Account.{account, ReadsFile};
ghost use Rattle.cm_io.specs.Shelf.{bytes_at};
ghost use Rattle.cm_base.specs.Limited.{limit_number};
ghost use Rattle.cm_declared.specs.World.{world_of};
ghost use Rattle.model_cred.specs.World.{KeepsWorld};
ghost use Rattle.model_report.specs.Replay.{IsWithin};

use cm_base::Limited;
use cm_declared::World;
use cm_io::{Shelf, WholeError, read_whole};
use cm_report::Short;
use cm_world::{WorldError, read_world};
use std::alloc::Global;

/// Why a file wasn't read whole: it has more bytes than this limit, a read failed, or there was no memory.
#[derive(Clone, Copy, Debug)]
pub(crate) enum Unread {
    TooMuch(Limited),
    ReadFault,
    NoMemory,
}

/// Why there is nothing to replay: a report of one piece tells it, a read failed, or there was no memory.
#[derive(Clone, Copy, Debug)]
pub(crate) enum Unready {
    Refused(Short),
    ReadFault,
    NoMemory,
}

/// Reads a world.
pub(crate) fn read_world_file<H: Shelf>(
    alloc: Global,
    shelf: &mut H,
    name: &str,
) -> Result<World, Unready>
    ensures read { IfSome (H.held shelf.old) (λ files. IsWorldRead result (bytes_at files name.now)) }
    ensures keeps { IfOk result (λ w. KeepsWorld (world_of w)) }
    ensures within { IfOk result (λ w. IsWithin w.start) }
    ensures not_usage { result ≢ Err (Unready.Refused Short.Usage) }
    ensures file { ReadsFile (account H.Shelf shelf.old) (account H.Shelf shelf.new) name.now
        (limit_number Limited.World + 1) 1 (result ≡ Err Unready.ReadFault) }
{
    match read_file(alloc, shelf, name, Limited::World) {
        Ok(text) => read_world_text(alloc, &text),
        Err(why) => Err(why_unready(why)),
    }
}

// The world of a text within the limit.
fn read_world_text(alloc: Global, text: &[u8]) -> Result<World, Unready>
    requires { length text.now ≤ limit_number Limited.World }
    ensures read { IsWorldRead result text.now }
    ensures keeps { IfOk result (λ w. KeepsWorld (world_of w)) }
    ensures within { IfOk result (λ w. IsWithin w.start) }
    ensures not_usage { result ≢ Err (Unready.Refused Short.Usage) }
    ensures not_read_fault { result ≢ Err Unready.ReadFault }
{
    match read_world(alloc, text) {
        Ok(w) => Ok(w),
        Err(WorldError::Bad { table, row, why }) => {
            Err(Unready::Refused(Short::BadWorld(table, row, why)))
        }
        Err(WorldError::Limit(limit)) => Err(Unready::Refused(Short::Limit(limit))),
        Err(WorldError::NoMemory) => Err(Unready::NoMemory),
    }
}

/// Reads a file whole, within this limit of its size.
pub(crate) fn read_file<H: Shelf>(
    alloc: Global,
    shelf: &mut H,
    name: &str,
    limit: Limited,
) -> Result<Vec<u8>, Unread>
    requires { limit_number limit < 2 ^ 31 }
    ensures read { IfSome (H.held shelf.old) (λ files. IsFileRead limit result (bytes_at files name.now)) }
    ensures size { IfOk result (λ text. length text.items ≤ limit_number limit) }
    ensures file { ReadsFile (account H.Shelf shelf.old) (account H.Shelf shelf.new) name.now
        (limit_number limit + 1) 1 (result ≡ Err Unread.ReadFault) }
{
    let most = limit.number() as usize;
    let mut text = Vec::new(alloc);
    match read_whole(alloc, shelf, name, most, &mut text) {
        Ok(()) => Ok(text),
        Err(why) => Err(why_unread(why, limit)),
    }
}

// Why a file was not read whole.
fn why_unread(why: WholeError, limit: Limited) -> Unread
    ensures { result ≡ unread_by why limit }
{
    match why {
        WholeError::Read => Unread::ReadFault,
        WholeError::TooMuch => Unread::TooMuch(limit),
        WholeError::NoMemory => Unread::NoMemory,
    }
}

// The same of a world: past its limit the report tells it.
fn why_unready(why: Unread) -> Unready
    ensures { result ≡ unready_by why }
{
    match why {
        Unread::TooMuch(limit) => Unready::Refused(Short::Limit(limit)),
        Unread::ReadFault => Unready::ReadFault,
        Unread::NoMemory => Unready::NoMemory,
    }
}
