// The judge by hand, of a process whose saved user id owns the space below its own: CAP_KILL over that space is gone for
// good where the process can't become its saved id any more (user_namespaces(7), "Capabilities").
ghost use Rattle.std.specs.Prelude.{◌≡◌, length};
ghost use Rattle.cm_base.specs.Outcome.{OrNoMemory};
ghost use Rattle.cm_sound.specs.Never.{MountsStand};
ghost use Rattle.cm_declared.specs.World.{world_of};

use crate::tests::{Setup, daemon, start};
use crate::{Checked, check};
use cm_base::{Cap, NoMemory, Pid, SpaceId};
use cm_box::{Bounds, BoxRow, Rows, Rule};
use cm_idset::IdSet;
use cm_sets::SetLike;
use cm_state::Right;
use std::alloc::Global;
use std::test::Fail;

const KEPT_FROM: &[u8] = b"log = 'script'
space = [{ name = 'child', parent = 'init', owner = 500, uid_map = [[0, 500, 1]], gid_map = [[0, 500, 1]] }]
process = [{ pid = 100, uid = [1000, 1000, 500, 1000], gid = 1000, bounding = 'none', no_new_privs = true }]
filter = { exclude = ['unshare', 'clone_user', 'setns', 'execve', 'write_uid_map', 'write_gid_map', 'setuid', 'setreuid', 'setresuid'] }
";

const MAY_SET: &[u8] = b"log = 'script'
space = [{ name = 'child', parent = 'init', owner = 500, uid_map = [[0, 500, 1]], gid_map = [[0, 500, 1]] }]
process = [{ pid = 100, uid = [1000, 1000, 500, 1000], gid = 1000, bounding = 'none', no_new_privs = true }]
filter = { exclude = ['unshare', 'clone_user', 'setns', 'execve', 'write_uid_map', 'write_gid_map', 'setuid', 'setreuid'] }
";

// The ids 500 and 1000.
fn both(alloc: Global) -> Result<IdSet, NoMemory> {
    IdSet::one(alloc, 500)?.join(alloc, &IdSet::one(alloc, 1000)?)
}

// The daemon's row with the saved id, and with these effective user ids. A call of setfsuid may take the saved id.
fn row(alloc: Global, eu: IdSet) -> Result<BoxRow, NoMemory> {
    Ok(BoxRow {
        u: both(alloc)?,
        eu,
        fu: both(alloc)?,
        ..daemon(alloc)?
    })
}

// The row of the space below: it has no members, and its maps hold the owner.
fn child_row(alloc: Global) -> Result<BoxRow, NoMemory> {
    Ok(BoxRow {
        mu: IdSet::one(alloc, 500)?,
        mg: IdSet::one(alloc, 500)?,
        ..BoxRow::least(alloc)
    })
}

// Bounds of the two spaces. The fresh rows are empty.
fn bounds(alloc: Global, row: BoxRow) -> Result<Bounds, NoMemory>
    ensures { OrNoMemory result (λ b. length b ≡ 4) }
{
    let mut list = Vec::new(alloc);
    list.push(row)?;
    list.push(BoxRow::least(alloc))?;
    list.push(child_row(alloc)?)?;
    list.push(BoxRow::least(alloc))?;
    Ok(Bounds {
        rows: Rows::from_vec(list),
    })
}

// What the judge says of these bounds and a right to CAP_KILL over the space below.
fn asked(s: &Setup, b: &Bounds) -> Option<Checked>
    requires rows { length b.now ≡ 4 }
    requires mounts { MountsStand (world_of s.now.w) s.now.m.state }
{
    if s.m.state.spaces.count() != 2 {
        return None;
    }
    let member = Pid::new(100)?;
    let kill = Cap::new(5)?;
    Some(check(&s.w, &s.m, &[member], &Right::Cap(kill, SpaceId(1)), b))
}

// The judgement of bounds with that row, where a log begins in the world of that text.
fn judged(alloc: Global, text: &[u8], row: BoxRow) -> Result<Option<Checked>, Fail> {
    let s = start(alloc, text)?;
    let b = bounds(alloc, row)?;
    Ok(asked(&s, &b))
}

#[test]
fn an_owner_that_may_not_become_its_saved_id_has_no_power(rt: HostRuntime) -> Result<(), Fail> {
    let alloc = rt.alloc();
    let now = row(alloc, IdSet::one(alloc, 1000)?)?;
    assert!(rt; judged(alloc, KEPT_FROM, now)? == Some(Checked::Holds));
    Ok(())
}

// Where setresuid is permitted, the saved id may become the effective one, which owns the space.
#[test]
fn an_owner_that_may_become_its_saved_id_has_power(rt: HostRuntime) -> Result<(), Fail> {
    let alloc = rt.alloc();
    let open = Checked::NotClosed {
        rule: Rule::SetUid,
        row: 0,
    };
    let now = row(alloc, IdSet::one(alloc, 1000)?)?;
    assert!(rt; judged(alloc, MAY_SET, now)? == Some(open));
    let later = row(alloc, both(alloc)?)?;
    assert!(rt; judged(alloc, MAY_SET, later)? == Some(Checked::Meets(0)));
    Ok(())
}

#[test]
fn bounds_without_the_saved_id_lack_the_present(rt: HostRuntime) -> Result<(), Fail> {
    let alloc = rt.alloc();
    let mut now = row(alloc, IdSet::one(alloc, 1000)?)?;
    now.u = IdSet::one(alloc, 1000)?;
    assert!(rt; judged(alloc, KEPT_FROM, now)? == Some(Checked::NotStart(0)));
    Ok(())
}
