// The judge by hand, of a daemon with the ids 1000, alone in the initial space, without capabilities and with
// no_new_privs: its row, closed while it can't make a space, and what is amiss with others.
ghost use Rattle.std.specs.Prelude.{◌≡◌, length, IfOk};
ghost use Rattle.cm_base.specs.Outcome.{OrNoMemory};
ghost use Rattle.cm_sound.specs.Never.{MountsStand};
ghost use Rattle.cm_declared.specs.World.{world_of};

use crate::{Checked, check};
use cm_base::{Cap, CapWord, Kuid, NoMemory, Pid, SpaceId};
use cm_box::{Bounds, BoxRow, Rows, Rule};
use cm_declared::World;
use cm_idset::IdSet;
use cm_machine::Machine;
use cm_sets::{CapSet, Flag, RevFlag};
use cm_state::Right;
use cm_world::read_world;
use std::alloc::Global;
use std::test::Fail;

const KEPT_IN: &[u8] = b"log = 'script'
process = [{ pid = 100, uid = 1000, gid = 1000, bounding = 'none', no_new_privs = true }]
filter = { exclude = ['unshare', 'clone_user'] }
";

const FREE: &[u8] = b"log = 'script'
process = [{ pid = 100, uid = 1000, gid = 1000, bounding = 'none', no_new_privs = true }]
";

// The last id.
const LAST: u32 = 4_294_967_294;

// The daemon's row: the initial space maps all ids, and the daemon's securebits are clear.
pub(crate) fn daemon(alloc: Global) -> Result<BoxRow, NoMemory> {
    Ok(BoxRow {
        u: IdSet::one(alloc, 1000)?,
        eu: IdSet::one(alloc, 1000)?,
        fu: IdSet::one(alloc, 1000)?,
        g: IdSet::one(alloc, 1000)?,
        eg: IdSet::one(alloc, 1000)?,
        fg: IdSet::one(alloc, 1000)?,
        s: IdSet::empty(alloc),
        mu: IdSet::range(alloc, 0, LAST)?,
        mg: IdSet::range(alloc, 0, LAST)?,
        p: CapSet(CapWord::empty()),
        i: CapSet(CapWord::empty()),
        b: CapSet(CapWord::empty()),
        n: RevFlag(true),
        r: Flag(true),
        k: Flag(true),
    })
}

// Bounds of the initial space with that row. The fresh one is empty.
fn bounds(alloc: Global, row: BoxRow) -> Result<Bounds, NoMemory>
    ensures { OrNoMemory result (λ b. length b ≡ 2) }
{
    let mut list = Vec::new(alloc);
    list.push(row)?;
    list.push(BoxRow::least(alloc))?;
    Ok(Bounds {
        rows: Rows::from_vec(list),
    })
}

// The machine at the beginning of a log, and its world.
#[derive(Drop)]
pub(crate) struct Setup {
    pub(crate) w: World,
    pub(crate) m: Machine,
}

// Those of the world of that text.
pub(crate) fn start(alloc: Global, text: &[u8]) -> Result<Setup, Fail>
    ensures { IfOk result (λ s. MountsStand (world_of s.w) s.m.state) }
{
    let w = read_world(alloc, text)?;
    let m = Machine::new(alloc, &w)?;
    Ok(Setup { w, m })
}

// What the judge says of these bounds and a right to a user id, where the initial space stands alone.
fn asked_uid(s: &Setup, id: u32, b: &Bounds) -> Option<Checked>
    requires rows { length b.now ≡ 2 }
    requires mounts { MountsStand (world_of s.now.w) s.now.m.state }
{
    if s.m.state.spaces.count() != 1 {
        return None;
    }
    let member = Pid::new(100)?;
    let id = Kuid::new(id)?;
    Some(check(&s.w, &s.m, &[member], &Right::Uid(id), b))
}

// The same of a right to CAP_CHOWN over the initial space.
fn asked_chown(s: &Setup, b: &Bounds) -> Option<Checked>
    requires rows { length b.now ≡ 2 }
    requires mounts { MountsStand (world_of s.now.w) s.now.m.state }
{
    if s.m.state.spaces.count() != 1 {
        return None;
    }
    let member = Pid::new(100)?;
    let chown = Cap::new(0)?;
    Some(check(&s.w, &s.m, &[member], &Right::Cap(chown, SpaceId(0)), b))
}

// The judgement of bounds with that row, where a log begins in the world of that text, and a right to a user id.
fn uid_judged(alloc: Global, text: &[u8], row: BoxRow, id: u32) -> Result<Option<Checked>, Fail> {
    let s = start(alloc, text)?;
    let b = bounds(alloc, row)?;
    Ok(asked_uid(&s, id, &b))
}

// The same of CAP_CHOWN over the initial space.
fn chown_judged(alloc: Global, text: &[u8], row: BoxRow) -> Result<Option<Checked>, Fail> {
    let s = start(alloc, text)?;
    let b = bounds(alloc, row)?;
    Ok(asked_chown(&s, &b))
}

#[test]
fn a_daemon_that_makes_no_space_stays_what_it_is(rt: HostRuntime) -> Result<(), Fail> {
    let alloc = rt.alloc();
    assert!(rt; uid_judged(alloc, KEPT_IN, daemon(alloc)?, 0)? == Some(Checked::Holds));
    assert!(rt; chown_judged(alloc, KEPT_IN, daemon(alloc)?)? == Some(Checked::Holds));
    assert!(rt; uid_judged(alloc, KEPT_IN, daemon(alloc)?, 1000)? == Some(Checked::Meets(0)));
    Ok(())
}

// The daemon's row with one more effective id, which isn't among its real and fs ids.
fn open_row(alloc: Global) -> Result<BoxRow, NoMemory> {
    let mut row = daemon(alloc)?;
    row.eu = IdSet::range(alloc, 1000, 1001)?;
    Ok(row)
}

// An effective id that may come is among the real and fs ones too, and a right is looked at last.
#[test]
fn bounds_that_are_open_are_told(rt: HostRuntime) -> Result<(), Fail> {
    let alloc = rt.alloc();
    let want = Checked::NotClosed {
        rule: Rule::SetUid,
        row: 0,
    };
    assert!(rt; uid_judged(alloc, KEPT_IN, open_row(alloc)?, 0)? == Some(want));
    assert!(rt; uid_judged(alloc, KEPT_IN, open_row(alloc)?, 1000)? == Some(want));
    Ok(())
}

// Where it may make a space, its fresh row has to hold what it brings there.
#[test]
fn a_daemon_that_makes_spaces_needs_its_fresh_row(rt: HostRuntime) -> Result<(), Fail> {
    let alloc = rt.alloc();
    let want = Checked::NotClosed {
        rule: Rule::Create,
        row: 1,
    };
    assert!(rt; uid_judged(alloc, FREE, daemon(alloc)?, 1000)? == Some(want));
    Ok(())
}

// The daemon's row without its real id.
fn row_without_its_id(alloc: Global) -> Result<BoxRow, NoMemory> {
    let mut row = daemon(alloc)?;
    row.u = IdSet::one(alloc, 1001)?;
    Ok(row)
}

// The daemon's row with one mapped user id alone.
fn row_without_its_map(alloc: Global) -> Result<BoxRow, NoMemory> {
    let mut row = daemon(alloc)?;
    row.mu = IdSet::one(alloc, 1000)?;
    Ok(row)
}

// What the daemon has now is looked at first: its ids, and those that its space maps.
#[test]
fn bounds_that_lack_the_present_are_told(rt: HostRuntime) -> Result<(), Fail> {
    let alloc = rt.alloc();
    let want = Some(Checked::NotStart(0));
    assert!(rt; uid_judged(alloc, KEPT_IN, row_without_its_id(alloc)?, 1000)? == want);
    assert!(rt; uid_judged(alloc, KEPT_IN, row_without_its_map(alloc)?, 0)? == want);
    assert!(rt; chown_judged(alloc, KEPT_IN, BoxRow::least(alloc))? == want);
    Ok(())
}
