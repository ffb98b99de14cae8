// The passes whose time is taken.
ghost use Rattle.std.specs.Prelude.{◌≡◌, ◌<◌, ◌*◌, ◌^◌, length};
ghost use Rattle.cm_sound.specs.Never.{MountsStand};
ghost use Rattle.cm_declared.specs.World.{world_of};

use crate::setup::Setup;
use cm_base::{Kuid, MINUS_ONE};
use cm_box::{Bounds, closed};
use cm_sound::{Checked, check};
use cm_state::Right;

// The last user id.
const LAST: u32 = MINUS_ONE - 1;

// How many of so many runs of `closed` find the bounds closed. It takes no memory.
pub(crate) fn times_closed(s: &Setup, b: &Bounds, runs: u32) -> u32
    requires rows { length b.now ≡ 2 * length s.now.m.state.spaces }
    requires few { length s.now.m.state.spaces < 2 ^ 31 }
{
    let mut found = 0u32;
    for _ in 0..runs {
        if closed(&s.m.state, &s.w.files, s.w.filter, b).is_none() {
            found = found.wrapping_add(1);
        }
    }
    found
}

// Of so many runs of `check` how many find that the bounds exclude the last user id, and how many that they meet it. It
// takes no memory.
pub(crate) fn times_judged(s: &Setup, b: &Bounds, runs: u32) -> (u32, u32)
    requires rows { length b.now ≡ 2 * length s.now.m.state.spaces }
    requires few { length s.now.m.state.spaces < 2 ^ 31 }
    requires mounts { MountsStand (world_of s.now.w) s.now.m.state }
{
    let right = Right::Uid(Kuid::of(LAST));
    let (mut holds, mut meets) = (0u32, 0u32);
    for _ in 0..runs {
        match check(&s.w, &s.m, &s.members, &right, b) {
            Checked::Holds => holds = holds.wrapping_add(1),
            Checked::Meets(_) => meets = meets.wrapping_add(1),
            _ => {}
        }
    }
    (holds, meets)
}
