// The calls of cm_box and cm_maker, each with what it requires looked at first.
ghost use Rattle.std.specs.Prelude.{◌≡◌, ◌<◌, ◌*◌, ◌^◌, IsTrue, length};

use crate::case::Case;
use case_lines::Stop;
use cm_base::Pid;
use cm_box::{Bounds, Rule, Setting, closed, covers_start, meets, rule, start_bounds};
use cm_maker::{least, least_by_rounds};
use cm_state::{Right, State};
use std::alloc::Global;

// Fewer than 2^31 spaces stand.
fn few(st: &State) -> bool
    ensures { IsTrue result → length st.now.spaces < 2 ^ 31 }
{
    st.spaces.count() < 2_147_483_648
}

// The bounds have two rows for each space.
fn fit(st: &State, b: &Bounds) -> bool
    requires { length st.now.spaces < 2 ^ 31 }
    ensures { IsTrue result → length b.now ≡ 2 * length st.now.spaces }
{
    b.rows.items().len() == 2 * st.spaces.count() as usize
}

// The start bounds of these members.
pub(crate) fn started(alloc: Global, case: &Case, members: &[Pid]) -> Result<Bounds, Stop> {
    let st = &case.world.start;
    if !few(st) {
        return Err(Stop::Bad);
    }
    Ok(start_bounds(alloc, st, members)?)
}

// The first row that lacks what the members have.
pub(crate) fn lacking(case: &Case, members: &[Pid]) -> Result<Option<u32>, Stop> {
    let st = &case.world.start;
    if !few(st) || !fit(st, &case.bounds) {
        return Err(Stop::Bad);
    }
    Ok(covers_start(st, members, &case.bounds))
}

// The first rule and row at which the bounds aren't closed.
pub(crate) fn first_open(case: &Case) -> Result<Option<(Rule, u32)>, Stop> {
    let st = &case.world.start;
    if !few(st) || !fit(st, &case.bounds) {
        return Err(Stop::Bad);
    }
    Ok(closed(st, &case.world.files, case.filter, &case.bounds))
}

// The bounds with what the rule adds to the row. Bad where there is no such row.
pub(crate) fn applied(alloc: Global, case: &Case, x: Rule, y: u32) -> Result<Bounds, Stop> {
    let st = &case.world.start;
    let b = &case.bounds;
    if !few(st) || !fit(st, b) || y as usize >= b.rows.items().len() {
        return Err(Stop::Bad);
    }
    let setting = Setting {
        state: st,
        files: &case.world.files,
        filter: case.filter,
    };
    Ok(rule(alloc, x, y, &setting, b)?)
}

// The least closed bounds that cover the members. Bad where the two ways to find them don't agree.
pub(crate) fn closed_least(alloc: Global, case: &Case) -> Result<Bounds, Stop> {
    let st = &case.world.start;
    if !few(st) {
        return Err(Stop::Bad);
    }
    let files = &case.world.files;
    let bounds = least(alloc, st, files, case.filter, &case.members)?;
    let by_rounds = least_by_rounds(alloc, st, files, case.filter, &case.members)?;
    if format!(in alloc; "{bounds:?}")? != format!(in alloc; "{by_rounds:?}")? {
        return Err(Stop::Bad);
    }
    Ok(bounds)
}

// The first row by which the bounds meet the right. Bad where the space isn't there that it names.
pub(crate) fn met(case: &Case, right: &Right) -> Result<Option<u32>, Stop> {
    let st = &case.world.start;
    if !few(st) || !fit(st, &case.bounds) {
        return Err(Stop::Bad);
    }
    if let Right::Cap(_, n) = right {
        if n.0 >= st.spaces.count() {
            return Err(Stop::Bad);
        }
    }
    Ok(meets(st, &case.bounds, right))
}
