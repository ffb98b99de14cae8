// Set-id programs are run for the members of a row, one by what another gave, so that a long chain of them takes no
// round of the rules for each link.
ghost use Rattle.std.specs.Prelude.{◌≡◌, ◌<◌, length, IfSome};
ghost use Rattle.cm_base.specs.Limits.{id_count};
ghost use Rattle.cm_base.specs.Outcome.{OrNoMemory};
ghost use Rattle.cm_box_rows.specs.Kinds.{SpreadsId};
ghost use Rattle.cm_box_rows.specs.Rows.{RowHolds, AreSameRows, InEitherRow};
ghost use Rattle.cm_filter.specs.Filters.{permits};
ghost use Rattle.cm_maker.specs.Running.{Comes};
ghost use Rattle.cm_maker.specs.Widening.{IsReadyAt, VisitsIn};
ghost use Rattle.model_verdict.specs.Sweep.{row_count};

use crate::runners::{Runner, Runners};
use cm_base::{NoMemory, SpaceId};
use cm_box::{Bounds, BoxRow, Setting};
use cm_box_rows::{IdKind, id_lacking, ids_gained};
use cm_filter::CallKind;
use cm_idset::IdSet;
use cm_sets::SetLike;
use std::alloc::Global;

// A program, and one of its two set-id bits: that of users' ids or of groups'.
#[derive(Clone, Copy, Debug)]
struct Bit {
    program: u32,
    kind: IdKind,
}

// An id that has come to the members of a row.
#[derive(Clone, Copy, Debug)]
struct NewId {
    kind: IdKind,
    id: u32,
}

// Runs the programs that members of the row may run, and with each id that comes those that its holder may run, and says
// whether the row holds more now. Each program is looked at at first, and else where an id came that may run it.
pub(crate) fn run_programs(
    alloc: Global,
    setting: &Setting<'_>,
    runners: &Runners,
    row: u32,
    bounds: &mut Bounds,
) -> Result<bool, NoMemory>
    requires { IsReadyAt setting.now bounds.old row }
    ensures { OrNoMemory result (VisitsIn setting.now row bounds.old bounds.new) }
{
    let mut more = false;
    let mut new: Vec<NewId> = Vec::new(alloc);
    for program in &runners.programs {
        if run(alloc, setting, *program, row, bounds, &mut new)? {
            more = true;
        }
    }
    // A program gives an id of each kind at most, so there are no more to come than twice as many.
    for _ in 0..2 * runners.programs.len() {
        match new.pop() {
            Some(by) => {
                if run_each(
                    alloc,
                    setting,
                    runners.of(by.kind, by.id),
                    row,
                    bounds,
                    &mut new,
                )? {
                    more = true;
                }
            }
            None => return Ok(more),
        }
    }
    Ok(more)
}

// Runs the programs of a list: those that the holder of one id may be able to run.
fn run_each(
    alloc: Global,
    setting: &Setting<'_>,
    list: &[Runner],
    row: u32,
    bounds: &mut Bounds,
    new: &mut Vec<NewId>,
) -> Result<bool, NoMemory>
    requires { IsReadyAt setting.now bounds.old row }
    ensures { OrNoMemory result (VisitsIn setting.now row bounds.old bounds.new) }
{
    let mut more = false;
    for runner in list {
        if run(alloc, setting, runner.program, row, bounds, new)? {
            more = true;
        }
    }
    Ok(more)
}

// Runs a program for the members of the row, by each of its two set-id bits.
fn run(
    alloc: Global,
    setting: &Setting<'_>,
    program: u32,
    row: u32,
    bounds: &mut Bounds,
    new: &mut Vec<NewId>,
) -> Result<bool, NoMemory>
    requires { IsReadyAt setting.now bounds.old row }
    ensures { OrNoMemory result (VisitsIn setting.now row bounds.old bounds.new) }
{
    let (users, groups) = (IdKind::Users, IdKind::Groups);
    let user = run_as(
        alloc,
        setting,
        Bit {
            program,
            kind: users,
        },
        row,
        bounds,
        new,
    )?;
    let group = run_as(
        alloc,
        setting,
        Bit {
            program,
            kind: groups,
        },
        row,
        bounds,
        new,
    )?;
    Ok(user || group)
}

// Runs it by the one bit. An id that comes by it is put to the new ones.
fn run_as(
    alloc: Global,
    setting: &Setting<'_>,
    bit: Bit,
    row: u32,
    bounds: &mut Bounds,
    new: &mut Vec<NewId>,
) -> Result<bool, NoMemory>
    requires { IsReadyAt setting.now bounds.old row }
    ensures { OrNoMemory result (VisitsIn setting.now row bounds.old bounds.new) }
{
    let kind = bit.kind;
    let Some(id) = id_to_come(setting, bit, row, bounds) else {
        return Ok(false);
    };
    new.push(NewId { kind, id })?;
    let wider = with_id(alloc, kind, bounds.row_at(row), id)?;
    bounds.put(row, wider);
    Ok(true)
}

// The id that comes to the members of the row by the program, None where none does.
fn id_to_come(setting: &Setting<'_>, bit: Bit, row: u32, bounds: &Bounds) -> Option<u32>
    requires rows { length bounds.now ≡ row_count setting.now.state.now.spaces }
    requires there { row < row_count setting.now.state.now.spaces }
    ensures is_id { IfSome result (λ id. id < id_count) }
    ensures comes { IfSome result (Comes (permits setting.now.filter) setting.now.files.now
        setting.now.state.now.spaces bounds.now row bit.kind) }
{
    let st = setting.state;
    let files = setting.files;
    let here = bounds.row_at(row);
    if !setting.filter.permits(CallKind::Exec)
        || here.eu.is_empty()
        || bit.program >= files.count()
    {
        return None;
    }
    id_lacking(
        bit.kind,
        files,
        bit.program as usize,
        &st.spaces,
        SpaceId(row / 2),
        here,
    )
}

// The row with an effective id more, and what becomes of it.
fn with_id(alloc: Global, kind: IdKind, row: &BoxRow, id: u32) -> Result<BoxRow, NoMemory>
    requires { id < id_count }
    ensures { OrNoMemory result (λ r. AreSameRows (RowHolds r)
        (InEitherRow (RowHolds row.now) (SpreadsId kind (RowHolds row.now) (λ x. x ≡ id)))) }
{
    let one = IdSet::one(alloc, id)?;
    let gained = ids_gained(alloc, kind, row, one)?;
    row.joined(alloc, &gained)
}
