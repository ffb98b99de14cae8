// A row is brought to rest: rules are applied to it, in place, until it holds what each adds; those that look through the
// files once the others add nothing.
ghost use Rattle.std.specs.Prelude.{◌≡◌, ◌≤◌, false};
ghost use Rattle.cm_base.specs.Outcome.{OrNoMemory};
ghost use Rattle.cm_box.specs.Rules.{rule_of};
ghost use Rattle.cm_box_rows.specs.Rows.{RowsHold};
ghost use Rattle.cm_filter.specs.Filters.{permits};
ghost use Rattle.cm_maker.specs.Widening.{IsReadyAt, Rests, RestsIn, VisitsIn};
ghost use Rattle.model_box.specs.Closed.{ClosedAt};
ghost use Rattle.model_box.specs.Row.{row_at};
ghost use Rattle.model_verdict.specs.Rows.{AreLow};

use crate::runners::Runners;
use crate::running::run_programs;
use cm_base::NoMemory;
use cm_box::{Bounds, RULES, Rule, Setting, widened};
use std::alloc::Global;

// Brings the row to rest, and says whether it holds more now.
pub(crate) fn rest(
    alloc: Global,
    setting: &Setting<'_>,
    runners: &Runners,
    row: u32,
    bounds: &mut Bounds,
) -> Result<bool, NoMemory>
    requires ready { IsReadyAt setting.now bounds.old row }
    requires low { AreLow setting.now.state.now.spaces (RowsHold bounds.old) }
    ensures visits { OrNoMemory result (VisitsIn setting.now row bounds.old bounds.new) }
    ensures rests { OrNoMemory result (λ _. Rests (permits setting.now.filter) setting.now.files.now
        setting.now.state.now.spaces bounds.new row) }
{
    let mut more = false;
    loop {
        if try_near(alloc, setting, row, bounds)? {
            more = true;
        } else if try_rules(alloc, setting, BY_FILES.0, BY_FILES.1, row, bounds)? {
            more = true;
            run_programs(alloc, setting, runners, row, bounds)?;
        } else {
            return Ok(more);
        }
    }
}

// From which rule to which the declared files are looked through: those of set-id bits and of attributes.
const BY_FILES: (u32, u32) = (7, 10);

// Each rule that looks at no file, once: first those that bring what others have.
fn try_near(
    alloc: Global,
    setting: &Setting<'_>,
    row: u32,
    bounds: &mut Bounds,
) -> Result<bool, NoMemory>
    requires { IsReadyAt setting.now bounds.old row }
    ensures visits { OrNoMemory result (VisitsIn setting.now row bounds.old bounds.new) }
    ensures last { OrNoMemory result (λ more. more ≡ false → RestsIn setting.now bounds.new row 10 14) }
    ensures first { OrNoMemory result (λ more. more ≡ false → RestsIn setting.now bounds.new row 0 7) }
{
    let last = try_rules(alloc, setting, BY_FILES.1, RULES, row, bounds)?;
    let first = try_rules(alloc, setting, 0, BY_FILES.0, row, bounds)?;
    Ok(last || first)
}

// Each rule from the one number to the other at the row, once. Where the row holds no more afterwards, it rests under
// them.
fn try_rules(
    alloc: Global,
    setting: &Setting<'_>,
    from: u32,
    to: u32,
    row: u32,
    bounds: &mut Bounds,
) -> Result<bool, NoMemory>
    requires ready { IsReadyAt setting.now bounds.old row }
    requires rules { to ≤ 14 }
    ensures visits { OrNoMemory result (VisitsIn setting.now row bounds.old bounds.new) }
    ensures rests { OrNoMemory result (λ more. more ≡ false → RestsIn setting.now bounds.new row from to) }
{
    let mut more = false;
    for k in from..to {
        if try_rule(alloc, setting, Rule::of_number(k), row, bounds)? {
            more = true;
        }
    }
    Ok(more)
}

// A rule at the row. Where the row holds no more afterwards, it holds what the rule adds.
fn try_rule(
    alloc: Global,
    setting: &Setting<'_>,
    rule: Rule,
    row: u32,
    bounds: &mut Bounds,
) -> Result<bool, NoMemory>
    requires { IsReadyAt setting.now bounds.old row }
    ensures visits { OrNoMemory result (VisitsIn setting.now row bounds.old bounds.new) }
    ensures closed { OrNoMemory result (λ more. more ≡ false → ClosedAt (permits setting.now.filter)
        setting.now.files.now setting.now.state.now.spaces (RowsHold bounds.new) (rule_of rule) (row_at row)) }
{
    match widened(alloc, rule, row, setting, bounds)? {
        Some(wider) => {
            bounds.put(row, wider);
            Ok(true)
        }
        None => Ok(false),
    }
}
