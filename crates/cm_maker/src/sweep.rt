// The sweep: turns, rules over all rows, and rounds, in place.
ghost use Rattle.std.specs.Prelude.{◌≡◌, length};
ghost use Rattle.cm_base.specs.Outcome.{OrNoMemory};
ghost use Rattle.cm_maker.specs.Sweeping.{SweepsRound, SweepsRule, SweepsTurn};
ghost use Rattle.cm_maker.specs.Widening.{IsReady, IsReadyAt};

use cm_base::NoMemory;
use cm_box::{Bounds, RULES, Rule, Setting, widened};
use std::alloc::Global;

// A round: each rule at each row.
pub(crate) fn round(
    alloc: Global,
    setting: &Setting<'_>,
    bounds: &mut Bounds,
) -> Result<(), NoMemory>
    requires { IsReady setting.now bounds.old }
    ensures count { length bounds.new ≡ length bounds.old }
    ensures swept { OrNoMemory result (λ _. SweepsRound setting.now bounds.old bounds.new) }
{
    for k in 0..RULES {
        over_rows(alloc, setting, Rule::of_number(k), bounds)?;
    }
    Ok(())
}

// A rule at each row.
fn over_rows(
    alloc: Global,
    setting: &Setting<'_>,
    rule: Rule,
    bounds: &mut Bounds,
) -> Result<(), NoMemory>
    requires { IsReady setting.now bounds.old }
    ensures count { length bounds.new ≡ length bounds.old }
    ensures swept { OrNoMemory result (λ _. SweepsRule setting.now rule bounds.old bounds.new) }
{
    let st = setting.state;
    for row in 0..2 * st.spaces.count() {
        turn(alloc, setting, rule, row, bounds)?;
    }
    Ok(())
}

// A rule at one row.
fn turn(
    alloc: Global,
    setting: &Setting<'_>,
    rule: Rule,
    row: u32,
    bounds: &mut Bounds,
) -> Result<(), NoMemory>
    requires { IsReadyAt setting.now bounds.old row }
    ensures count { length bounds.new ≡ length bounds.old }
    ensures swept { OrNoMemory result (λ _. SweepsTurn setting.now rule row bounds.old bounds.new) }
{
    match widened(alloc, rule, row, setting, bounds)? {
        Some(wider) => bounds.put(row, wider),
        None => {}
    }
    Ok(())
}
