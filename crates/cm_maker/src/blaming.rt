// What is blamed where the least bounds meet a right.
ghost use Rattle.std.specs.Prelude.{◌≡◌, ℕ, ◌<◌, ◌+◌, ◌*◌, ◌^◌, All, IfNone, IfSome, false, true, length};
ghost use Rattle.cm_base.specs.Outcome.{OrNoMemory};
ghost use Rattle.cm_box.specs.Rules.{rule_of};
ghost use Rattle.cm_box_rows.specs.Rows.{RowsHold};
ghost use Rattle.cm_filter.specs.Filters.{permits};
ghost use Rattle.cm_maker.specs.Sweeping.{KeepsApart, Stopped, StopsAt, SweepsRound, SweepsRule, SweepsTurn, blame_told};
ghost use Rattle.cm_maker.specs.Widening.{IsReady, IsReadyAt};
ghost use Rattle.cm_state.specs.Right.{right_of};
ghost use Rattle.model_box.specs.Bounds.{bounds_hold};
ghost use Rattle.model_box.specs.Meets.{IsOverStanding};
ghost use Rattle.model_box.specs.Rule.{rule_number};
ghost use Rattle.model_verdict.specs.Blame.{IsBlame};
ghost use Rattle.model_verdict.specs.Least.{AllMeet};
ghost use Rattle.model_verdict.specs.Rows.{IsRow};
ghost use Rattle.model_verdict.specs.Sweep.{row_count};

use crate::seeing::see_rows;
use cm_base::{NoMemory, Pid};
use cm_box::{Bounds, RULES, Rule, Setting, meets, meets_by, start_bounds, widened};
use cm_files::FileTable;
use cm_filter::Filter;
use cm_state::{Right, State, see_state};
use std::alloc::Global;

/// What is blamed: the rule and the row after which the sweep first meets a right; no rule where the start bounds meet
/// it, by that row first. And the bounds just before.
#[derive(Debug, Drop)]
pub struct Blamed {
    pub rule: Option<Rule>,
    pub row: u32,
    pub below: Bounds,
}

/// What is blamed for a right that all closed covering bounds meet. Fewer than 2^31 spaces stand, and that of the right
/// does. It fails only where memory runs out.
pub fn blame(
    alloc: Global,
    st: &State,
    files: &FileTable,
    filter: Filter,
    members: &[Pid],
    right: &Right,
) -> Result<Blamed, NoMemory>
    requires few { length st.now.spaces < 2 ^ 31 }
    requires named { IsOverStanding st.now.spaces (right_of right.now) }
    requires met { AllMeet (permits filter) files.now st.now members.now (right_of right.now) }
    ensures blamed { OrNoMemory result (λ blamed. IsBlame (permits filter) files.now st.now members.now
        (right_of right.now) (blame_told blamed.rule blamed.row) (bounds_hold blamed.below)) }
    ensures count { OrNoMemory result (λ blamed. length blamed.below ≡ 2 * length st.now.spaces) }
    ensures written { OrNoMemory result (λ blamed. All IsRow blamed.below) }
{
    see_state(st);
    let setting = Setting {
        state: st,
        files,
        filter,
    };
    let mut bounds = start_bounds(alloc, st, members)?;
    match meets(st, &bounds, right) {
        Some(row) => {
            see_rows(bounds.rows.items());
            return Ok(Blamed {
                rule: None,
                row,
                below: bounds,
            });
        }
        None => {}
    }
    loop {
        match try_round(alloc, &setting, right, &mut bounds)? {
            Some((rule, row)) => {
                see_rows(bounds.rows.items());
                return Ok(Blamed {
                    rule: Some(rule),
                    row,
                    below: bounds,
                });
            }
            None => {}
        }
    }
}

// A round, up to the turn after which the right is met; the bounds are then those before it.
fn try_round(
    alloc: Global,
    setting: &Setting<'_>,
    right: &Right,
    bounds: &mut Bounds,
) -> Result<Option<(Rule, u32)>, NoMemory>
    requires ready { IsReady setting.now bounds.old }
    requires named { IsOverStanding setting.now.state.now.spaces (right_of right.now) }
    ensures count { length bounds.new ≡ length bounds.old }
    ensures apart { OrNoMemory result (λ _. KeepsApart setting.now.state.now.spaces
        (right_of right.now) bounds.old bounds.new) }
    ensures none { OrNoMemory result (λ o. IfNone o (SweepsRound setting.now bounds.old bounds.new)) }
    ensures some { OrNoMemory result (λ o. IfSome o (λ t. (t.1 < row_count setting.now.state.now.spaces) ×
        ((round : ℕ) → Stopped (permits setting.now.filter) setting.now.files.now setting.now.state.now
        (right_of right.now) (14 * round * row_count setting.now.state.now.spaces)
        ((14 * round + rule_number (rule_of t.0)) * row_count setting.now.state.now.spaces + t.1) bounds.old
        bounds.new))) }
{
    for k in 0..RULES {
        let rule = Rule::of_number(k);
        match try_rows(alloc, setting, right, rule, bounds)? {
            Some(row) => return Ok(Some((rule, row))),
            None => {}
        }
    }
    Ok(None)
}

// A rule at each row, up to the one after which the right is met.
fn try_rows(
    alloc: Global,
    setting: &Setting<'_>,
    right: &Right,
    rule: Rule,
    bounds: &mut Bounds,
) -> Result<Option<u32>, NoMemory>
    requires ready { IsReady setting.now bounds.old }
    requires named { IsOverStanding setting.now.state.now.spaces (right_of right.now) }
    ensures count { length bounds.new ≡ length bounds.old }
    ensures apart { OrNoMemory result (λ _. KeepsApart setting.now.state.now.spaces
        (right_of right.now) bounds.old bounds.new) }
    ensures none { OrNoMemory result (λ o. IfNone o (SweepsRule setting.now rule bounds.old bounds.new)) }
    ensures some { OrNoMemory result (λ o. IfSome o (λ row. (row < row_count setting.now.state.now.spaces) ×
        ((round : ℕ) → Stopped (permits setting.now.filter) setting.now.files.now setting.now.state.now
        (right_of right.now) ((14 * round + rule_number (rule_of rule)) * row_count setting.now.state.now.spaces)
        ((14 * round + rule_number (rule_of rule)) * row_count setting.now.state.now.spaces + row) bounds.old
        bounds.new))) }
{
    let st = setting.state;
    for row in 0..2 * st.spaces.count() {
        if try_turn(alloc, setting, right, rule, row, bounds)? {
            return Ok(Some(row));
        }
    }
    Ok(None)
}

// A rule at one row, which stays as it was where it would meet the right afterwards.
fn try_turn(
    alloc: Global,
    setting: &Setting<'_>,
    right: &Right,
    rule: Rule,
    row: u32,
    bounds: &mut Bounds,
) -> Result<bool, NoMemory>
    requires ready { IsReadyAt setting.now bounds.old row }
    requires named { IsOverStanding setting.now.state.now.spaces (right_of right.now) }
    ensures count { length bounds.new ≡ length bounds.old }
    ensures apart { OrNoMemory result (λ _. KeepsApart setting.now.state.now.spaces
        (right_of right.now) bounds.old bounds.new) }
    ensures goes { OrNoMemory result (λ met. met ≡ false → SweepsTurn setting.now rule row bounds.old bounds.new) }
    ensures stops { OrNoMemory result (λ met. met ≡ true → (bounds.new ≡ bounds.old) × ((round : ℕ) → StopsAt
        (permits setting.now.filter) setting.now.files.now setting.now.state.now (right_of right.now)
        ((14 * round + rule_number (rule_of rule)) * row_count setting.now.state.now.spaces + row) bounds.old)) }
{
    match widened(alloc, rule, row, setting, bounds)? {
        None => Ok(false),
        Some(wider) => {
            if meets_by(setting.state, &wider, right, row) {
                return Ok(true);
            }
            bounds.put(row, wider);
            Ok(false)
        }
    }
}
