// The judgement of a certificate: three tests in their order.
ghost use Rattle.std.specs.Prelude.{◌≡◌, ℕ, ◌<◌, ◌*◌, ◌^◌, IfNone, IfSome, length};
ghost use Rattle.cm_box_rows.specs.Members.{IsFirstLacking};
ghost use Rattle.cm_box_rows.specs.Rows.{RowsHold};
ghost use Rattle.cm_box.specs.Closing.{IsFirstOpen};
ghost use Rattle.cm_box.specs.Rules.{rule_of};
ghost use Rattle.cm_box.specs.declared.rules.Rule.{Rule};
ghost use Rattle.cm_filter.specs.Filters.{permits};
ghost use Rattle.cm_sound.specs.Judged.{IsFirstOpenIn, IsFirstMetIn, Excludes};
ghost use Rattle.cm_sound.specs.Never.{MountsStand, NeverHeld};
ghost use Rattle.cm_state.specs.Right.{right_of};
ghost use Rattle.cm_declared.specs.World.{world_of};
ghost use Rattle.model_box.specs.Closed.{Closed};
ghost use Rattle.model_box.specs.Meets.{IsOverStanding};
ghost use Rattle.model_run.specs.Own.{common_filter};

use crate::Checked;
use cm_base::Pid;
use cm_box::{Bounds, Rule, closed, covers_start, meets};
use cm_declared::World;
use cm_files::see_files;
use cm_machine::Machine;
use cm_state::{Right, see_state};

/// Whether the bounds show that the members never hold the right, by calls that the world's filter and their own
/// permit. The answer is the first of these, in this order, that stands: `NotStart` with the first row that lacks
/// what the start bounds hold, `NotClosed` with the first rule and row at which the bounds aren't closed under the
/// filter that is common to the world and the members, `Meets` with the first row by which they meet the right; else
/// it is `Holds`. Then, after no later list of calls, of any length and in whatever order the members make them,
/// installed filters among them, does a member hold the right, whoever made the bounds. The bounds have two rows for
/// each space, the spaces that the right and the mounts name stand, and fewer than 2^31 spaces stand. It takes no
/// memory.
pub fn check(w: &World, m: &Machine, members: &[Pid], right: &Right, b: &Bounds) -> Checked
    requires rows { length b.now ≡ 2 * length m.now.state.spaces }
    requires few { length m.now.state.spaces < 2 ^ 31 }
    requires named { IsOverStanding m.now.state.spaces (right_of right.now) }
    requires mounts { MountsStand (world_of w.now) m.now.state }
    ensures not_start { (row : ℕ) → result ≡ Checked.NotStart row →
        IsFirstLacking m.now.state members.now (RowsHold b.now) row }
    ensures not_closed { (rule : Rule) (row : ℕ) → result ≡ Checked.NotClosed rule row →
        IsFirstOpenIn (world_of w.now) m.now.state members.now b.now rule row }
    ensures meets { (row : ℕ) → result ≡ Checked.Meets row →
        IsFirstMetIn (world_of w.now) m.now.state members.now b.now (right_of right.now) row }
    ensures holds { result ≡ Checked.Holds →
        Excludes (world_of w.now) m.now.state members.now b.now (right_of right.now) }
    ensures never_held { result ≡ Checked.Holds →
        NeverHeld (world_of w.now) m.now.state members.now (right_of right.now) }
{
    see_files(&w.files);
    see_state(&m.state);
    match covers_start(&m.state, members, b) {
        Some(row) => Checked::NotStart(row),
        None => match closed_in_common(w, m, members, b) {
            Some((rule, row)) => Checked::NotClosed { rule, row },
            None => match meets(&m.state, b, right) {
                Some(row) => Checked::Meets(row),
                None => Checked::Holds,
            },
        },
    }
}

// The first rule and row at which the bounds aren't closed under the filter that is common to the world and the
// members; None where they are.
fn closed_in_common(w: &World, m: &Machine, members: &[Pid], b: &Bounds) -> Option<(Rule, u32)>
    requires rows { length b.now ≡ 2 * length m.now.state.spaces }
    requires few { length m.now.state.spaces < 2 ^ 31 }
    ensures none { IfNone result (Closed (permits (common_filter (world_of w.now) m.now.state members.now)) w.now.files
        m.now.state.spaces (RowsHold b.now)) }
    ensures first { IfSome result (λ found. IsFirstOpen
        (permits (common_filter (world_of w.now) m.now.state members.now)) w.now.files m.now.state.spaces (RowsHold b.now)
        (rule_of found.0) found.1) }
{
    closed(&m.state, &w.files, m.common(w, members), b)
}
