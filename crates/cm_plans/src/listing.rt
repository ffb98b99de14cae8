// The list of plans, plan by plan.
use crate::cursor::{Cursor, step};
use crate::query::Query;
use cm_base::{NoMemory, Pid};
use cm_state::{Event, State};
use std::alloc::Global;
use std::marker::Model;

/// The plans that are left of the list, of which each step gives the next one's run. Contracts see them as the record
/// `PlansLeft`.
#[derive(Debug, Drop)]
pub struct Plans<'a> {
    pub(crate) q: Query<'a>,
    pub(crate) st: &'a State,
    pub(crate) members: &'a [Pid],
    pub(crate) at: Cursor,
}

impl<'a> Model for Plans<'a> {
    ghost use Rattle.std.specs.Prelude.{◌≡◌};
    ghost use Rattle.cm_plans.specs.Cursors.{all_left};
    ghost use Rattle.cm_plans.specs.PlansLeft.{PlansLeft};
    ghost use Rattle.cm_plans.specs.Ready.{IsReady};
    ghost use Rattle.cm_plans.specs.Turns.{TurnStands};
    ghost use Rattle.cm_state.specs.Right.{right_of};
    ghost use Rattle.cm_declared.specs.World.{world_of};

    ghost Value = { PlansLeft };

    ghost view = { λ p. record {
      world = world_of p.q.world.now;
      state = p.st.now;
      right = right_of p.q.right.now;
      left = all_left p.q p.st.now p.members.now p.at;
    } };

    ghost invariant = { λ p. IsReady p.q × (p.q.spaces.now ≡ p.st.now.spaces) × TurnStands p.q.spaces.now p.at.turn };
}

impl<'a> Plans<'a> {
    ghost use Rattle.std.specs.Prelude.{◌≡◌, Vec, option_map};
    ghost use Rattle.cm_base.specs.Outcome.{OrNoMemory, UnchangedOnErr};
    ghost use Rattle.cm_plans.specs.PlansLeft.{later, run_next};
    ghost use Rattle.model_cred.specs.Call.{Event};

    /// The run of the next plan, which is then left out; None exactly where no plan is left. It fails only where memory
    /// runs out, and then leaves the plans as they were, so that the next call tries the same plan again.
    pub fn next_run(&mut self, alloc: Global) -> Result<Option<Vec<Event>>, NoMemory>
        ensures run { OrNoMemory result (λ run. option_map (λ (r : Vec Event Global). r.items) run
            ≡ run_next self.old.world self.old.state self.old.right self.old.left) }
        ensures later { OrNoMemory result (λ _. self.new ≡ record self.old { left = later self.old.left }) }
        ensures unchanged { UnchangedOnErr result self.new self.old }
    {
        step(alloc, &mut self.q, self.st, self.members, &mut self.at)
    }
}
