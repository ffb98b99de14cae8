// Where the whole list of plans stands, and the run of the next plan.
ghost use Rattle.std.specs.Prelude.{◌≡◌, ◌<◌, [], Vec, OnErr, option_map, length, true, false};
ghost use Rattle.cm_base.specs.Outcome.{OrNoMemory};
ghost use Rattle.cm_plans.specs.Cursors.{all_left, moves_left};
ghost use Rattle.cm_plans.specs.Ready.{IsReady, IsSameQuestion};
ghost use Rattle.cm_plans.specs.Turns.{Steps, TurnStands, left_in};
ghost use Rattle.cm_state.specs.Right.{right_of};
ghost use Rattle.model_cred.specs.Call.{Event};

use crate::query::Query;
use crate::turn::{Turn, run_next, turn_of};
use cm_base::{NoMemory, Pid};
use cm_state::{Event, State};
use std::alloc::Global;

// Whether the plan without moves was given, the number of the next member, and the member whose turn it is.
#[derive(Debug, Drop)]
pub struct Cursor {
    pub begun: bool,
    pub next: usize,
    pub turn: Turn,
}

// The run of the next plan, if one is left.
pub(crate) fn step(
    alloc: Global,
    q: &mut Query<'_>,
    st: &State,
    members: &[Pid],
    at: &mut Cursor,
) -> Result<Option<Vec<Event>>, NoMemory>
    requires ready { IsReady q.old }
    requires same { q.old.spaces.now ≡ st.now.spaces }
    requires stand { TurnStands q.old.spaces.now at.old.turn }
    ensures steps { OrNoMemory result (λ run. Steps q.old st.now (all_left q.old st.now members.now at.old)
        (option_map (λ (r : Vec Event Global). r.items) run) (all_left q.old st.now members.now at.new)) }
    ensures same { OnErr result (all_left q.old st.now members.now at.new ≡ all_left q.old st.now members.now at.old) }
    ensures stand { TurnStands q.old.spaces.now at.new.turn }
    ensures question { IsSameQuestion q.old q.new }
{
    if !at.begun {
        at.begun = true;
        return Ok(Some(Vec::new(alloc)));
    }
    loop {
        match run_next(alloc, q, st, &mut at.turn)? {
            Some(run) => return Ok(Some(run)),
            None => {}
        }
        if at.next >= members.len() {
            return Ok(None);
        }
        let turn = turn_of(alloc, q, st, members[at.next])?;
        at.turn = turn;
        at.next += 1;
    }
}
