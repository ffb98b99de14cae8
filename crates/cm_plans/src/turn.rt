// The plans of one member, one by one.
ghost use Rattle.std.specs.Prelude.{◌≡◌, Vec, map, option_map};
ghost use Rattle.cm_base.specs.Outcome.{OrNoMemory, UnchangedOnErr};
ghost use Rattle.cm_plans.specs.Choices.{choice_of, IsChoiceOfRun, IsChoiceOfWalk};
ghost use Rattle.cm_plans.specs.Left.{StandsIn, with_firsts};
ghost use Rattle.cm_plans.specs.Ready.{IsFor, IsReady, IsSameQuestion};
ghost use Rattle.cm_plans.specs.Turns.{AreAllOf, IsRunOf, Steps, TurnStands, left_in};
ghost use Rattle.cm_state.specs.Right.{right_of};
ghost use Rattle.model_cred.specs.Call.{Event};
ghost use Rattle.model_cred.specs.Right.{Right as ModelRight};
ghost use Rattle.model_cred.specs.Space.{Spaces as ModelSpaces};
ghost use Rattle.model_plans.specs.Plan.{first_choices, plan_of};

use crate::choices::Choice;
use crate::middles::middle_list;
use crate::places::{Place, next_place};
use crate::query::Query;
use crate::runs::run_of;
use crate::seat::Seat;
use cm_base::{NoMemory, Pid};
use cm_state::{Event, State};
use std::alloc::Global;

// A member whose plans are given: its middle choices, and where the list stands.
#[derive(Debug, Drop)]
pub struct Turn {
    pub pid: Pid,
    pub middles: Vec<Choice>,
    pub at: Place,
}

// Before the first of the plans with these middle choices.
pub(crate) fn turn_with(pid: Pid, middles: Vec<Choice>) -> Turn
    ensures plans { (right : ModelRight) → left_in right result
        ≡ with_firsts right pid (map choice_of middles.items) first_choices }
    ensures middles { result.middles.items ≡ middles.items }
    ensures stand { (spaces : ModelSpaces) → StandsIn spaces result.at }
{
    let at = Place {
        first: Choice::Nothing,
        middle: Choice::Nothing,
        firsts: 0,
        middles: middles.len(),
        lasts: 5,
    };
    Turn { pid, middles, at }
}

// Before the first plan of a member; who isn't alive has none.
pub(crate) fn turn_of(alloc: Global, q: &Query<'_>, st: &State, pid: Pid) -> Result<Turn, NoMemory>
    requires ready { IsReady q.now }
    requires same { q.now.spaces.now ≡ st.now.spaces }
    ensures plans { OrNoMemory result (λ t. AreAllOf q.now st.now pid (left_in (right_of q.now.right.now) t)) }
    ensures stand { OrNoMemory result (TurnStands q.now.spaces.now) }
{
    match st.procs.find(pid) {
        Some(at) => {
            let procs = st.procs.items();
            let p = &procs[at];
            let middles = middle_list(alloc, q, p.space)?;
            Ok(turn_with(pid, middles))
        }
        None => Ok(turn_with(pid, Vec::new(alloc))),
    }
}

// The run of the plan of three choices of a member.
fn run_for(
    alloc: Global,
    q: &Query<'_>,
    st: &State,
    pid: Pid,
    c: (Choice, Choice, Choice),
) -> Result<Vec<Event>, NoMemory>
    requires ready { IsReady q.now }
    requires same { q.now.spaces.now ≡ st.now.spaces }
    requires moves { IsFor q.now st.now pid }
    requires first { IsChoiceOfRun q.now.spaces.now c.0 }
    requires middle { IsChoiceOfRun q.now.spaces.now c.1 }
    requires last { IsChoiceOfRun q.now.spaces.now c.2 }
    ensures { OrNoMemory result (λ run. IsRunOf q.now st.now
        (plan_of pid (choice_of c.0) (choice_of c.1) (choice_of c.2)) run.items) }
{
    match Seat::of(alloc, st, pid)? {
        Some(mut seat) => run_of(alloc, q, pid, &mut seat, c),
        None => Ok(Vec::new(alloc)),
    }
}

// The run of the next plan of the turn, if one is left.
pub(crate) fn run_next(
    alloc: Global,
    q: &mut Query<'_>,
    st: &State,
    t: &mut Turn,
) -> Result<Option<Vec<Event>>, NoMemory>
    requires ready { IsReady q.old }
    requires same { q.old.spaces.now ≡ st.now.spaces }
    requires stand { TurnStands q.old.spaces.now t.old }
    ensures steps { OrNoMemory result (λ run. Steps q.old st.now (left_in (right_of q.old.right.now) t.old)
        (option_map (λ (r : Vec Event Global). r.items) run) (left_in (right_of q.old.right.now) t.new)) }
    ensures unchanged { UnchangedOnErr result t.new t.old }
    ensures stand { TurnStands q.old.spaces.now t.new }
    ensures question { IsSameQuestion q.old q.new }
{
    q.let_move(st, t.pid);
    next_of_turn(alloc, q, st, t)
}

// The same where the question is for the member whose turn it is.
fn next_of_turn(
    alloc: Global,
    q: &Query<'_>,
    st: &State,
    t: &mut Turn,
) -> Result<Option<Vec<Event>>, NoMemory>
    requires ready { IsReady q.now }
    requires same { q.now.spaces.now ≡ st.now.spaces }
    requires moves { IsFor q.now st.now t.old.pid }
    requires stand { TurnStands q.now.spaces.now t.old }
    ensures steps { OrNoMemory result (λ run. Steps q.now st.now (left_in (right_of q.now.right.now) t.old)
        (option_map (λ (r : Vec Event Global). r.items) run) (left_in (right_of q.now.right.now) t.new)) }
    ensures unchanged { UnchangedOnErr result t.new t.old }
    ensures stand { TurnStands q.now.spaces.now t.new }
{
    match next_place(q.right, &t.middles, t.at) {
        Some((at, last)) => {
            let run = run_for(alloc, q, st, t.pid, (at.first, at.middle, last))?;
            t.at = at;
            Ok(Some(run))
        }
        None => Ok(None),
    }
}
