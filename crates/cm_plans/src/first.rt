// The first plan that ends with a holder.
ghost use Rattle.std.specs.Prelude.{◌≡◌, ◌<◌, ◌++◌, ◌∷◌, [], Vec, length, option_map};
ghost use Rattle.cm_base.specs.Outcome.{OrNoMemory};
ghost use Rattle.cm_plans.specs.Finds.{found_first, run_first, FoundForIs, FoundAmongIs};
ghost use Rattle.cm_plans.specs.Moves.{setting};
ghost use Rattle.cm_plans.specs.Ready.{IsFor, IsReady, IsSameQuestion};
ghost use Rattle.cm_state.specs.Right.{right_of};
ghost use Rattle.model_cred.specs.Call.{Event};
ghost use Rattle.model_plans.specs.PlanRun.{holder as model_holder};
ghost use Rattle.model_plans.specs.Walk.{found_at};

use crate::middles::single_list;
use crate::query::Query;
use crate::runs::run_of;
use crate::seat::Seat;
use crate::walk::find_moves;
use cm_base::{NoMemory, Pid};
use cm_declared::World;
use cm_machine::Machine;
use cm_state::{Event, Right, State};
use std::alloc::Global;
use std::marker::Model;

/// A run after which a member holds the right, and that member.
#[derive(Debug, Drop)]
pub struct Found {
    pub run: Vec<Event>,
    pub holder: Pid,
}

impl Model for Found {
    ghost use Rattle.std.specs.Coded.{codes};
    ghost use Rattle.cm_state.specs.CallCode.{coded_call};
    ghost use Rattle.model_plans.specs.PlanRun as model;

    ghost Value = { model.Found };

    ghost coded = { Prim.hlevel (coded_call, codes) };

    ghost view = { λ f. record { run = f.run.items; holder = f.holder } };
}

/// The run of the first plan of the list after which a member holds the right; None exactly where no plan ends so. A
/// space that the right names need not stand. It fails only where memory runs out.
pub fn first_run(
    alloc: Global,
    w: &World,
    m: &Machine,
    members: &[Pid],
    right: &Right,
) -> Result<Option<Vec<Event>>, NoMemory>
    ensures { OrNoMemory result (λ run. option_map (λ (r : Vec Event Global). r.items) run
        ≡ run_first w.now m.now.state members.now right.now) }
{
    match first_found(alloc, w, m, members, right)? {
        Some(found) => {
            let Found { run, .. } = found;
            Ok(Some(run))
        }
        None => Ok(None),
    }
}

/// The run of the first plan of the list after which a member holds the right, and the first such member; None exactly
/// where no plan ends so. A space that the right names need not stand. It fails only where memory runs out.
pub fn first_found(
    alloc: Global,
    w: &World,
    m: &Machine,
    members: &[Pid],
    right: &Right,
) -> Result<Option<Found>, NoMemory>
    ensures { OrNoMemory result (λ found. found ≡ found_first w.now m.now.state members.now right.now) }
{
    let st = &m.state;
    match first_holder(st, members, right) {
        Some(pid) => Ok(Some(Found {
            run: Vec::new(alloc),
            holder: pid,
        })),
        None => {
            let mut q = Query::new(alloc, w, st, right)?;
            found_among(alloc, &mut q, st, members)
        }
    }
}

/// The first of the members who holds the right; None where none does.
pub fn first_holder(st: &State, members: &[Pid], right: &Right) -> Option<Pid>
    ensures { result ≡ model_holder st.now members.now (right_of right.now) }
{
    for pid in members {
        if st.holds(*pid, right) {
            return Some(*pid);
        }
    }
    None
}

// What is found by the first member that finds something.
fn found_among(
    alloc: Global,
    q: &mut Query<'_>,
    st: &State,
    members: &[Pid],
) -> Result<Option<Found>, NoMemory>
    requires ready { IsReady q.old }
    requires same { q.old.spaces.now ≡ st.now.spaces }
    ensures { OrNoMemory result (FoundAmongIs q.old st.now members.now) }
{
    for pid in members {
        match found_for(alloc, q, st, *pid)? {
            Some(found) => return Ok(Some(found)),
            None => {}
        }
    }
    Ok(None)
}

// What is found by one member.
fn found_for(
    alloc: Global,
    q: &mut Query<'_>,
    st: &State,
    pid: Pid,
) -> Result<Option<Found>, NoMemory>
    requires ready { IsReady q.old }
    requires same { q.old.spaces.now ≡ st.now.spaces }
    ensures found { OrNoMemory result (FoundForIs q.old st.now pid) }
    ensures question { IsSameQuestion q.old q.new }
{
    q.let_move(st, pid);
    found_by(alloc, q, st, pid)
}

// The same where the question is for that member.
fn found_by(alloc: Global, q: &Query<'_>, st: &State, pid: Pid) -> Result<Option<Found>, NoMemory>
    requires ready { IsReady q.now }
    requires same { q.now.spaces.now ≡ st.now.spaces }
    requires moves { IsFor q.now st.now pid }
    ensures { OrNoMemory result (FoundForIs q.now st.now pid) }
{
    match Seat::of(alloc, st, pid)? {
        Some(mut seat) => found_on(alloc, q, pid, &mut seat),
        None => Ok(None),
    }
}

// What is found by a member on its seat.
fn found_on(
    alloc: Global,
    q: &Query<'_>,
    pid: Pid,
    seat: &mut Seat,
) -> Result<Option<Found>, NoMemory>
    requires ready { IsReady q.now }
    requires stands { seat.old.space < length q.now.spaces.now }
    ensures { OrNoMemory result (λ found. found ≡ found_at (setting q.now) pid seat.old) }
{
    let singles = single_list(alloc, q, seat.space)?;
    match find_moves(alloc, q, seat, &singles) {
        Some(choices) => {
            let run = run_of(alloc, q, pid, seat, choices)?;
            Ok(Some(Found { run, holder: pid }))
        }
        None => Ok(None),
    }
}
