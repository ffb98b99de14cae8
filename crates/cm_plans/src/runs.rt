// The events of the moves of a plan.
ghost use Rattle.std.specs.Prelude.{◌≡◌, ◌<◌, ◌++◌, length};
ghost use Rattle.cm_base.specs.Outcome.{OrNoMemory};
ghost use Rattle.cm_plans.specs.Choices.{choice_of, moves_of_three, IsChoiceOfRun};
ghost use Rattle.cm_plans.specs.Moves.{setting, move_of, IsMoveOfRun};
ghost use Rattle.cm_plans.specs.Ready.{IsReady};
ghost use Rattle.cm_plans.specs.declared.moves.Move.TheVariants as move;
ghost use Rattle.model_plans.specs.Move.{call_of};
ghost use Rattle.model_plans.specs.Walk.{after, after_moves, event_of, events_of};

use crate::becoming::up;
use crate::calls::answer;
use crate::choices::Choice;
use crate::moves::{Move, call_for, sought_group};
use crate::query::Query;
use crate::seat::Seat;
use cm_base::{NoMemory, Pid};
use cm_filter::CallKind;
use cm_setid::set_groups;
use cm_state::{Call, Event, Ids};
use std::alloc::Global;

// The events of three choices of a member, and of the raises between them.
pub(crate) fn run_of(
    alloc: Global,
    q: &Query<'_>,
    pid: Pid,
    seat: &mut Seat,
    c: (Choice, Choice, Choice),
) -> Result<Vec<Event>, NoMemory>
    requires ready { IsReady q.now }
    requires stands { seat.old.space < length q.now.spaces.now }
    requires first { IsChoiceOfRun q.now.spaces.now c.0 }
    requires middle { IsChoiceOfRun q.now.spaces.now c.1 }
    requires last { IsChoiceOfRun q.now.spaces.now c.2 }
    ensures { OrNoMemory result (λ run. run.items ≡ events_of (setting q.now) pid seat.old (moves_of_three c)) }
{
    let (first, middle, last) = c;
    let mut run = Vec::new(alloc);
    put(alloc, q, pid, seat, &mut run, Move::Raise)?;
    put_choice(alloc, q, pid, seat, &mut run, first)?;
    put_choice(alloc, q, pid, seat, &mut run, middle)?;
    put(alloc, q, pid, seat, &mut run, Move::Raise)?;
    put_choice(alloc, q, pid, seat, &mut run, last)?;
    put(alloc, q, pid, seat, &mut run, Move::Raise)?;
    Ok(run)
}

// The events of a choice, at the end of the run.
fn put_choice(
    alloc: Global,
    q: &Query<'_>,
    pid: Pid,
    seat: &mut Seat,
    run: &mut Vec<Event>,
    c: Choice,
) -> Result<(), NoMemory>
    requires ready { IsReady q.now }
    requires stands { seat.old.space < length q.now.spaces.now }
    requires standing { IsChoiceOfRun q.now.spaces.now c }
    ensures run { OrNoMemory result (λ _. run.new.items ≡ run.old.items
        ++ events_of (setting q.now) pid seat.old (choice_of c)) }
    ensures seat { OrNoMemory result (λ _. seat.new ≡ after_moves (setting q.now) seat.old (choice_of c)) }
    ensures stands { OrNoMemory result (λ _. seat.new.space < length q.now.spaces.now) }
{
    match c {
        Choice::Nothing => Ok(()),
        Choice::One(m) => put(alloc, q, pid, seat, run, m),
        Choice::Two(m, n) => {
            put(alloc, q, pid, seat, run, m)?;
            put(alloc, q, pid, seat, run, n)?;
            Ok(())
        }
    }
}

// The event of a move, if it makes one.
fn put(
    alloc: Global,
    q: &Query<'_>,
    pid: Pid,
    seat: &mut Seat,
    run: &mut Vec<Event>,
    m: Move,
) -> Result<(), NoMemory>
    requires ready { IsReady q.now }
    requires stands { seat.old.space < length q.now.spaces.now }
    requires standing { IsMoveOfRun q.now.spaces.now m }
    ensures run { OrNoMemory result (λ _. run.new.items ≡ run.old.items
        ++ event_of (setting q.now) pid seat.old (call_of (setting q.now) seat.old (move_of m))) }
    ensures seat { OrNoMemory result (λ _. seat.new ≡ after (setting q.now) seat.old (move_of m)) }
    ensures stands { OrNoMemory result (λ _. seat.new.space < length q.now.spaces.now) }
{
    match m {
        Move::TakeGroup => put_group(alloc, q, pid, seat, run),
        _ => put_single(q, pid, seat, run, m),
    }
}

// The same of each move but that which takes a group.
fn put_single(
    q: &Query<'_>,
    pid: Pid,
    seat: &mut Seat,
    run: &mut Vec<Event>,
    m: Move,
) -> Result<(), NoMemory>
    requires ready { IsReady q.now }
    requires stands { seat.old.space < length q.now.spaces.now }
    requires standing { IsMoveOfRun q.now.spaces.now m }
    requires single { m ≡ move.TakeGroup → ⊥ }
    ensures run { OrNoMemory result (λ _. run.new.items ≡ run.old.items
        ++ event_of (setting q.now) pid seat.old (call_of (setting q.now) seat.old (move_of m))) }
    ensures seat { OrNoMemory result (λ _. seat.new ≡ after (setting q.now) seat.old (move_of m)) }
    ensures stands { OrNoMemory result (λ _. seat.new.space < length q.now.spaces.now) }
{
    match call_for(q, seat, m) {
        Some(call) => {
            let res = answer(q, seat, &call);
            run.push(Event { pid, call, res })?;
            Ok(())
        }
        None => Ok(()),
    }
}

// The event of taking a group.
fn put_group(
    alloc: Global,
    q: &Query<'_>,
    pid: Pid,
    seat: &mut Seat,
    run: &mut Vec<Event>,
) -> Result<(), NoMemory>
    requires stands { seat.old.space < length q.now.spaces.now }
    ensures run { OrNoMemory result (λ _. run.new.items ≡ run.old.items
        ++ event_of (setting q.now) pid seat.old (call_of (setting q.now) seat.old (move_of move.TakeGroup))) }
    ensures seat { OrNoMemory result (λ _. seat.new ≡ after (setting q.now) seat.old (move_of move.TakeGroup)) }
    ensures stands { OrNoMemory result (λ _. seat.new.space < length q.now.spaces.now) }
{
    let Some(id) = sought_group(q.right) else {
        return Ok(());
    };
    let s = q.spaces.standing(seat.space);
    let Some(inside) = up(&s.gids, id) else {
        return Ok(());
    };
    if !q.may.permits(CallKind::SetGroups) {
        return Ok(());
    }
    let mut list = Vec::new(alloc);
    list.push(inside)?;
    let res = set_groups(alloc, &mut seat.cred, s, &list)?;
    let call = Call::SetGroups(Ids::from_vec(list));
    run.push(Event { pid, call, res })?;
    Ok(())
}
