// What a call has changed of its caller, as it was before, and what is still to be made of it: where the told result is
// the rules' own, the change is kept, and else it is undone. A birth, an exit and what a call does to the spaces are
// made as they are kept, and so is an install, since their answers are known before: an exit can't be undone, as
// nothing shows which children had the one that is gone, and what was never made needs no undoing.
ghost use Rattle.std.specs.Prelude.{◌≡◌, ◌<◌, length, true, OnErr};
ghost use Rattle.cm_base.specs.Outcome.{OrNoMemory, UnchangedOnErr};
ghost use Rattle.cm_machine.specs.Asking.{CanKeep, OfCaller, kept, makes_new, undone, undone_cred};
ghost use Rattle.model_cred.specs.Credential.{Credential};
ghost use Rattle.model_cred.specs.Process.{Process};

use crate::births::{clone_as, fork_as};
use crate::entries::{enter_new, join};
use crate::exits::exit;
use crate::filters::install;
use cm_base::{NoMemory, Pid, SpaceId};
use cm_filter::Filter;
use cm_idmap::IdMap;
use cm_nscalls::{MapFile, set_map};
use cm_state::{Cred, Groups, State};
use std::alloc::Global;
use std::mem;

/// What may have to be undone of a call.
#[derive(Debug, Drop)]
pub(crate) enum Change {
    /// It changed nothing.
    Nothing,
    /// It may have changed fields of the caller's credentials, and nothing else: its groups stayed.
    Fields,
    /// The caller had these groups; all else stayed.
    Groups(Groups),
    /// A child of this pid is to be born. Nothing changed so far.
    Birth(Pid),
    /// A child of this pid is to be born in a space that is to be made for it. Nothing changed so far.
    InnerBirth(Pid),
    /// The caller is to make a space and to come into it. Nothing changed so far.
    Space,
    /// The caller is to come into this space. Nothing changed so far.
    Join(SpaceId),
    /// This map of the space is to be written. Nothing changed so far.
    Map(MapFile, SpaceId, IdMap),
    /// The setgroups word of the space is to be written: "deny" where it is true. Nothing changed so far.
    Word(SpaceId, bool),
    /// The caller is to go. Nothing changed so far.
    Exit,
    /// The caller is to install this filter. Nothing changed so far.
    Install(Filter),
}

/// Keeps what the process at this place has changed, and makes what is still to be made of it. Births and new spaces
/// alone take memory; where it runs out nothing has changed.
#[inline]
pub(crate) fn keep(
    alloc: Global,
    state: &mut State,
    at: usize,
    change: Change,
) -> Result<(), NoMemory>
    requires here { at < length state.old.processes }
    requires can { CanKeep change state.old }
    ensures kept { OrNoMemory result (λ _. OfCaller state.old at (λ p. state.new ≡ kept change p state.old)) }
    ensures unchanged { UnchangedOnErr result state.new state.old }
    ensures nothing { OnErr result ((old : Credential) (p : Process) → undone change old p state.old ≡ state.old) }
    ensures memory { OnErr result (makes_new change ≡ true) }
{
    match change {
        Change::Birth(pid) => fork_as(alloc, state, at, pid),
        Change::InnerBirth(pid) => clone_as(alloc, state, at, pid),
        Change::Space => enter_new(state, at),
        Change::Join(n) => {
            join(state, at, n);
            Ok(())
        }
        Change::Map(file, n, map) => {
            set_map(file, &mut state.spaces, n, map);
            Ok(())
        }
        Change::Word(n, deny) => {
            state.spaces.set_deny(n, deny);
            Ok(())
        }
        Change::Exit => {
            exit(state, at);
            Ok(())
        }
        Change::Install(more) => {
            install(state, at, more);
            Ok(())
        }
        Change::Nothing | Change::Fields | Change::Groups(_) => Ok(()),
    }
}

/// Undoes what the process at this place has changed, which had the old credentials. Their groups aren't looked at.
pub(crate) fn undo(state: &mut State, at: usize, change: Change, old: Cred)
    requires { at < length state.old.processes }
    ensures { OfCaller state.old at (λ p. state.new ≡ undone change old p state.old) }
{
    let procs = &mut state.procs;
    let p = &mut procs.list[at];
    undo_cred(&mut *p.cred, change, old);
}

fn undo_cred(c: &mut Cred, change: Change, old: Cred)
    ensures { c.new ≡ undone_cred change old c.old }
{
    match change {
        Change::Fields => put_fields(c, old),
        Change::Groups(groups) => c.groups = groups,
        _ => {}
    }
}

// The old credentials come back, but the groups stay.
fn put_fields(c: &mut Cred, old: Cred)
    ensures { c.new ≡ record old { groups = c.old.groups } }
{
    let mut old = old;
    mem::swap(&mut old.groups, &mut c.groups);
    *c = old;
}
