// The rules are asked here, and here alone: what they answer a call of a process that its filter permits, and what the
// call changes. `ask` is `permitted_ruling` of the definitions, but that a birth, an exit, an install and what a call
// does to the spaces are still to be made, and any change can be undone.
ghost use Rattle.std.specs.Prelude.{◌≡◌, ◌<◌, ℕ, length, List, true, false, IfSome, OnErr};
ghost use Rattle.cm_base.specs.Limits.{greatest_number};
ghost use Rattle.cm_base.specs.Outcome.{OrNoMemory, UnchangedOnErr};
ghost use Rattle.cm_machine.specs.Asking.{AsksRules, CanKeep, change_by, cred_after, groups_change, makes_new, pid_number, state_of, where_done};
ghost use Rattle.cm_machine.specs.Outcomes.{takes_memory};
ghost use Rattle.cm_base.specs.declared.errno.Errno.{Errno};
ghost use Rattle.cm_base.specs.declared.res.Res.TheVariants.{Done};
ghost use Rattle.cm_machine.specs.declared.change.Change.TheVariants as change;
ghost use Rattle.cm_nscalls.specs.Answers.{res_of, stored_list};
ghost use Rattle.cm_nscalls.specs.File.{file_of};
ghost use Rattle.cm_state.specs.Call.{call_of};
ghost use Rattle.cm_declared.specs.World.{world_of};
ghost use Rattle.model_cred.specs.Process.{Process, is_alive};
ghost use Rattle.model_rules.specs.Maps.{write_map};
ghost use Rattle.model_rules.specs.SetGroups.{setgroups};
ghost use Rattle.model_run.specs.Ruling.{permitted_ruling};
ghost use Rattle.model_run.specs.Step.{names_no_space};

use crate::births::{birth, inner_birth};
use crate::change::Change;
use crate::filters::may_install;
use cm_base::{Errno, NoMemory, Pid, Res};
use cm_capcalls::{
    amb_clear, amb_lower, amb_raise, bset_drop, cap_set, keep_caps, no_new_privs, secure_bits,
};
use cm_declared::World;
use cm_exec::exec;
use cm_idmap::Extent;
use cm_nscalls::{MapFile, Write, map_to_store, may_join, may_make, may_write_word};
use cm_setid::{
    set_fsgid, set_fsuid, set_gid, set_groups, set_regid, set_resgid, set_resuid, set_reuid,
    set_uid,
};
use cm_state::{Call, Cred, Groups, Proc, Space, Spaces, State};
use std::alloc::Global;
use std::mem;

/// What the rules answer a call, and what the call has changed.
#[derive(Debug, Drop)]
pub(crate) struct Asked {
    pub res: Res,
    pub change: Change,
}

/// Asks the rules for the call of the process at this place, which its filter permits, a birth with that pid for its
/// child. What the call changes is written to the place that is given for it, which says before that no more than
/// fields may change: where that is so, as for most calls, nothing is written there. It fails only where memory runs
/// out, of a call that can take memory, and then the state is unchanged.
#[inline]
pub(crate) fn ask(
    alloc: Global,
    w: &World,
    state: &mut State,
    at: usize,
    call: &Call,
    child: Option<Pid>,
    changed: &mut Change,
) -> Result<Res, NoMemory>
    requires here { at < length state.old.processes }
    requires fields { changed.old ≡ change.Fields }
    requires fresh { IfSome child (λ pid. is_alive state.old.processes pid ≡ false) }
    requires stands { names_no_space state.old.spaces (call_of call.now) ≡ false }
    requires room { length state.old.spaces < greatest_number }
    ensures asked { OrNoMemory result (λ res. AsksRules (record { res = res; change = changed.new }) at state.new state.old
        (λ p. permitted_ruling (world_of w.now) state.old p (call_of call.now) (pid_number child))) }
    ensures can { OrNoMemory result (λ _. CanKeep changed.new state.new) }
    ensures made { OrNoMemory result (λ _. makes_new changed.new ≡ true → takes_memory (call_of call.now) ≡ true) }
    ensures memory { OnErr result (takes_memory (call_of call.now) ≡ true) }
    ensures still { at < length state.new.processes }
    ensures unchanged { UnchangedOnErr result state.new state.old }
{
    let procs = &mut state.procs;
    let p = &mut procs.list[at];
    ask_caller(alloc, w, p, &state.spaces, call, child, changed)
}

// The same for the process alone, by the rules of each call.
#[inline]
fn ask_caller(
    alloc: Global,
    w: &World,
    p: &mut Proc,
    spaces: &Spaces,
    call: &Call,
    child: Option<Pid>,
    changed: &mut Change,
) -> Result<Res, NoMemory>
    requires inside { p.old.space < length spaces.now }
    requires fields { changed.old ≡ change.Fields }
    requires stands { names_no_space spaces.now (call_of call.now) ≡ false }
    ensures res { (processes : List Process) → OrNoMemory result (λ res.
        res ≡ (permitted_ruling (world_of w.now) (state_of processes spaces.now) p.old (call_of call.now) (pid_number child)).res) }
    ensures cred { OrNoMemory result (λ _. p.new.cred ≡ cred_after (world_of w.now) spaces.now p.old (call_of call.now)) }
    ensures change { OrNoMemory result (λ res. changed.new ≡ change_by spaces.now (call_of call.now) res p.old.cred) }
    ensures rest { p.new ≡ record p.old { cred = p.new.cred } }
    ensures memory { OnErr result (takes_memory (call_of call.now) ≡ true) }
    ensures unchanged { UnchangedOnErr result p.new p.old }
{
    let at = p.space;
    let s = spaces.standing(at);
    let c = &mut *p.cred;
    let res = match call {
        Call::SetUid(id) => set_uid(c, s, *id),
        Call::SetReUid(r, e) => set_reuid(c, s, *r, *e),
        Call::SetResUid(r, e, v) => set_resuid(c, s, *r, *e, *v),
        Call::SetFsUid(id) => set_fsuid(c, s, *id),
        Call::SetGid(id) => set_gid(c, s, *id),
        Call::SetReGid(r, e) => set_regid(c, s, *r, *e),
        Call::SetResGid(r, e, v) => set_resgid(c, s, *r, *e, *v),
        Call::SetFsGid(id) => set_fsgid(c, s, *id),
        Call::CapSet { eff, prm, inh } => cap_set(c, *eff, *prm, *inh),
        Call::BsetDrop(cap) => bset_drop(c, *cap),
        Call::AmbRaise(cap) => amb_raise(c, *cap),
        Call::AmbLower(cap) => amb_lower(c, *cap),
        Call::AmbClear => amb_clear(c),
        Call::SecureBits(bits) => secure_bits(c, *bits),
        Call::KeepCaps(argument) => keep_caps(c, *argument),
        Call::NoNewPrivs(argument) => no_new_privs(c, *argument),
        Call::Exec(f) => exec(c, spaces, at, &w.files, *f),
        Call::SetGroups(ids) => {
            let asked = ask_groups(alloc, c, s, ids.items())?;
            return Ok(leave(asked, changed));
        }
        Call::Fork => return Ok(leave(birth(child), changed)),
        Call::CloneUser => {
            let may = may_make(c, spaces, at);
            return Ok(leave(inner_birth(may, child), changed));
        }
        Call::Unshare => {
            let may = may_make(c, spaces, at);
            return Ok(leave(to_make(may, Change::Space), changed));
        }
        Call::SetNs(n) => {
            let may = may_join(c, spaces, at, *n);
            return Ok(leave(to_make(may, Change::Join(*n)), changed));
        }
        Call::WriteUidMap(n, given) => {
            let w = Write {
                file: MapFile::UidMap,
                at,
                target: *n,
            };
            let asked = ask_map(alloc, w, c, spaces, given.items())?;
            return Ok(leave(asked, changed));
        }
        Call::WriteGidMap(n, given) => {
            let w = Write {
                file: MapFile::GidMap,
                at,
                target: *n,
            };
            let asked = ask_map(alloc, w, c, spaces, given.items())?;
            return Ok(leave(asked, changed));
        }
        Call::WriteSetgroups { space, deny } => {
            let may = may_write_word(c, spaces, at, *space, *deny);
            return Ok(leave(to_make(may, Change::Word(*space, *deny)), changed));
        }
        Call::Exit => {
            *changed = Change::Exit;
            return Ok(Res::Done);
        }
        Call::Install(more) => {
            let may = may_install(c);
            return Ok(leave(to_make(may, Change::Install(*more)), changed));
        }
    };
    Ok(res)
}

// What the rules answer; the change is written to the place that is given for it.
fn leave(asked: Asked, changed: &mut Change) -> Res
    ensures res { result ≡ asked.res }
    ensures change { changed.new ≡ asked.change }
{
    *changed = asked.change;
    asked.res
}

// setgroups: the old groups are moved out, and back where they stay.
fn ask_groups(alloc: Global, c: &mut Cred, s: &Space, ids: &[u32]) -> Result<Asked, NoMemory>
    ensures res { OrNoMemory result (λ asked. asked.res ≡ (setgroups s.now c.old ids.now).res) }
    ensures cred { OrNoMemory result (λ _. c.new ≡ (setgroups s.now c.old ids.now).cred) }
    ensures change { OrNoMemory result (λ asked. asked.change ≡ groups_change asked.res c.old.groups) }
    ensures unchanged { UnchangedOnErr result c.new c.old }
{
    let old = mem::replace(&mut c.groups, Groups::empty(alloc));
    match set_groups(alloc, c, s, ids) {
        Ok(res) => Ok(regrouped(c, old, res)),
        Err(why) => {
            c.groups = old;
            Err(why)
        }
    }
}

// The answer of setgroups, before which there were these groups: they come back where it isn't done.
fn regrouped(c: &mut Cred, old: Groups, res: Res) -> Asked
    ensures res { result.res ≡ res }
    ensures change { result.change ≡ groups_change res old }
    ensures done { res ≡ Done → c.new ≡ c.old }
    ensures back { (res ≡ Done → ⊥) → c.new ≡ record c.old { groups = old } }
{
    match res {
        Res::Done => Asked {
            res,
            change: Change::Groups(old),
        },
        _ => {
            c.groups = old;
            Asked {
                res,
                change: Change::Nothing,
            }
        }
    }
}

// A write of that list to a map: what is stored of it is still to be written.
fn ask_map(
    alloc: Global,
    w: Write,
    c: &Cred,
    spaces: &Spaces,
    given: &[Extent],
) -> Result<Asked, NoMemory>
    requires { w.target.0 < length spaces.now }
    ensures res { OrNoMemory result (λ asked. asked.res ≡ (write_map (file_of w.file) spaces.now w.at.0 c.now w.target.0 given.now).res) }
    ensures change { OrNoMemory result (λ asked. asked.change
        ≡ where_done asked.res (change.Map w.file w.target (stored_list (file_of w.file) spaces.now w.target.0 given.now))) }
{
    match map_to_store(alloc, w, c, spaces, given)? {
        Ok(map) => Ok(Asked {
            res: Res::Done,
            change: Change::Map(w.file, w.target, map),
        }),
        Err(why) => Ok(refused(why)),
    }
}

// The call is done, and this is still to be made of it; or it is refused.
fn to_make(may: Result<(), Errno>, change: Change) -> Asked
    ensures res { result.res ≡ res_of may }
    ensures change { result.change ≡ where_done result.res change }
{
    match may {
        Ok(()) => Asked {
            res: Res::Done,
            change,
        },
        Err(why) => refused(why),
    }
}

/// The call is refused, and changes nothing.
pub(crate) fn refused(why: Errno) -> Asked
    ensures { result ≡ record { res = Res.Err why; change = change.Nothing } }
{
    Asked {
        res: Res::Err(why),
        change: Change::Nothing,
    }
}
