// What each state keeps, handed out of the types that keep it. Each function does nothing but look at the parts, of which
// a proof knows from there what they keep.
ghost use Rattle.std.specs.Prelude.{All, IfSome};
ghost use Rattle.model_cred.specs.Credential.{Keeps};
ghost use Rattle.model_cred.specs.IdMap.{HasIds, extents_of};
ghost use Rattle.model_cred.specs.MapFault.{IsMap};
ghost use Rattle.model_cred.specs.Process.{KeepsState};
ghost use Rattle.model_cred.specs.Space.{KeepsSpace};

use crate::{Cred, Proc, Space, State};
use cm_idmap::IdMap;

/// What each state keeps, for proofs: its types keep it, so there is nothing to be done. It takes no memory.
pub fn see_state(st: &State)
    ensures { KeepsState st.now }
{
    see_processes(st.procs.items());
    st.spaces.see();
}

// Each process has what a credential keeps.
fn see_processes(list: &[Proc])
    ensures { All (λ p. Keeps p.cred) list.now }
{
    for p in list {
        see_cred(&p.cred);
    }
}

// The credential has what a credential keeps.
fn see_cred(c: &Cred)
    ensures { Keeps c.now }
{
    c.ruid.number();
    c.euid.number();
    c.suid.number();
    c.fsuid.number();
    c.rgid.number();
    c.egid.number();
    c.sgid.number();
    c.fsgid.number();
    c.groups.see();
    c.inh.bits();
    c.prm.bits();
    c.bnd.bits();
    c.sec.bits();
}

// Each space has what a space keeps.
pub(crate) fn see_spaces(list: &[Space])
    ensures { All KeepsSpace list.now }
{
    for s in list {
        see_space(s);
    }
}

// The space has what a space keeps.
fn see_space(s: &Space)
    ensures { KeepsSpace s.now }
{
    s.owner.number();
    see_map(&s.uids);
    see_map(&s.gids);
}

// A map that is written is a map, and has ids alone.
#[tactic(auto, using(model_rules::proofs::Downs::map_has_ids))]
fn see_map(map: &Option<IdMap>)
    ensures ids { HasIds (extents_of map.now) }
    ensures map { IfSome map.now IsMap }
{
    match map {
        Some(map) => {
            map.extents();
        }
        None => {}
    }
}
