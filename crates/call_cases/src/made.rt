// A call of a process, made by the rules: its credential, its place and the spaces are then as the rules leave them.
use crate::spaces::space_call;
use case_lines::Stop;
use cm_base::Res;
use cm_capcalls::{
    amb_clear, amb_lower, amb_raise, bset_drop, cap_set, keep_caps, no_new_privs, secure_bits,
};
use cm_exec::exec;
use cm_files::FileTable;
use cm_setid::{
    set_fsgid, set_fsuid, set_gid, set_groups, set_regid, set_resgid, set_resuid, set_reuid,
    set_uid,
};
use cm_state::{Call, Cred, Proc, Space, Spaces};
use std::alloc::Global;

// What is answered. Bad for a birth and for an exit, of which these rules know nothing.
pub(crate) fn made(
    alloc: Global,
    files: &FileTable,
    p: &mut Proc,
    spaces: &mut Spaces,
    call: &Call,
) -> Result<Res, Stop> {
    let at = p.space;
    if at.0 >= spaces.count() {
        return Err(Stop::Bad);
    }
    match call {
        Call::SetUid(_) | Call::SetReUid(_, _) | Call::SetResUid(_, _, _) | Call::SetFsUid(_) => {
            user_call(&mut *p.cred, spaces.standing(at), call)
        }
        Call::SetGid(_) | Call::SetReGid(_, _) | Call::SetResGid(_, _, _) | Call::SetFsGid(_) => {
            group_call(&mut *p.cred, spaces.standing(at), call)
        }
        Call::SetGroups(ids) => {
            let s = spaces.standing(at);
            Ok(set_groups(alloc, &mut *p.cred, s, ids.items())?)
        }
        Call::Unshare
        | Call::SetNs(_)
        | Call::WriteUidMap(_, _)
        | Call::WriteGidMap(_, _)
        | Call::WriteSetgroups { .. } => space_call(alloc, p, spaces, call),
        Call::Exec(f) => Ok(exec(&mut *p.cred, spaces, at, files, *f)),
        _ => cap_call(&mut *p.cred, call),
    }
}

fn user_call(c: &mut Cred, s: &Space, call: &Call) -> Result<Res, Stop> {
    match call {
        Call::SetUid(id) => Ok(set_uid(c, s, *id)),
        Call::SetReUid(r, e) => Ok(set_reuid(c, s, *r, *e)),
        Call::SetResUid(r, e, v) => Ok(set_resuid(c, s, *r, *e, *v)),
        Call::SetFsUid(id) => Ok(set_fsuid(c, s, *id)),
        _ => Err(Stop::Bad),
    }
}

fn group_call(c: &mut Cred, s: &Space, call: &Call) -> Result<Res, Stop> {
    match call {
        Call::SetGid(id) => Ok(set_gid(c, s, *id)),
        Call::SetReGid(r, e) => Ok(set_regid(c, s, *r, *e)),
        Call::SetResGid(r, e, v) => Ok(set_resgid(c, s, *r, *e, *v)),
        Call::SetFsGid(id) => Ok(set_fsgid(c, s, *id)),
        _ => Err(Stop::Bad),
    }
}

fn cap_call(c: &mut Cred, call: &Call) -> Result<Res, Stop> {
    match call {
        Call::CapSet { eff, prm, inh } => Ok(cap_set(c, *eff, *prm, *inh)),
        Call::BsetDrop(cap) => Ok(bset_drop(c, *cap)),
        Call::AmbRaise(cap) => Ok(amb_raise(c, *cap)),
        Call::AmbLower(cap) => Ok(amb_lower(c, *cap)),
        Call::AmbClear => Ok(amb_clear(c)),
        Call::SecureBits(bits) => Ok(secure_bits(c, *bits)),
        Call::KeepCaps(argument) => Ok(keep_caps(c, *argument)),
        Call::NoNewPrivs(argument) => Ok(no_new_privs(c, *argument)),
        _ => Err(Stop::Bad),
    }
}
