// An event: one completed call of one process, as a log tells it.
use crate::Call;
use cm_base::{Pid, Res};
use std::marker::Model;

/// A call of the process, and what it answered.
#[derive(Debug, Drop)]
pub struct Event {
    pub pid: Pid,
    pub call: Call,
    pub res: Res,
}

impl Model for Event {
    ghost use Rattle.std.specs.Coded.{codes};
    ghost use Rattle.model_cred.specs.Call as model;
    ghost use Rattle.cm_state.specs.Call.{call_of};
    ghost use Rattle.cm_state.specs.CallCode.{coded_call};

    ghost Value = { model.Event };

    ghost coded = { Prim.hlevel (coded_call, codes) };

    ghost view = { λ e. record { pid = e.pid; call = call_of e.call; res = e.res } };
}
