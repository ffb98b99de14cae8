// The filters of processes (seccomp(2)): what they exclude, who may install one, and what that leaves.
ghost use Rattle.std.specs.Prelude.{◌≡◌, ◌<◌, length, slice_get, Some};
ghost use Rattle.cm_machine.specs.Asking.{OfCaller, filtered, is_excluded};
ghost use Rattle.cm_nscalls.specs.Answers.{res_of};
ghost use Rattle.cm_state.specs.Call.{call_of};
ghost use Rattle.model_cred.specs.Process.{Process};
ghost use Rattle.model_rules.specs.Install.{install as model_install, may_install as model_may_install, with_installed};
ghost use Rattle.model_run.specs.Own.{shared_filter};

use cm_base::{Cap, Errno, Pid};
use cm_filter::{CallKind, Filter};
use cm_state::{Call, Cred, Proc, Procs, State};

/// The own filter of the process at this place excludes the call.
#[inline]
pub(crate) fn is_excluded(procs: &Procs, at: usize, call: &Call) -> bool
    requires { at < length procs.now }
    ensures { (p : Process) → slice_get procs.now at ≡ Some p → result ≡ is_excluded p (call_of call.now) }
{
    let p = &procs.list[at];
    !p.filter.permits(call.kind())
}

/// Whether a process with these credentials may install a filter, by its answer: EACCES unless no_new_privs is set or
/// it has CAP_SYS_ADMIN (seccomp(2), "ERRORS").
pub(crate) fn may_install(c: &Cred) -> Result<(), Errno>
    ensures { res_of result ≡ (model_install c.now).res }
{
    if has_leave(c) {
        Ok(())
    } else {
        Err(Errno::EACCES)
    }
}

// No_new_privs is set, or the caller has CAP_SYS_ADMIN.
fn has_leave(c: &Cred) -> bool
    ensures { result ≡ model_may_install c.now }
{
    c.nnp || c.eff.holds(Cap::SYS_ADMIN)
}

/// The process at this place installs the filter.
pub(crate) fn install(state: &mut State, at: usize, more: Filter)
    requires { at < length state.old.processes }
    ensures { OfCaller state.old at (λ p. state.new ≡ filtered state.old p more) }
{
    let procs = &mut state.procs;
    let p = &mut procs.list[at];
    add_filter(p, more);
}

// The process excludes also what the filter does, but exit (choice). No filter is ever taken off.
fn add_filter(p: &mut Proc, more: Filter)
    ensures { p.new ≡ record p.old { filter = with_installed p.old.filter more } }
{
    p.filter = p.filter.with(more.permitting(CallKind::Exit));
}

/// What the own filters of all these processes exclude. One that isn't alive makes no call.
pub(crate) fn shared_by(state: &State, members: &[Pid]) -> Filter
    ensures { result ≡ shared_filter state.now members.now }
{
    let mut shared = Filter::every_kind();
    for pid in members {
        shared = shared.shared(state.filter_of(*pid));
    }
    shared
}
