// The exit of a process (_exit(2)): its children take over its forebear (choice).
ghost use Rattle.std.specs.Prelude.{◌≡◌, ◌<◌, length, map};
ghost use Rattle.cm_machine.specs.Asking.{OfCaller};
ghost use Rattle.model_cred.specs.Process.{after_exit};
ghost use Rattle.model_run.specs.Ruling.{state_without};

use cm_state::{Proc, Procs, State};

/// The exit of the process at this place.
pub(crate) fn exit(state: &mut State, at: usize)
    requires { at < length state.old.processes }
    ensures { OfCaller state.old at (λ p. state.new ≡ state_without state.old p) }
{
    let gone = state.procs.remove(at);
    hand_over(&mut state.procs, &gone);
}

fn hand_over(procs: &mut Procs, gone: &Proc)
    ensures { procs.new ≡ map (after_exit gone.now) procs.old }
{
    hand_all(&mut procs.list, gone);
}

// Each process whose forebear is the one that is gone takes over that one's.
fn hand_all(list: &mut [Proc], gone: &Proc)
    ensures { list.new ≡ map (after_exit gone.now) list.old }
{
    for p in list.iter_mut() {
        take_over(p, gone);
    }
}

fn take_over(p: &mut Proc, gone: &Proc)
    ensures { p.new ≡ after_exit gone.now p.old }
{
    if p.forebear == Some(gone.pid) {
        p.forebear = gone.forebear;
    }
}
