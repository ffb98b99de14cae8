// The pid of a child that no one tells: the least one that isn't alive (choice).
ghost use Rattle.std.specs.Prelude.{◌≡◌, ℕ, ◌<◌, ◌≤◌, true, false, IfSome};
ghost use Rattle.cm_machine.specs.Asking.{state_of};
ghost use Rattle.model_cred.specs.Process.{Ascends, as_pid, is_alive, is_pid};
ghost use Rattle.model_cred.specs.Space.{Spaces};
ghost use Rattle.model_run.specs.Ruling.{free_pid};

use cm_base::Pid;
use cm_state::{Proc, Procs};

/// The least pid that isn't alive. None exactly where all are.
pub(crate) fn least_free(procs: &Procs) -> Option<Pid>
    requires { Ascends procs.now }
    ensures least { (spaces : Spaces) → result ≡ as_pid (free_pid (state_of procs.now spaces)) }
    ensures free { IfSome result (λ pid. is_alive procs.now pid ≡ false) }
{
    Pid::new(first_gap(procs.items()))
}

// The least number from 1 on that is no pid of the list, which ascends.
fn first_gap(list: &[Proc]) -> u32
    requires { Ascends list.now }
    ensures positive { 1 ≤ result }
    ensures alive { (pid : ℕ) → 1 ≤ pid → pid < result → is_alive list.now pid ≡ true }
    ensures free { is_alive list.now result ≡ false }
{
    let mut next = 1;
    for p in list {
        if p.pid.number() != next {
            return next;
        }
        next += 1;
    }
    next
}

/// The number of a pid is one. It does nothing but ask for the number, whose range a proof knows from there.
pub(crate) fn see_pid(pid: Pid)
    ensures { is_pid pid ≡ true }
{
    pid.number();
}
