// A law of audits. The function does nothing but look at what its states keep: its contract is the law.
ghost use Rattle.cm_audit.specs.Laws.{VerdictsAreIsolated};

use cm_machine::Machine;
use cm_state::see_state;

/// Two machines of one world with equal spaces, in which the families of a process have the same pids, spaces,
/// credentials and filters, have one verdict, run and rows included, whatever other processes hold.
#[tactic(auto, using(crate::proofs::Isolated::verdicts_are_isolated))]
pub fn audits_rest_on_the_family_alone(one: &Machine, two: &Machine)
    ensures { VerdictsAreIsolated one.now.state two.now.state }
{
    see_state(&one.state);
    see_state(&two.state);
}
