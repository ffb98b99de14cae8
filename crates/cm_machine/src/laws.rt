// The law of the state that the machine begins with: the function does nothing, and its contract is the law.
ghost use Rattle.cm_machine.specs.Laws.{ReadChainsEnd};

/// In each world that a text declares the chain of forebears of each process ends: each forebear is alive, and
/// following them one comes to a process that has none. `members_are_family` of model_laws asks for it.
#[tactic(auto, using(crate::proofs::Chains::read_chains_end))]
pub fn read_chains_end()
    ensures { ReadChainsEnd }
{}
