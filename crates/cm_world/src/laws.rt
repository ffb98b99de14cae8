// The law of the worlds that texts declare: the function does nothing, and its contract is the law.
ghost use Rattle.cm_world.specs.Laws.{ReadWorldsKeep};

/// Each world that a text declares keeps what a world keeps: pids ascend, each process is in a space that stands, each
/// credential has its ids, groups, sets and securebits as a credential keeps them, the spaces form a tree, and so on for
/// mounts and files (docs/RULES.md).
#[tactic(auto, using(crate::proofs::Keeping::read_worlds_keep))]
pub fn read_worlds_keep()
    ensures { ReadWorldsKeep }
{}
