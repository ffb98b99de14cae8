// Sentences of the manual pages, said a second time.
ghost use Rattle.model_laws.specs.Sentences.{SavedAfterSetReUid, SavedAfterSetReGid, RootSets, RootGainsAll, ExceptionGainsOwn};
ghost use Rattle.model_laws.specs.Writers.{WhoWritesMaps};

/// The saved user id after setreuid(2).
#[tactic(auto, using(crate::proofs::SavedIds::saved_after_setreuid))]
pub fn saved_after_setreuid()
    ensures { SavedAfterSetReUid }
{}

/// The saved group id after setregid(2).
#[tactic(auto, using(crate::proofs::SavedIds::saved_after_setregid))]
pub fn saved_after_setregid()
    ensures { SavedAfterSetReGid }
{}

/// The sets of a file that root runs, with the exception for a set-user-ID-root file that has capabilities attached.
#[tactic(auto, using(crate::proofs::RootFiles::root_sets))]
pub fn root_sets()
    ensures { RootSets }
{}

/// Root gains its inheritable and bounding sets.
#[tactic(auto, using(crate::proofs::RootFiles::root_gains_all))]
pub fn root_gains_all()
    ensures { RootGainsAll }
{}

/// By the exception a program gains what its own capabilities give alone.
#[tactic(auto, using(crate::proofs::RootFiles::exception_gains_own))]
pub fn exception_gains_own()
    ensures { ExceptionGainsOwn }
{}

/// Who may write which id map of a space.
#[tactic(auto, using(crate::proofs::Writing::who_writes_maps))]
pub fn who_writes_maps()
    ensures { WhoWritesMaps }
{}
