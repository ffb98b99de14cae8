// Settled families.
ghost use Rattle.model_verdict.specs.Back.{KeptTakeBack, MapsTakeBack, RunsKeepTakingBack};
ghost use Rattle.model_verdict.specs.Decides.{SettledIsFound, SettledDecides, SettledIsNeverOpen};

/// Where a family is settled, and all closed covering bounds meet a right, a plan of the list ends holding it.
#[tactic(auto, using(crate::proofs::Decided::settled_is_found))]
pub fn settled_families_find_what_all_bounds_meet()
    ensures { SettledIsFound }
{}

/// So where the least closed covering bounds of a settled family meet a right, a plan of the list ends holding it.
#[tactic(auto, using(crate::proofs::Decided::settled_decides))]
pub fn settled_families_are_decided()
    ensures { SettledDecides }
{}

/// The verdict on a settled family is never open.
#[tactic(auto, using(crate::proofs::Decided::settled_is_never_open))]
pub fn settled_families_are_never_open()
    ensures { SettledIsNeverOpen }
{}

/// Each list that is a map takes its outside ids up and back.
#[tactic(auto, using(crate::proofs::MapsBack::maps_take_back))]
pub fn maps_take_their_ids_back()
    ensures { MapsTakeBack }
{}

/// Where the maps of all spaces do, they do after each run.
#[tactic(auto, using(crate::proofs::MapsStay::runs_keep_taking_back))]
pub fn runs_keep_maps_taking_back()
    ensures { RunsKeepTakingBack }
{}

/// In each state that keeps what a state keeps, the maps of all spaces take their outside ids up and back.
#[tactic(auto, using(crate::proofs::MapsBack::kept_take_back))]
pub fn kept_states_take_their_ids_back()
    ensures { KeptTakeBack }
{}
