// The laws of power over spaces (user_namespaces(7), "Capabilities").
ghost use Rattle.model_laws.specs.Powers.{PowerIsComputed, NoPowerAbove, PowerOverOwnSpace};

/// The relation of power and the function that computes it agree.
#[tactic(auto, using(crate::proofs::Chains::power_is_computed))]
pub fn power_is_computed()
    ensures { PowerIsComputed }
{}

/// Nobody has power over a space above his own.
#[tactic(auto, using(crate::proofs::Chains::no_power_above))]
pub fn no_power_above()
    ensures { NoPowerAbove }
{}

/// Over his own space a member has exactly what is in his effective set.
#[tactic(auto, using(crate::proofs::Chains::power_over_own_space))]
pub fn power_over_own_space()
    ensures { PowerOverOwnSpace }
{}
