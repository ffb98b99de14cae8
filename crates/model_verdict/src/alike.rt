// On what a verdict depends.
ghost use Rattle.model_verdict.specs.Alike.{AlikeFamilies};

/// Alike families have the same verdict, whatever other processes hold.
#[tactic(auto, using(crate::proofs::Alikes::alike_families))]
pub fn verdicts_rest_on_the_family_alone()
    ensures { AlikeFamilies }
{}
