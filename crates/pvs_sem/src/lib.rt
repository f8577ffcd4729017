//! What core trees mean in interpretations by finite sets, and their truth by that of their atoms. Definitions and laws; the program
//! makes no call here.
#![tactic(auto)]

ghost use Rattle.std.specs.Prelude.{◌≡◌};
ghost use Rattle.pvs_sem.specs.Laws.{SetsAreExtensional, MeaningsAreSets, LiftingKeepsMeaning, ReplacementKeepsMeaning, InstancesKeepMeaning, TruthIsValue, TrueTermsAreTrue, BooleanTermsAreTruths};

/// The laws of meaning, for all trees, models and environments. The call does nothing: its contract states them.
pub fn meaning_is_lawful()
    ensures sets { SetsAreExtensional }
    ensures ascending { MeaningsAreSets }
    ensures lifting { LiftingKeepsMeaning }
    ensures replacement { ReplacementKeepsMeaning }
    ensures instances { InstancesKeepMeaning }
    ensures truths { TruthIsValue }
    ensures true_terms { TrueTermsAreTrue }
    ensures boolean_terms { BooleanTermsAreTruths }
{}
