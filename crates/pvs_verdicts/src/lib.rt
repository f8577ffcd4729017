//! What is reported for theories of simple types, and that what is reported complete is true. The program makes no call
//! here: its contracts cite the definitions.
//!
//! After Owre and Shankar, The Formal Semantics of PVS (CSL-97-2), models of theories and proof rules.
#![tactic(auto)]

ghost use Rattle.pvs_verdicts.specs.SoundFacts.{ReportedCanBeFalse};
ghost use Rattle.pvs_verdicts.specs.Soundness.{ReportsAreSound};

/// What a report promises. The call does nothing: its contract states it.
///
/// Each lemma of an accepted theory that the report of a text prints as complete is TRUE in every interpretation by finite
/// sets that fits the entries before it. There it is inside, as those entries are: each name has a meaning, and each argument
/// is in the domain of its function.
pub fn reports_are_sound()
    ensures { ReportsAreSound }
{}

/// What a report prints as open need not be true. The call does nothing: its contract states it.
///
/// There is a text whose report prints a lemma as open, and an interpretation by finite sets that fits its theory and makes
/// the lemma FALSE. So the other contract says of complete lemmas what does not hold of every lemma.
pub fn reported_can_be_false()
    ensures { ReportedCanBeFalse }
{}
