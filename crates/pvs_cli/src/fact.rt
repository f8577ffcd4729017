//! A fact about the definitions that the top call's contract rests on.

ghost use Rattle.pvs_cli.specs.SoundFacts.{ReportedCanBeFalse};

/// What a report prints as open need not be true: there is a text whose report prints a lemma as
/// open, and a truth assignment that fits its theory and makes the lemma FALSE. So the contract of
/// `run` says of complete lemmas what does not hold of every lemma.
pub fn reported_can_be_false()
    ensures { ReportedCanBeFalse }
{}
