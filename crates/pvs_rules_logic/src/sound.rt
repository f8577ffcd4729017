//! A step keeps truth.

ghost use Rattle.std.specs.Prelude.{◌≡◌, List, Ok};
ghost use Rattle.pvs_sem.specs.Truth.{TruthAssignment};
ghost use Rattle.pvs_sequent.specs.Sequents.{Sequent};
ghost use Rattle.pvs_sequent.specs.Truth.{IsTrueSequent, AreTrueSequents};
ghost use Rattle.pvs_rules_logic.specs.Rules.{Rule};
ghost use Rattle.pvs_rules_logic.specs.Step.{step};

/// A sequent is true under each truth assignment under which all premises of a step on it are.
pub fn step_keeps_truth()
    ensures { (v : TruthAssignment) (q : Sequent) (r : Rule) (ps : List Sequent) → step q r ≡ Ok ps → AreTrueSequents v ps → IsTrueSequent v q }
{}
