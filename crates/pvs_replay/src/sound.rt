//! A sequent that a script proves is true.

ghost use Rattle.std.specs.Prelude.{◌≡◌, Bool, List};
ghost use Rattle.pvs_terms.specs.Tree.{Ref};
ghost use Rattle.pvs_script.specs.declared.tree.Script.{Script};
ghost use Rattle.pvs_sem.specs.Truth.{TruthAssignment};
ghost use Rattle.pvs_sequent.specs.Sequents.{Sequent};
ghost use Rattle.pvs_sequent.specs.Truth.{IsTrueSequent};
ghost use Rattle.pvs_replay.specs.Effects.{Effects};
ghost use Rattle.pvs_replay.specs.Replaying.{Proved, replay};
ghost use Rattle.pvs_replay.specs.Soundness.{AreTrueFormulas, KeepsTruth};
ghost use Rattle.pvs_replay.specs.Logic.{logic_effect};

/// Where each step keeps truth, a sequent that a script proves is true, provided that the formulas
/// that its steps cite are.
pub fn replay_keeps_truth()
    ensures { (effect : Effects) (v : TruthAssignment) (is_true : Ref → Bool) → KeepsTruth v is_true effect → (x : Script) (q : Sequent) (cited uses : List Ref) → replay effect x q ≡ Proved cited uses → AreTrueFormulas is_true cited → IsTrueSequent v q }
{}

/// A sequent that a script proves by rules of logic is true under each truth assignment.
pub fn logic_keeps_truth()
    ensures { (v : TruthAssignment) (x : Script) (q : Sequent) (cited uses : List Ref) → replay logic_effect x q ≡ Proved cited uses → IsTrueSequent v q }
{}
