//! Soundness of proofs: a formula of a theory that a script proves holds in each model that fits the theory. The program
//! makes no call here.
//!
//! After Owre and Shankar, The Formal Semantics of PVS (CSL-97-2), models of theories and proof rules.
#![tactic(auto)]

ghost use Rattle.pvs_proof_soundness.specs.Laws.{ProofsOfSignaturesAreSound, ProofsOfTheoriesAreSound};
ghost use Rattle.pvs_proof_soundness.specs.OpenFormulas.{LemmasCanBeFalse};

/// What a proof of a formula promises. The call does nothing: its contract states it.
///
/// A formula that a script proves is TRUE in each interpretation by finite sets that fits the entries before it, and it is
/// inside there, as those entries are: each name has a meaning, and each argument is in the domain of its function. This is
/// so of a signature whose entries typing accepts, and so of a theory that is read from its declarations. A lemma that is not
/// proved can be FALSE: of one theory this is shown.
pub fn proofs_are_sound()
    ensures signatures { ProofsOfSignaturesAreSound }
    ensures theories { ProofsOfTheoriesAreSound }
    ensures false_lemmas { LemmasCanBeFalse }
{}
