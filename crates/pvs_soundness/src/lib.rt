//! Soundness of theories: what typing has accepted of a theory holds in each model that fits it. The program makes no call
//! here.
//!
//! After Owre and Shankar, The Formal Semantics of PVS (CSL-97-2), models of theories.
#![tactic(auto)]

ghost use Rattle.pvs_soundness.specs.Laws.{AcceptedTreesAreClosed, AcceptedTreesAreWellSorted, TypingIsLocal, ElaborationStaysIn, DeclarationsAreAccepted, TheoriesAreAccepted, AcceptedSignaturesStand, EntriesAreInside};

/// What holds of the trees that typing accepts. The call does nothing: its contract states it.
///
/// They are closed where they stand under no binder, and have terms where terms stand. Look-ups that agree on the references
/// that a tree leads to answer the same for it.
pub fn accepted_trees_are_lawful()
    ensures closed { AcceptedTreesAreClosed }
    ensures sorted { AcceptedTreesAreWellSorted }
    ensures local { TypingIsLocal }
{}

/// What holds of theories that import nothing and have no formals. The call does nothing: its contract states it.
///
/// Elaborated trees mention only what names stand for, and what that leads to, and their tuples have two components or more.
/// A declaration that owes no condition makes an entry that typing accepts. A signature of such entries may stand after the
/// theories: its trees are sorted and closed, and each entry mentions only what is declared before it. Each entry is inside
/// in a model that fits those before it: its formula, its type and its body have each argument in the domain of its
/// function.
pub fn theories_are_sound()
    ensures mentioned { ElaborationStaysIn }
    ensures declarations { DeclarationsAreAccepted }
    ensures theories { TheoriesAreAccepted }
    ensures standing { AcceptedSignaturesStand }
    ensures entries { EntriesAreInside }
{}
