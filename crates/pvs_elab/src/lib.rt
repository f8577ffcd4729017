//! Elaboration of surface trees, as a definition with its laws: core trees with their types, or the first fault. The
//! program makes no call here.
//!
//! What is written is after the PVS Language Reference, and the rules of types are after Owre and Shankar, The Formal
//! Semantics of PVS (CSL-97-2), as those of `pvs_types`. The core trees of abbreviations, the places of faults and their
//! order are this checker's own.
#![tactic(auto)]

ghost use Rattle.pvs_elab.specs.Laws.{ElaborationIsTyped, AnswersAreTyped, FaultsAreMet, DeclarationsAreTyped, FormulasAreTyped, NamesAreTyped};
ghost use Rattle.pvs_elab.specs.Surface.{PhrasesAreByForms};

/// What elaboration promises, for all look-ups, names, phrases and contexts. The call does nothing: its contract states
/// it.
///
/// What a phrase answers without a fault, typing accepts with the same type. A finished answer has the type, the conditions
/// and the symbols that typing gives on its tree, and its fault is one that elaboration met: the last call of typing never
/// refuses the tree. The same holds of declarations. A formula is a truth value under its free VARs, and its tree is its
/// closure over them. The names of a place in a development are known to typing. The last clause lists what each form of a
/// surface tree says.
pub fn elaboration_is_typed()
    ensures parts { ElaborationIsTyped }
    ensures answers { AnswersAreTyped }
    ensures faults { FaultsAreMet }
    ensures declarations { DeclarationsAreTyped }
    ensures formulas { FormulasAreTyped }
    ensures names { NamesAreTyped }
    ensures forms { PhrasesAreByForms }
{}
