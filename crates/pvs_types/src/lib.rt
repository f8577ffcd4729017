//! Typing of core trees as definitions: the forms of types, coercion, and the types of terms, with their soundness in
//! interpretations by finite sets. The program makes no call here.
//!
//! The rules are after Owre and Shankar, The Formal Semantics of PVS (CSL-97-2): simple types, subtypes and dependent
//! types. The order of conditions and of faults is this checker's own.
#![tactic(auto)]

ghost use Rattle.std.specs.Prelude.{◌≡◌};
ghost use Rattle.pvs_types.specs.Laws.{InferIsSound, CheckIsSound, CoerceIsSound, FormedIsSound, TypingIsSound, TypingIsSoundAbove, FormsAreSound, NonemptyIsSound, AreTheirCases, SortedTermsAreProper, LimitsAreTested, UsesAreSymbols};

/// What typing promises, for all trees, look-ups and models. The call does nothing: its contract states it.
///
/// In a model that fits the look-ups, and an environment that satisfies the context, what is accepted holds where its
/// conditions are TRUE and the constants that it uses have values in their types: a term that is inferred or checked has
/// its value in the set of the type and is inside, a coercion leads from the set of one type to that of the other, and a
/// well-formed type is inside.
pub fn typing_is_sound()
    ensures infer { InferIsSound }
    ensures check { CheckIsSound }
    ensures coerce { CoerceIsSound }
    ensures well_formed { FormedIsSound }
    ensures everywhere { TypingIsSound }
    ensures above { TypingIsSoundAbove }
    ensures forms { FormsAreSound }
    ensures nonempty { NonemptyIsSound }
{}

/// The forms of types are their cases, and so is the coercion of a proper term, as each term of a sorted tree is: the
/// first case that applies, wherever a defined name is larger than its body. What is accepted uses exactly the symbols
/// of the tree. The call does nothing: its contract states it.
pub fn typing_is_exact()
    ensures cases { AreTheirCases }
    ensures terms { SortedTermsAreProper }
    ensures limits { LimitsAreTested }
    ensures symbols { UsesAreSymbols }
{}
