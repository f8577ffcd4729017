//! The surface trees of the language: what a text says, with the spans of its names and the places
//! of its parts. Each follows the section of the PVS Language Reference that its form is after.
//!
//! The fields are plain data. A tree says nothing of what its names stand for.
#![tactic(auto)]

mod expression;
mod places;
mod unit;
mod word;

pub use expression::{
    Actual, BinderWord, Binding, Expr, InfixWord, InstExpr, LetPart, NameExpr, TypeExpr,
};
pub use places::{name_place, place, type_place};
pub use unit::{Decl, Formal, FormulaWord, Item, Proof, Theory, Unit};
pub use word::Word;

#[cfg(test)]
mod tests;
