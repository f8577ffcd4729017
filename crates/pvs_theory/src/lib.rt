//! What the text of a theory means: which theories of a unit are accepted, and the entries of those,
//! whose formulas are numbers of one store of trees.
#![tactic(auto)]

mod distinct;
mod entries;
mod fault;
mod forms;
mod index;
mod names;
mod theories;

pub use entries::Entry;
pub use index::{FormulaIndex, add_formula};
pub use names::spelling_of;
pub use theories::{Part, parts};

#[cfg(test)]
mod tests;
