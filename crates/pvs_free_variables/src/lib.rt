//! The free VARs of a formula: those that no binder of it hides, in the order of their first
//! occurrence.
#![tactic(auto)]

mod binders;
mod bound;
mod counts;
mod expand;
mod found;
mod search;
mod task;

pub use found::Occurrence;
pub use search::first_occurrences;
