//! The next place of a theory that is being read, over the theories that stand: typing there, what
//! names stand for, and how the theory grows.
#![tactic(auto)]

mod existence;
mod growth;
mod names;
mod nonempty;
mod owed;
mod place;
mod predicate;
mod scope;
mod start;
mod theories;

pub use place::Place;

#[cfg(test)]
mod tests;
