//! What names stand for at the next place of a theory that is being read: an index of names that
//! grows with the theory's signature.
#![tactic(auto)]

mod answers;
mod outside;
mod place;
mod references;
mod search;
mod texts;
mod variables;

pub use place::PlaceNames;

#[cfg(test)]
mod tests;
