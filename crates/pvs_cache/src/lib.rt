//! What a cache of the types, bodies and formulas of references owes its caller.
#![tactic(auto)]

mod cache;
mod key;

pub use cache::{Judgements, NoCache};
pub use key::{JudgeKey, Part};

#[cfg(test)]
mod tests;
