//! Instances of theories: the theories that stand, what their references are, and the trees of
//! instances by textual replacement, some of which a cache keeps.
#![tactic(auto)]

mod changes;
mod fault;
mod growth;
mod instances;
mod parts;
mod scope;
mod theories;

pub use fault::InstFault;
pub use instances::Instances;
pub use scope::Scope;

#[cfg(test)]
mod tests;
