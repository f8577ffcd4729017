//! Tests of typing, over theories that are made by hand and over a theory that stands.
#![tactic(auto)]

mod example;
mod trees;

pub use example::Example;
pub use trees::Trees;

#[cfg(test)]
mod declared;
#[cfg(test)]
mod tests;
