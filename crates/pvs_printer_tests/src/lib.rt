//! Tests of printed text, over trees that are made part by part.
#![tactic(auto)]

mod fault;
mod theory;
mod trees;

pub use fault::TreeFault;
pub use trees::Trees;

#[cfg(test)]
mod tests;
