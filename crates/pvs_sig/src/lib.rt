//! Signatures of theories, and what is looked up in them.
#![tactic(auto)]

mod laws;
mod signature;

pub use laws::{development_laws, lookup_laws, scope_laws, stored_laws};
pub use signature::{Class, Entry, EntryKind, FormalSig, Import, Signature};

#[cfg(test)]
mod tests;
