//! Tests of elaboration, of texts that are read, over a theory that stands. They stand in a crate of
//! their own since they need the parser and a place.
#![tactic(auto)]

#[cfg(test)]
mod tests;
#[cfg(test)]
mod variables;
