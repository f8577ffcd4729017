//! Tests of the parser. They stand in a crate of their own since a crate with tests is proved twice, and the parser's proofs are long.
#![tactic(auto)]

#[cfg(test)]
mod shown;
#[cfg(test)]
mod tests;
