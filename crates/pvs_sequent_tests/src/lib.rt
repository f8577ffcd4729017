//! Tests of sequents, of the rules of logic and of replay. They stand in a crate of their own since a crate with tests is
//! proved twice, and since all three write sequents as letters.
#![tactic(auto)]

#[cfg(test)]
mod letters;
#[cfg(test)]
mod tests;
#[cfg(test)]
mod written;
