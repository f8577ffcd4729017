//! Reads the script of a proof: steps, and trees of steps.
#![tactic(auto)]

mod fault;
mod lexeme;
mod reading;
mod sorts;
mod state;
mod steps;
mod tree;

pub use fault::ScriptFault;
pub use lexeme::{Lexeme, Sort};
pub use reading::{one_answer, one_script, read_script};
pub use tree::{Rule, Script, Step};

#[cfg(test)]
mod tests;
