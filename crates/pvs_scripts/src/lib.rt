//! Reads the script of a proof: steps with their arguments, and trees of steps.
#![tactic(auto)]

mod lexeme;
mod parse;
mod quotes;
mod reading;
mod spelling;
mod state;
mod steps;
mod tree;

pub use lexeme::{Lexeme, LexemeKind, Terminal};
pub use parse::{one_answer, one_script, parse_script};
pub use tree::{Argument, ScriptTree, StepExpr};

#[cfg(test)]
mod tests;
