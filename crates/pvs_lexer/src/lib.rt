//! The tokens of a text, one at a time.
#![tactic(auto)]

mod cursor;
mod lexer;
mod lookup;
mod scan;
mod token;
mod words;

pub use lexer::Lexer;
pub use lookup::keyword;
pub use token::{Token, TokenKind, spelling};
pub use words::Keyword;

#[cfg(test)]
mod tests;
