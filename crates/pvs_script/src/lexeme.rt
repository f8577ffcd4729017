//! Tokens as the grammar distinguishes them.

use pvs_base::Pos;

/// A token of a script: what it is for the grammar, its value where it is a number, and the place
/// of its first byte.
#[derive(Clone, Copy, Debug, PartialEq, Eq)]
pub struct Lexeme {
    pub sort: Sort,

    /// The decimal value of a number of at most nine digits, and 0 for every other token.
    pub number: u32,
    pub pos: Pos,
}

/// What a token is for the grammar.
#[derive(Clone, Copy, Debug, PartialEq, Eq)]
pub enum Sort {
    Open,
    Close,
    Minus,
    Number,

    /// The word `axiom`, in lower case.
    Axiom,

    /// The word `if`, in lower case.
    If,

    /// A token that the grammar has no place for.
    Other,
}
