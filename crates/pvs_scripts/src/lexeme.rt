//! Tokens as the grammar of scripts distinguishes them.

use pvs_syntax::{Expr, Word};

/// A token of a script: what it is for the grammar, and its span and place.
#[derive(Clone, Copy, Debug, PartialEq, Eq)]
pub struct Lexeme {
    pub kind: LexemeKind,

    /// Whether the token is one of PVS that the language has no form for, where the grammar has no
    /// place for it.
    pub outside: bool,
    pub word: Word,
}

/// What a token is for the grammar.
#[derive(Clone, Copy, Debug, PartialEq, Eq)]
pub enum LexemeKind {
    /// `(`.
    Open,
    /// `)`.
    Close,
    /// `-`.
    Minus,

    /// A number, with its decimal value: 0 for more than nine digits.
    Number(u32),

    /// A quoted text.
    Quoted,

    /// A word, keyword or not.
    Word,

    /// A token that the grammar has no place for.
    Other,
}

/// A token with what it holds: a quoted text holds an expression, and no other token holds
/// anything.
#[derive(Drop)]
pub struct Terminal {
    pub lexeme: Lexeme,
    pub quote: Option<Expr>,
}
