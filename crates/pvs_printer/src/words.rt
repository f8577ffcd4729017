//! The words and signs that printed trees are made of.

/// The word that a binder begins with.
#[derive(Clone, Copy, Debug, PartialEq, Eq)]
pub enum BinderWord {
    Forall,
    Exists,
    Lambda,
}

/// The operator between two operands.
#[derive(Clone, Copy, Debug, PartialEq, Eq)]
pub enum InfixWord {
    And,
    Or,
    Implies,
    Equal,
}

/// A keyword, a sign, the name of the type of truth values, or the word `rest`.
#[derive(Clone, Copy, Debug, PartialEq, Eq)]
pub enum Sign {
    Not,
    And,
    Or,
    Implies,
    Equal,
    Forall,
    Exists,
    Lambda,
    If,
    Then,
    Else,
    EndIf,
    True,
    False,
    Bool,
    Rest,
    Open,
    Close,
    OpenBracket,
    CloseBracket,
    OpenBrace,
    CloseBrace,
    Comma,
    Semicolon,
    Colon,
    Dot,
    Bar,
    Arrow,
    Backquote,
}
