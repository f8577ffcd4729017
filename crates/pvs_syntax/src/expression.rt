//! Names, types and expressions (PVS Language Reference, chapters Types, Expressions and Names).
//!
//! A `Pos` is the place of the first token of what it stands in.

use crate::word::Word;
use pvs_base::Pos;
use sqlite_items::{Boxed, Items};

/// The word of a binding expression.
#[derive(Clone, Copy, Debug, PartialEq, Eq)]
pub enum BinderWord {
    Forall,
    Exists,
    Lambda,
}

/// An operator between two expressions. One that is written as a symbol is the same operator.
#[derive(Clone, Copy, Debug, PartialEq, Eq)]
pub enum InfixWord {
    /// AND, `&` or `/\`.
    And,
    /// OR or `\/`.
    Or,
    /// IMPLIES or `=>`.
    Implies,
    /// IFF or `<=>`.
    Iff,
    /// `=`.
    Equal,
    /// `/=`.
    Differs,
}

/// A theory with actual parameters, as in `th[a, b]`. There are none where no bracket stands.
#[cycle(syntax)]
#[derive(Drop)]
pub struct InstExpr {
    pub theory: Word,
    pub actuals: Items<Actual>,
}

/// An actual parameter.
///
/// Only what begins with `[` or `{` is a type here. What else may be one, a name or an expression
/// in parentheses, is an expression.
#[cycle(syntax)]
#[derive(Drop)]
pub enum Actual {
    ExprActual(Expr),
    TypeActual(TypeExpr),
}

/// A name, which a theory may qualify, as in `th[a].x`.
#[cycle(syntax)]
#[derive(Drop)]
pub struct NameExpr {
    pub qualifier: Option<InstExpr>,
    pub word: Word,
}

/// A variable that is bound, or a component of a type, with its type where one is written.
///
/// A component without a name has an empty word, whose start and place are those of the component's
/// first token.
#[cycle(syntax)]
#[derive(Drop)]
pub struct Binding {
    pub word: Word,
    pub ty: Option<TypeExpr>,
}

/// A part of a LET: a name, its type where one is written, and its value.
#[cycle(syntax)]
#[derive(Drop)]
pub struct LetPart {
    pub word: Word,
    pub ty: Option<TypeExpr>,
    pub value: Expr,
}

/// A type.
#[cycle(syntax)]
#[derive(Drop)]
pub enum TypeExpr {
    NameType(NameExpr),

    /// `[A, B -> C]`: the components of the domain, and the range. Each component has a type.
    FunType(Items<Binding>, Boxed<TypeExpr>, Pos),

    /// `[A, B]`: two components or more. Each has a type.
    TupleType(Items<Binding>, Pos),

    /// `{x: A | p}`: the variable, its type, and the predicate.
    SubType(Word, Boxed<TypeExpr>, Boxed<Expr>, Pos),

    /// `(p)`: the predicate.
    PredType(Boxed<Expr>, Pos),
}

/// An expression.
#[cycle(syntax)]
#[derive(Drop)]
pub enum Expr {
    /// TRUE or FALSE.
    Truth(bool, Pos),

    NameTerm(NameExpr),

    /// `f(a, b)`: the function, and one argument or more.
    Apply(Boxed<Expr>, Items<Expr>),

    /// A projection: the operand, and the number after the backquote.
    Project(Boxed<Expr>, Word),

    /// An expression in parentheses.
    Paren(Boxed<Expr>, Pos),

    /// `(a, b)`: two parts or more.
    TupleTerm(Items<Expr>, Pos),

    /// The expressions after IF, THEN and ELSE, in this order. An ELSIF is an IF in the else part,
    /// and its place is that of the word ELSIF.
    Cond(Boxed<Expr>, Boxed<Expr>, Boxed<Expr>, Pos),

    /// `FORALL (x: A, y): e`: the variables, one or more, and the body.
    Binder(BinderWord, Items<Binding>, Boxed<Expr>, Pos),

    /// `LET x = a, y = b IN e`: one part or more, and the body.
    Let(Items<LetPart>, Boxed<Expr>, Pos),

    Not(Boxed<Expr>, Pos),

    /// An operator, with the operand on its left and the one on its right.
    Infix(InfixWord, Boxed<Expr>, Boxed<Expr>),
}
