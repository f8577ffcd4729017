//! Phrases as parts of a text.
//!
//! A list of a tree is kept whole, with the number of its items that are already written out. What
//! is said of the list is said of the others.

use pvs_base::Pos;
use pvs_syntax::{Binding, Expr, LetPart, TypeExpr, Word};
use sqlite_items::{Boxed, Items};

/// A place in a text. Where an expression begins is looked up by `resolve`, so that a place which
/// no fault names costs nothing.
#[derive(Clone, Copy)]
pub enum Place<'a> {
    At(Pos),

    /// Where the phrase of an expression begins.
    Of(&'a Expr),
}

/// What stands for a phrase: a part of a text, or what an abbreviation adds to it.
#[derive(Clone, Copy)]
pub enum Part<'a> {
    Expr(&'a Expr),

    Type(&'a TypeExpr),

    /// The truth value that AND, OR or IMPLIES adds. It has the place of an operand.
    Truth(bool, &'a Boxed<Expr>),

    /// The equation of two sides, which `/=` denies.
    Equation(&'a Boxed<Expr>, &'a Boxed<Expr>),

    /// One argument, or the tuple of several, at a place.
    Arguments(&'a Items<Expr>, usize, Pos),

    /// The body under FORALL over these variables.
    Forall(&'a Items<Binding>, usize, &'a Boxed<Expr>, Pos),

    /// The body under EXISTS over these variables.
    Exists(&'a Items<Binding>, usize, &'a Boxed<Expr>, Pos),

    /// NOT of the body under EXISTS over these variables.
    NotExists(&'a Items<Binding>, usize, &'a Boxed<Expr>, Pos),

    /// FORALL over the first of these variables, of NOT of the body under EXISTS over the others:
    /// what EXISTS denies.
    ForallNotExists(&'a Items<Binding>, usize, &'a Boxed<Expr>, Pos),

    /// The type of one variable or component, or the type of the tuples of several.
    Domain(&'a Items<Binding>, usize, Pos),

    /// The type that is written next in these bindings. Where there is none, it is that of the VAR
    /// with the name of this word.
    TypeFrom(Word, &'a Items<Binding>, usize),

    /// The body under these parts of a LET.
    Lets(&'a Items<LetPart>, usize, &'a Boxed<Expr>, Pos),
}
