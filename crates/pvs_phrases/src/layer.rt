//! One layer of a phrase.

use crate::part::{Part, Place};
use pvs_base::Pos;
use pvs_syntax::Binding;
use sqlite_items::Items;

/// One layer of a phrase: its form, with the parts that stand for the phrases in it.
///
/// The forms are grouped by the number of parts. A name is the bytes of a word of the text.
#[derive(Clone, Copy)]
pub enum Layer<'a> {
    Nullary(Nullary<'a>),
    Unary(Unary<'a>, Part<'a>),
    Binary(Binary<'a>, Part<'a>, Part<'a>),
    Ternary(Ternary<'a>, Part<'a>, Part<'a>, Part<'a>),
}

/// A form without parts.
#[derive(Clone, Copy)]
pub enum Nullary<'a> {
    /// A constant, a variable or a type.
    Name(&'a [u8], Pos),

    Truth(bool, Place<'a>),

    /// The type that the VAR of this name has.
    TypeOf(&'a [u8], Pos),

    /// A form that is out of profile.
    Other(Place<'a>),
}

/// A form with one part.
#[derive(Clone, Copy)]
pub enum Unary<'a> {
    /// A projection of the part. The bytes are the decimal digits of its number, which
    /// `projection_number` reads, and the place is theirs.
    Projection(&'a [u8], Pos),

    /// Parentheses around the part.
    Group(Pos),

    Not(Place<'a>),

    /// The part as a type.
    Predicate(Pos),
}

/// A form with two parts.
#[derive(Clone, Copy)]
pub enum Binary<'a> {
    /// The function and its argument.
    Apply,

    /// The first component and the tuple of the others, with the number of components beyond two.
    Tuple(usize, Place<'a>),

    /// The two sides.
    Equal,

    /// The two sides.
    Iff,

    /// The type of the variable with this name, and the body.
    Forall(&'a [u8], Pos),

    /// The type of the variable, and the body. The bindings name the parts of the variable.
    Lambda(&'a Items<Binding>, Pos),

    /// The value of the variable with this name, and the body.
    Let(&'a [u8], Pos),

    /// The type of the variable with this name, and the predicate.
    Subtype(&'a [u8], Pos),

    /// The domain and the range. The bindings name the parts of an argument.
    Function(&'a Items<Binding>, Pos),

    /// The type of the first component, which has this name, and the type of the tuples of the
    /// others, with the number of components beyond two.
    Product(usize, &'a [u8], Pos),
}

/// A form with three parts.
#[derive(Clone, Copy)]
pub enum Ternary<'a> {
    /// The condition and the branches of IF, AND, OR or IMPLIES. The tree of an `early` choice is
    /// made before its branches are joined. `join` is the place of branches that have no common
    /// type.
    Choice {
        early: bool,
        join: Place<'a>,
        at: Place<'a>,
    },

    /// The type of the variable with this name, its value, and the body.
    LetAs(&'a [u8], Pos),
}
