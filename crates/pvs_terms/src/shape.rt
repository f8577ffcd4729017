//! Nodes by their shape: what stands alone, what binds, what joins, and what chooses.

ghost use Rattle.std.specs.Prelude.{◌≡◌, ℕ};

use crate::node::{Id, Node, RefId};

/// What stands alone: the type of truth values and the two truth values.
#[derive(Clone, Copy, Debug, PartialEq, Eq, Hash)]
pub enum Plain {
    BoolType,
    Yes,
    No,
}

/// Whether a name is that of a type or of a term.
#[derive(Clone, Copy, Debug, PartialEq, Eq, Hash)]
pub enum Sort {
    OfType,
    OfTerm,
}

/// What binds one variable in its second part: a predicate subtype, a function type, a tuple
/// type of a first component and the others, with the number of its components, and an
/// abstraction.
#[derive(Clone, Copy, Debug, PartialEq, Eq, Hash)]
pub enum Binder {
    Subtype,
    Function,
    Product(u32),
    Lambda,
}

/// What joins two parts and binds nothing: an application, a tuple of a first component and the
/// others, with the number of its components, and an equality.
#[derive(Clone, Copy, Debug, PartialEq, Eq, Hash)]
pub enum Joint {
    Apply,
    Tuple(u32),
    Equal,
}

/// Which part of a tuple a projection takes: the first component, or the others. The number is
/// that of the tuple's components.
#[derive(Clone, Copy, Debug, PartialEq, Eq, Hash)]
pub enum Projection {
    First(u32),
    Second(u32),
}

/// A node by its shape and the numbers of its parts.
#[derive(Clone, Copy, Debug, PartialEq, Eq)]
pub enum Shape {
    Leaf(Plain),
    Index(u32),
    Name(Sort, RefId),
    Bind(Binder, Id, Id),
    Join(Joint, Id, Id),
    Project(Projection, Id),
    Choose(Id, Id, Id),
}

impl Node {
    ghost use Rattle.pvs_terms.specs.code.Shapes.{shape_of};

    /// The node by its shape.
    pub fn shape(self) -> Shape
        ensures { result ≡ shape_of self }
    {
        match self {
            Node::TBool => Shape::Leaf(Plain::BoolType),
            Node::TName(r) => Shape::Name(Sort::OfType, r),
            Node::TSub(a, p) => Shape::Bind(Binder::Subtype, a, p),
            Node::TFun(a, b) => Shape::Bind(Binder::Function, a, b),
            Node::TPair(k, a, b) => Shape::Bind(Binder::Product(k), a, b),
            Node::Var(n) => Shape::Index(n),
            Node::Const(r) => Shape::Name(Sort::OfTerm, r),
            Node::True => Shape::Leaf(Plain::Yes),
            Node::False => Shape::Leaf(Plain::No),
            Node::Lam(a, b) => Shape::Bind(Binder::Lambda, a, b),
            Node::App(f, a) => Shape::Join(Joint::Apply, f, a),
            Node::Tup(k, a, b) => Shape::Join(Joint::Tuple(k), a, b),
            Node::Fst(k, t) => Shape::Project(Projection::First(k), t),
            Node::Snd(k, t) => Shape::Project(Projection::Second(k), t),
            Node::If(c, a, b) => Shape::Choose(c, a, b),
            Node::Eq(a, b) => Shape::Join(Joint::Equal, a, b),
        }
    }
}

impl Shape {
    ghost use Rattle.pvs_terms.specs.code.Shapes.{shape_of};

    /// The node that has this shape.
    pub fn node(self) -> Node
        ensures { shape_of result ≡ self }
    {
        match self {
            Shape::Leaf(plain) => match plain {
                Plain::BoolType => Node::TBool,
                Plain::Yes => Node::True,
                Plain::No => Node::False,
            },
            Shape::Index(n) => Node::Var(n),
            Shape::Name(sort, r) => match sort {
                Sort::OfType => Node::TName(r),
                Sort::OfTerm => Node::Const(r),
            },
            Shape::Bind(binder, a, b) => match binder {
                Binder::Subtype => Node::TSub(a, b),
                Binder::Function => Node::TFun(a, b),
                Binder::Product(k) => Node::TPair(k, a, b),
                Binder::Lambda => Node::Lam(a, b),
            },
            Shape::Join(joint, a, b) => match joint {
                Joint::Apply => Node::App(a, b),
                Joint::Tuple(k) => Node::Tup(k, a, b),
                Joint::Equal => Node::Eq(a, b),
            },
            Shape::Project(part, a) => match part {
                Projection::First(k) => Node::Fst(k, a),
                Projection::Second(k) => Node::Snd(k, a),
            },
            Shape::Choose(a, b, c) => Node::If(a, b, c),
        }
    }
}
