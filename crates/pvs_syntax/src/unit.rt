//! Units, theories, declarations and proofs (PVS Language Reference, chapters Theories and
//! Declarations). Proofs are written in a form of this checker's own.

use crate::expression::{Binding, Expr, InstExpr, TypeExpr};
use crate::word::Word;
use pvs_base::Pos;
use sqlite_items::Items;

/// The tree of a whole text: its theories and proofs, in order.
#[derive(Drop)]
pub struct Unit {
    pub items: Items<Item>,
}

/// A theory or a proof.
#[derive(Drop)]
pub enum Item {
    Theory(Theory),
    Proof(Proof),
}

/// A theory: its name, formal parameters, the entries of its assuming part, and its declarations,
/// each in order.
///
/// A declaration of several names is an entry for each name, and an IMPORTING of several instances
/// is an entry for each instance; so are formals.
#[derive(Drop)]
pub struct Theory {
    pub name: Word,
    pub formals: Items<Formal>,
    pub assuming: Items<Decl>,
    pub decls: Items<Decl>,

    /// The offset after the last byte of the theory.
    pub end: u32,
}

/// A formal parameter.
#[derive(Drop)]
pub enum Formal {
    /// A type, which is nonempty where it is declared by TYPE+ or NONEMPTY_TYPE.
    TypeFormal { name: Word, nonempty: bool },
    ConstFormal { name: Word, ty: TypeExpr },
}

/// What kind of formula a declaration states.
#[derive(Clone, Copy, Debug, PartialEq, Eq)]
pub enum FormulaWord {
    /// AXIOM or POSTULATE.
    Axiom,
    /// ASSUMPTION, in an assuming part.
    Assumption,
    /// Any other word of a formula: these are to be proved.
    Lemma,
}

/// A declaration of one name, or the importing of one instance.
#[derive(Drop)]
pub enum Decl {
    Importing(InstExpr),

    /// A type without a definition, nonempty where it is declared by TYPE+ or NONEMPTY_TYPE.
    TypeDecl {
        name: Word,
        nonempty: bool,
    },

    /// `T: TYPE = A`.
    TypeDef {
        name: Word,
        body: TypeExpr,
    },

    /// `x: VAR A`.
    VarDecl {
        name: Word,
        ty: TypeExpr,
    },

    /// `f(x: A): B = e`. There are no parameters where no parenthesis stands, and no body where the
    /// constant has no definition.
    ConstDecl {
        name: Word,
        params: Items<Binding>,
        ty: TypeExpr,
        body: Option<Expr>,
    },

    Formula {
        name: Word,
        word: FormulaWord,
        body: Expr,
    },
}

/// A proof: the names of the theory and of the formula, and the span of the script, whose first
/// token has the place `pos`. What the script says is read apart.
#[derive(Clone, Copy, Debug, PartialEq, Eq)]
pub struct Proof {
    pub theory: Word,
    pub formula: Word,
    /// The offset of the first byte of the script.
    pub start: u32,
    /// The offset after its last byte.
    pub end: u32,
    pub pos: Pos,
}
