//! Where trees begin.

ghost use Rattle.std.specs.Prelude.{◌≡◌};
ghost use Rattle.pvs_syntax.specs.Places as spec;

use crate::expression::{Expr, NameExpr, TypeExpr};
use pvs_base::Pos;

/// The place of the first token of an expression. This takes no memory.
pub fn place(expr: &Expr) -> Pos
    ensures { result ≡ spec.place_of expr.now }
{
    match expr {
        Expr::Truth(_, pos) => *pos,
        Expr::NameTerm(name) => name_place(name),
        Expr::Apply(function, _) => place(function.get()),
        Expr::Project(operand, _) => place(operand.get()),
        Expr::Paren(_, pos) => *pos,
        Expr::TupleTerm(_, pos) => *pos,
        Expr::Cond(_, _, _, pos) => *pos,
        Expr::Binder(_, _, _, pos) => *pos,
        Expr::Let(_, _, pos) => *pos,
        Expr::Not(_, pos) => *pos,
        Expr::Infix(_, left, _) => place(left.get()),
    }
}

/// The place of the first token of a type. This takes no memory.
pub fn type_place(ty: &TypeExpr) -> Pos
    ensures { result ≡ spec.place_of_type ty.now }
{
    match ty {
        TypeExpr::NameType(name) => name_place(name),
        TypeExpr::FunType(_, _, pos) => *pos,
        TypeExpr::TupleType(_, pos) => *pos,
        TypeExpr::SubType(_, _, _, pos) => *pos,
        TypeExpr::PredType(_, pos) => *pos,
    }
}

/// The place of the first token of a name: of its theory, where one qualifies it. This takes no
/// memory.
pub fn name_place(name: &NameExpr) -> Pos
    ensures { result ≡ spec.place_of_name name.now }
{
    match &name.qualifier {
        Some(inst) => inst.theory.pos,
        None => name.word.pos,
    }
}
