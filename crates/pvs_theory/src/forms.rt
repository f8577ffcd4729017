//! Which forms are built.

ghost use Rattle.std.specs.Prelude.{◌≡◌};
ghost use Rattle.std.specs.List.{list_all};
ghost use Rattle.pvs_theory.specs.Forms as spec;

use crate::names::{is_same_name, spelling_of};
use pvs_syntax::{Decl, Expr, FormulaWord, InfixWord, NameExpr, Theory, TypeExpr, Word};

/// The word of a name that no theory qualifies.
pub fn plain_name(name: &NameExpr) -> Option<Word>
    ensures { result ≡ spec.plain_name name.now }
{
    match &name.qualifier {
        Some(_) => None,
        None => Some(name.word),
    }
}

/// The word of a type that is such a name.
fn plain_type(ty: &TypeExpr) -> Option<Word>
    ensures { result ≡ spec.plain_type ty.now }
{
    match ty {
        TypeExpr::NameType(name) => plain_name(name),
        _ => None,
    }
}

/// Whether a word is the name of the type of truth values.
fn is_boolean(text: &[u8], word: Option<Word>) -> bool
    ensures { result ≡ spec.is_boolean text.now word }
{
    match word {
        Some(word) => {
            let name = spelling_of(text, &word);
            is_same_name(name, b"bool") || is_same_name(name, b"boolean")
        }
        None => false,
    }
}

/// Whether an operator is AND, OR or IMPLIES.
fn is_connective(word: InfixWord) -> bool
    ensures { result ≡ spec.is_connective word }
{
    matches!(word, InfixWord::And | InfixWord::Or | InfixWord::Implies)
}

/// Whether an expression is built.
fn is_built(expr: &Expr) -> bool
    ensures { result ≡ spec.is_built expr.now }
{
    match expr {
        Expr::Truth(_, _) => true,
        Expr::NameTerm(name) => plain_name(name).is_some(),
        Expr::Paren(inner, _) => is_built(inner.get()),
        Expr::Cond(c, a, b, _) => is_built(c.get()) && is_built(a.get()) && is_built(b.get()),
        Expr::Not(operand, _) => is_built(operand.get()),
        Expr::Infix(word, left, right) => {
            is_connective(*word) && is_built(left.get()) && is_built(right.get())
        }
        _ => false,
    }
}

/// Whether formulas of this word are built: axioms, and formulas that are to be proved.
fn is_built_word(word: FormulaWord) -> bool
    ensures { result ≡ spec.is_built_word word }
{
    matches!(word, FormulaWord::Axiom | FormulaWord::Lemma)
}

/// Whether a declaration is built: a boolean constant without parameters and body, or a formula.
fn is_built_decl(text: &[u8], decl: &Decl) -> bool
    ensures { result ≡ spec.is_built_decl text.now decl.now }
{
    match decl {
        Decl::ConstDecl {
            params,
            ty,
            body,
            ..
        } => params.as_slice().is_empty() && body.is_none() && is_boolean(text, plain_type(ty)),
        Decl::Formula { word, body, .. } => is_built_word(*word) && is_built(body),
        _ => false,
    }
}

/// Whether each declaration is built.
fn are_built(text: &[u8], decls: &[Decl]) -> bool
    ensures { result ≡ list_all (spec.is_built_decl text.now) decls.now }
{
    decls.iter().all(|decl| is_built_decl(text, decl))
}

/// Whether a theory is built: it has no formals and no assuming part, and each declaration is
/// built.
pub fn is_built_theory(text: &[u8], theory: &Theory) -> bool
    ensures { result ≡ spec.is_built_theory text.now theory.now }
{
    theory.formals.as_slice().is_empty()
        && theory.assuming.as_slice().is_empty()
        && are_built(text, theory.decls.as_slice())
}
