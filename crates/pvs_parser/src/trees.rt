//! Trees from their parts.

ghost use Rattle.std.specs.Prelude.{◌≡◌, IfOk};
ghost use Rattle.pvs_parser.specs.code.Descent.{Gives};
ghost use Rattle.pvs_parser.specs.code.Descent as spec;
ghost use Rattle.pvs_parser.specs.Language as language;
ghost use Rattle.pvs_syntax.specs.declared.expression.Expr.TheVariants as the_expr;

use crate::descent::Read;
use crate::failure::Failure;
use crate::nesting::Nesting;
use crate::terminal::{Terminal, TerminalKind};
use crate::tokens::{expect, id, number, stop};
use pvs_base::Pos;
use pvs_syntax::{Actual, Binding, Expr, InfixWord, InstExpr, LetPart, NameExpr, TypeExpr, Word};
use sqlite_items::{Boxed, Items};
use std::alloc::{AllocError, Global};

/// A name that nothing qualifies.
pub fn named(word: Word) -> NameExpr
    ensures { result ≡ language.simple_name word }
{
    NameExpr {
        qualifier: None,
        word,
    }
}

/// The identifier after the dot, in the instance that `theory` and `actuals` are, and the tokens
/// after it.
pub fn name_of(
    theory: Word,
    actuals: Items<Actual>,
    tokens: &[Terminal],
) -> Result<(NameExpr, &[Terminal]), Failure>
    ensures { Gives (λ p. (p.0, p.1.now)) result (spec.name_of theory actuals tokens.now) }
{
    let (word, rest) = id(tokens)?;
    let inst = InstExpr { theory, actuals };
    Ok((
        NameExpr {
            qualifier: Some(inst),
            word,
        },
        rest,
    ))
}

pub fn untyped(word: Word) -> Binding
    ensures { result ≡ language.untyped_binding word }
{
    Binding { word, ty: None }
}

pub fn typed(word: Word, ty: TypeExpr) -> Binding
    ensures { result ≡ language.typed_binding word ty }
{
    Binding { word, ty: Some(ty) }
}

/// A variable of a binder without parentheses.
pub fn bare_variable(nesting: Nesting, tokens: &[Terminal]) -> Read<'_, Binding>
    ensures { Gives (λ p. (p.0, p.1, p.2.now)) result (spec.bare_variable nesting tokens.now) }
{
    let (word, rest) = id(tokens)?;
    Ok((untyped(word), nesting, rest))
}

pub fn equation(word: Word, ty: Option<TypeExpr>, value: Expr) -> LetPart
    ensures { result ≡ language.equation word ty value }
{
    LetPart { word, ty, value }
}

/// The empty word before a token.
pub fn empty(word: Word) -> Word
    ensures { result ≡ language.empty_word word }
{
    Word {
        start: word.start,
        end: word.start,
        pos: word.pos,
    }
}

pub fn infix(alloc: Global, word: InfixWord, left: Expr, right: Expr) -> Result<Expr, AllocError>
    ensures { IfOk result (λ x. x ≡ the_expr.Infix word left right) }
{
    let left = Boxed::new(alloc, left)?;
    let right = Boxed::new(alloc, right)?;
    Ok(Expr::Infix(word, left, right))
}

/// Expressions in parentheses.
pub fn grouped(alloc: Global, pos: Pos, mut exprs: Items<Expr>) -> Result<Expr, AllocError>
    ensures { IfOk result (λ x. x ≡ language.group_tree pos exprs) }
{
    if exprs.len() != 1 {
        return Ok(Expr::TupleTerm(exprs, pos));
    }
    let inner = Boxed::new(alloc, exprs.remove(0))?;
    Ok(Expr::Paren(inner, pos))
}

/// The projection after a backquote.
pub fn project(
    alloc: Global,
    operand: Expr,
    nesting: Nesting,
    tokens: &[Terminal],
) -> Read<'_, Expr>
    ensures { Gives (λ p. (p.0, p.1, p.2.now)) result (spec.project language.language_limit operand nesting tokens.now) }
{
    let nesting = nesting.mark(tokens)?;
    let (word, rest) = number(tokens)?;
    let operand = Boxed::new(alloc, operand)?;
    Ok((Expr::Project(operand, word), nesting, rest))
}

/// The tuple type of these components, after them. `word` is its bracket.
pub fn tuple_type(
    nesting: Nesting,
    word: Word,
    components: Items<Binding>,
    tokens: &[Terminal],
) -> Read<'_, TypeExpr>
    ensures { Gives (λ p. (p.0, p.1, p.2.now)) result (spec.tuple_type nesting word components tokens.now) }
{
    if components.len() < 2 {
        return Err(stop(tokens));
    }
    let rest = expect(TerminalKind::CloseBracket, tokens)?;
    Ok((TypeExpr::TupleType(components, word.pos), nesting, rest))
}
