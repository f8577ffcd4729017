//! The rules that hold expressions or types take the readers of those as parameters, so that each
//! is proved by itself.

ghost use Rattle.std.specs.Prelude.{◌≡◌};
ghost use Rattle.pvs_parser.specs.code.Descent.{Gives, reader};
ghost use Rattle.pvs_parser.specs.code.Descent as spec;
ghost use Rattle.pvs_parser.specs.Language.{language_limit, Parameter, Variable};
ghost use Rattle.pvs_parser.specs.code.Nests.{Nests, bounded_reader};

use crate::failure::Failure;
use crate::nesting::Nesting;
use crate::start::Start;
use crate::terminal::{Connective, Terminal, TerminalKind};
use crate::tokens::{ended, stop};
use pvs_syntax::{Actual, Binding, Expr, TypeExpr};
use sqlite_items::Items;
use std::alloc::Global;

/// How many calls of `expr` and `type_expr` may stand inside one another. The level of a text does
/// not bound them, since a comma clears marks whose forms are still open. This bound keeps the stack
/// within the 8 MiB that a program commonly has; a text past it is one for which memory ran out.
pub const CALLS: usize = 700;

/// A tree, with the nesting after it and the tokens after it.
pub type Read<'a, A> = Result<(A, Nesting, &'a [Terminal]), Failure>;

/// How the expressions and the types inside a form are read.
#[derive(Clone, Copy)]
pub struct Descent<E, T> {
    pub alloc: Global,
    /// How many calls may stand inside one another.
    pub calls: usize,
    /// How many forms may stand inside one another.
    pub room: usize,
    pub expr: E,
    pub ty: T,
}

impl<E, T> Descent<E, T>
where
    E: Fn(Global, usize, usize, Start, Nesting, &[Terminal]) -> Read<'_, Expr>,
    T: Fn(Global, usize, usize, Nesting, &[Terminal]) -> Read<'_, TypeExpr>,
{
    /// The expression that begins with `start`, read by the calls one level deeper.
    pub fn read_from<'a>(
        &self,
        start: Start,
        nesting: Nesting,
        tokens: &'a [Terminal],
    ) -> Read<'a, Expr>
        requires { Nests self.now.room (E.pre self.now.expr) (E.post self.now.expr) (T.pre self.now.ty) (T.post self.now.ty) }
        ensures { Gives (λ p. (p.0, p.1, p.2.now)) result ((bounded_reader self.now.room).expr start nesting tokens.now) }
    {
        (self.expr)(self.alloc, self.calls, self.room, start, nesting, tokens)
    }

    /// A whole expression.
    pub fn expr<'a>(&self, nesting: Nesting, tokens: &'a [Terminal]) -> Read<'a, Expr>
        requires { Nests self.now.room (E.pre self.now.expr) (E.post self.now.expr) (T.pre self.now.ty) (T.post self.now.ty) }
        ensures { Gives (λ p. (p.0, p.1, p.2.now)) result (spec.nested_expr (bounded_reader self.now.room) nesting tokens.now) }
    {
        self.read_from(Start::Chain(Connective::Iff), nesting, tokens)
    }

    pub fn type_expr<'a>(&self, nesting: Nesting, tokens: &'a [Terminal]) -> Read<'a, TypeExpr>
        requires { Nests self.now.room (E.pre self.now.expr) (E.post self.now.expr) (T.pre self.now.ty) (T.post self.now.ty) }
        ensures { Gives (λ p. (p.0, p.1, p.2.now)) result ((bounded_reader self.now.room).type nesting tokens.now) }
    {
        (self.ty)(self.alloc, self.calls, self.room, nesting, tokens)
    }

    /// What begins with `start`.
    fn expr_rule<'a>(
        &self,
        start: Start,
        nesting: Nesting,
        tokens: &'a [Terminal],
    ) -> Read<'a, Expr>
        requires { Nests self.now.room (E.pre self.now.expr) (E.post self.now.expr) (T.pre self.now.ty) (T.post self.now.ty) }
        ensures { Gives (λ p. (p.0, p.1, p.2.now)) result (spec.expr_with (bounded_reader self.now.room) start nesting tokens.now) }
    {
        match start {
            Start::Chain(connective) => self.chain(connective, nesting, tokens),
            Start::Operand => self.operand(nesting, tokens),
            Start::Otherwise => self.otherwise(nesting, tokens),
        }
    }
}

/// What begins with `start`, with at most `calls` calls and `room` forms inside one another.
#[cycle(descent)]
pub fn expr(
    alloc: Global,
    calls: usize,
    room: usize,
    start: Start,
    nesting: Nesting,
    tokens: &[Terminal],
) -> Read<'_, Expr>
    ensures { Gives (λ p. (p.0, p.1, p.2.now)) result ((reader language_limit room).expr start nesting tokens.now) }
{
    if calls == 0 {
        return Err(Failure::Memory);
    }
    if room == 0 {
        return Err(stop(tokens));
    }
    Descent {
        alloc,
        calls: calls - 1,
        room: room - 1,
        expr,
        ty: type_expr,
    }
    .expr_rule(start, nesting, tokens)
}

/// A type, with at most `calls` calls and `room` forms inside one another.
#[cycle(descent)]
pub fn type_expr(
    alloc: Global,
    calls: usize,
    room: usize,
    nesting: Nesting,
    tokens: &[Terminal],
) -> Read<'_, TypeExpr>
    ensures { Gives (λ p. (p.0, p.1, p.2.now)) result ((reader language_limit room).type nesting tokens.now) }
{
    if calls == 0 {
        return Err(Failure::Memory);
    }
    if room == 0 {
        return Err(stop(tokens));
    }
    Descent {
        alloc,
        calls: calls - 1,
        room: room - 1,
        expr,
        ty: type_expr,
    }
    .type_rule(nesting, tokens)
}

/// Variables up to the parenthesis that ends them, and the tokens after it.
pub fn bindings(
    alloc: Global,
    room: usize,
    nesting: Nesting,
    tokens: &[Terminal],
) -> Result<(Items<Binding>, &[Terminal]), Failure>
    ensures { Gives (λ p. (p.0, p.1.now)) result (spec.framed_with (reader language_limit room) Variable TerminalKind.Close nesting tokens.now) }
{
    Descent {
        alloc,
        calls: CALLS,
        room,
        expr,
        ty: type_expr,
    }
    .bindings(nesting, tokens)
}

/// Actual parameters up to the bracket that ends them, and the tokens after it.
pub fn actuals(
    alloc: Global,
    room: usize,
    nesting: Nesting,
    tokens: &[Terminal],
) -> Result<(Items<Actual>, &[Terminal]), Failure>
    ensures { Gives (λ p. (p.0, p.1.now)) result (spec.framed_with (reader language_limit room) Parameter TerminalKind.CloseBracket nesting tokens.now) }
{
    Descent {
        alloc,
        calls: CALLS,
        room,
        expr,
        ty: type_expr,
    }
    .actuals(nesting, tokens)
}

/// All the tokens as one expression.
pub fn expression(alloc: Global, tokens: &[Terminal]) -> Result<Expr, Failure>
    ensures { Gives (λ x. x) result (spec.expression language_limit tokens.now) }
{
    let start = Start::Chain(Connective::Iff);
    let (tree, _, rest) = expr(
        alloc,
        CALLS,
        tokens.len() + 1,
        start,
        Nesting::OUTERMOST,
        tokens,
    )?;
    ended(tree, rest)
}
