//! What a list has between its commas.

ghost use Rattle.std.specs.Prelude.{◌≡◌};
ghost use Rattle.pvs_parser.specs.code.Descent.{Gives};
ghost use Rattle.pvs_parser.specs.code.Descent as spec;
ghost use Rattle.pvs_parser.specs.code.Nests.{Nests, bounded_reader};

use crate::descent::{Descent, Read};
use crate::nesting::Nesting;
use crate::start::Start;
use crate::terminal::{Terminal, TerminalKind};
use crate::tokens::{after, comes_type_actual, expect, id, labels, stop};
use crate::trees::{empty, equation, typed, untyped};
use pvs_syntax::{Actual, Binding, Expr, LetPart, TypeExpr, Word};
use std::alloc::Global;

impl<E, T> Descent<E, T>
where
    E: Fn(Global, usize, usize, Start, Nesting, &[Terminal]) -> Read<'_, Expr>,
    T: Fn(Global, usize, usize, Nesting, &[Terminal]) -> Read<'_, TypeExpr>,
{
    /// An actual parameter.
    pub fn parameter<'a>(&self, nesting: Nesting, tokens: &'a [Terminal]) -> Read<'a, Actual>
        requires { Nests self.now.room (E.pre self.now.expr) (E.post self.now.expr) (T.pre self.now.ty) (T.post self.now.ty) }
        ensures { Gives (λ p. (p.0, p.1, p.2.now)) result (spec.parameter_with (bounded_reader self.now.room) nesting tokens.now) }
    {
        if comes_type_actual(tokens) {
            let (ty, nesting, rest) = self.type_expr(nesting, tokens)?;
            return Ok((Actual::TypeActual(ty), nesting, rest));
        }
        let (expr, nesting, rest) = self.expr(nesting, tokens)?;
        Ok((Actual::ExprActual(expr), nesting, rest))
    }

    /// A name, and its type after the colon.
    fn typed<'a>(&self, word: Word, nesting: Nesting, tokens: &'a [Terminal]) -> Read<'a, Binding>
        requires { Nests self.now.room (E.pre self.now.expr) (E.post self.now.expr) (T.pre self.now.ty) (T.post self.now.ty) }
        ensures { Gives (λ p. (p.0, p.1, p.2.now)) result (spec.typed_with (bounded_reader self.now.room) word nesting tokens.now) }
    {
        let (ty, nesting, rest) = self.type_expr(nesting, tokens)?;
        Ok((typed(word, ty), nesting, rest))
    }

    /// A component without a name.
    fn unnamed<'a>(&self, nesting: Nesting, tokens: &'a [Terminal]) -> Read<'a, Binding>
        requires { Nests self.now.room (E.pre self.now.expr) (E.post self.now.expr) (T.pre self.now.ty) (T.post self.now.ty) }
        ensures { Gives (λ p. (p.0, p.1, p.2.now)) result (spec.unnamed_with (bounded_reader self.now.room) nesting tokens.now) }
    {
        let [token, ..] = tokens else {
            return Err(stop(tokens));
        };
        let (ty, nesting, rest) = self.type_expr(nesting, tokens)?;
        Ok((typed(empty(token.word), ty), nesting, rest))
    }

    /// A component of a domain or of a tuple type.
    pub fn component<'a>(&self, nesting: Nesting, tokens: &'a [Terminal]) -> Read<'a, Binding>
        requires { Nests self.now.room (E.pre self.now.expr) (E.post self.now.expr) (T.pre self.now.ty) (T.post self.now.ty) }
        ensures { Gives (λ p. (p.0, p.1, p.2.now)) result (spec.component_with (bounded_reader self.now.room) nesting tokens.now) }
    {
        match labels(tokens) {
            Some((word, rest)) => self.typed(word, nesting, rest),
            None => self.unnamed(nesting, tokens),
        }
    }

    /// A variable, with its type where a colon stands after it.
    pub fn variable<'a>(&self, nesting: Nesting, tokens: &'a [Terminal]) -> Read<'a, Binding>
        requires { Nests self.now.room (E.pre self.now.expr) (E.post self.now.expr) (T.pre self.now.ty) (T.post self.now.ty) }
        ensures { Gives (λ p. (p.0, p.1, p.2.now)) result (spec.variable_with (bounded_reader self.now.room) nesting tokens.now) }
    {
        let (word, rest) = id(tokens)?;
        match after(TerminalKind::Colon, rest) {
            Some(rest) => self.typed(word, nesting, rest),
            None => Ok((untyped(word), nesting, rest)),
        }
    }

    /// The value of a part of a LET, after the name and the type.
    fn value<'a>(
        &self,
        word: Word,
        ty: Option<TypeExpr>,
        nesting: Nesting,
        tokens: &'a [Terminal],
    ) -> Read<'a, LetPart>
        requires { Nests self.now.room (E.pre self.now.expr) (E.post self.now.expr) (T.pre self.now.ty) (T.post self.now.ty) }
        ensures { Gives (λ p. (p.0, p.1, p.2.now)) result (spec.value_with (bounded_reader self.now.room) word ty nesting tokens.now) }
    {
        let rest = expect(TerminalKind::Equal, tokens)?;
        let (value, nesting, rest) = self.expr(nesting, rest)?;
        Ok((equation(word, ty, value), nesting, rest))
    }

    /// A part of a LET.
    pub fn definition<'a>(&self, nesting: Nesting, tokens: &'a [Terminal]) -> Read<'a, LetPart>
        requires { Nests self.now.room (E.pre self.now.expr) (E.post self.now.expr) (T.pre self.now.ty) (T.post self.now.ty) }
        ensures { Gives (λ p. (p.0, p.1, p.2.now)) result (spec.definition_with (bounded_reader self.now.room) nesting tokens.now) }
    {
        let (word, rest) = id(tokens)?;
        let Some(rest) = after(TerminalKind::Colon, rest) else {
            return self.value(word, None, nesting, rest);
        };
        let (ty, nesting, rest) = self.type_expr(nesting, rest)?;
        self.value(word, Some(ty), nesting, rest)
    }
}
