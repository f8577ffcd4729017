//! What follows the first THEN of an IF and its expression.

ghost use Rattle.std.specs.Prelude.{◌≡◌};
ghost use Rattle.pvs_parser.specs.code.Descent.{Gives};
ghost use Rattle.pvs_parser.specs.code.Descent as spec;
ghost use Rattle.pvs_parser.specs.code.Nests.{Nests, bounded_reader};

use crate::descent::{Descent, Read};
use crate::nesting::Nesting;
use crate::start::Start;
use crate::terminal::{Terminal, TerminalKind};
use crate::tokens::{expect, stop};
use pvs_syntax::{Expr, TypeExpr, Word};
use std::alloc::Global;

impl<E, T> Descent<E, T>
where
    E: Fn(Global, usize, usize, Start, Nesting, &[Terminal]) -> Read<'_, Expr>,
    T: Fn(Global, usize, usize, Nesting, &[Terminal]) -> Read<'_, TypeExpr>,
{
    /// What stands after ELSE.
    fn else_branch<'a>(&self, nesting: Nesting, tokens: &'a [Terminal]) -> Read<'a, Expr>
        requires { Nests self.now.room (E.pre self.now.expr) (E.post self.now.expr) (T.pre self.now.ty) (T.post self.now.ty) }
        ensures { Gives (λ p. (p.0, p.1, p.2.now)) result (spec.else_with (bounded_reader self.now.room) nesting tokens.now) }
    {
        let (expr, nesting, rest) = self.expr(nesting.cleared(), tokens)?;
        let rest = expect(TerminalKind::EndIf, rest)?;
        Ok((expr, nesting, rest))
    }

    /// What stands after ELSIF.
    fn elsif_branch<'a>(
        &self,
        word: Word,
        nesting: Nesting,
        tokens: &'a [Terminal],
    ) -> Read<'a, Expr>
        requires { Nests self.now.room (E.pre self.now.expr) (E.post self.now.expr) (T.pre self.now.ty) (T.post self.now.ty) }
        ensures { Gives (λ p. (p.0, p.1, p.2.now)) result (spec.elsif_with (bounded_reader self.now.room) word nesting tokens.now) }
    {
        let nesting = nesting.cleared().hold(tokens)?;
        self.cond(word, nesting, tokens)
    }

    pub fn otherwise<'a>(&self, nesting: Nesting, tokens: &'a [Terminal]) -> Read<'a, Expr>
        requires { Nests self.now.room (E.pre self.now.expr) (E.post self.now.expr) (T.pre self.now.ty) (T.post self.now.ty) }
        ensures { Gives (λ p. (p.0, p.1, p.2.now)) result (spec.otherwise_with (bounded_reader self.now.room) nesting tokens.now) }
    {
        let [token, rest @ ..] = tokens else {
            return Err(stop(tokens));
        };
        match token.kind {
            TerminalKind::Else => self.else_branch(nesting, rest),
            TerminalKind::Elsif => self.elsif_branch(token.word, nesting, rest),
            _ => Err(stop(tokens)),
        }
    }
}
