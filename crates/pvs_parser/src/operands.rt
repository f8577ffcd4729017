//! Operands, and the operators between them.

ghost use Rattle.std.specs.Prelude.{◌≡◌};
ghost use Rattle.pvs_parser.specs.code.Descent.{Gives};
ghost use Rattle.pvs_parser.specs.code.Descent as spec;
ghost use Rattle.pvs_parser.specs.code.Nests.{Nests, bounded_reader};

use crate::descent::{Descent, Read};
use crate::nesting::Nesting;
use crate::start::Start;
use crate::tables::{operator, sign};
use crate::terminal::{Connective, Terminal};
use crate::tokens::{after, begins, compares};
use crate::trees::infix;
use pvs_syntax::{Expr, TypeExpr};
use std::alloc::Global;

impl<E, T> Descent<E, T>
where
    E: Fn(Global, usize, usize, Start, Nesting, &[Terminal]) -> Read<'_, Expr>,
    T: Fn(Global, usize, usize, Nesting, &[Terminal]) -> Read<'_, TypeExpr>,
{
    /// Terms with `=` and `/=` between them. The last may be what NOT, a binder or LET begins.
    fn comparison<'a>(&self, nesting: Nesting, tokens: &'a [Terminal]) -> Read<'a, Expr>
        requires { Nests self.now.room (E.pre self.now.expr) (E.post self.now.expr) (T.pre self.now.ty) (T.post self.now.ty) }
        ensures { Gives (λ p. (p.0, p.1, p.2.now)) result (spec.comparison_with (bounded_reader self.now.room) nesting tokens.now) }
    {
        let (mut left, mut nesting, mut rest) = self.term(nesting, tokens)?;
        for _ in 0..tokens.len() {
            let Some((word, next)) = compares(rest) else {
                return Ok((left, nesting, rest));
            };
            let inner = nesting.mark(next)?;
            if let Some((prefix, at, next)) = begins(next) {
                let (right, nesting, rest) = self.prefixed(inner, prefix, at, next)?;
                return Ok((infix(self.alloc, word, left, right)?, nesting, rest));
            }
            let (right, behind, next) = self.term(inner, next)?;
            left = infix(self.alloc, word, left, right)?;
            nesting = behind;
            rest = next;
        }
        Ok((left, nesting, rest))
    }

    /// What stands between connectives.
    pub fn operand<'a>(&self, nesting: Nesting, tokens: &'a [Terminal]) -> Read<'a, Expr>
        requires { Nests self.now.room (E.pre self.now.expr) (E.post self.now.expr) (T.pre self.now.ty) (T.post self.now.ty) }
        ensures { Gives (λ p. (p.0, p.1, p.2.now)) result (spec.operand_with (bounded_reader self.now.room) nesting tokens.now) }
    {
        match begins(tokens) {
            Some((prefix, word, rest)) => self.prefixed(nesting, prefix, word, rest),
            None => self.comparison(nesting, tokens),
        }
    }

    /// What `left` and the connective after it begin, where that connective comes next.
    fn chain_after<'a>(
        &self,
        connective: Connective,
        left: Expr,
        nesting: Nesting,
        tokens: &'a [Terminal],
    ) -> Read<'a, Expr>
        requires { Nests self.now.room (E.pre self.now.expr) (E.post self.now.expr) (T.pre self.now.ty) (T.post self.now.ty) }
        ensures { Gives (λ p. (p.0, p.1, p.2.now)) result (spec.chain_after (bounded_reader self.now.room) connective left nesting tokens.now) }
    {
        let Some(rest) = after(sign(connective), tokens) else {
            return Ok((left, nesting, tokens));
        };
        let nesting = nesting.mark(rest)?;
        let (right, nesting, rest) = self.read_from(Start::Chain(connective), nesting, rest)?;
        Ok((
            infix(self.alloc, operator(connective), left, right)?,
            nesting,
            rest,
        ))
    }

    /// Operands with AND between them.
    fn conjunction<'a>(&self, nesting: Nesting, tokens: &'a [Terminal]) -> Read<'a, Expr>
        requires { Nests self.now.room (E.pre self.now.expr) (E.post self.now.expr) (T.pre self.now.ty) (T.post self.now.ty) }
        ensures { Gives (λ p. (p.0, p.1, p.2.now)) result (spec.chain_with (bounded_reader self.now.room) Connective.And nesting tokens.now) }
    {
        let (left, nesting, rest) = self.operand(nesting, tokens)?;
        self.chain_after(Connective::And, left, nesting, rest)
    }

    /// Conjunctions with OR between them.
    fn disjunction<'a>(&self, nesting: Nesting, tokens: &'a [Terminal]) -> Read<'a, Expr>
        requires { Nests self.now.room (E.pre self.now.expr) (E.post self.now.expr) (T.pre self.now.ty) (T.post self.now.ty) }
        ensures { Gives (λ p. (p.0, p.1, p.2.now)) result (spec.chain_with (bounded_reader self.now.room) Connective.Or nesting tokens.now) }
    {
        let (left, nesting, rest) = self.conjunction(nesting, tokens)?;
        self.chain_after(Connective::Or, left, nesting, rest)
    }

    /// Disjunctions with IMPLIES between them.
    fn implication<'a>(&self, nesting: Nesting, tokens: &'a [Terminal]) -> Read<'a, Expr>
        requires { Nests self.now.room (E.pre self.now.expr) (E.post self.now.expr) (T.pre self.now.ty) (T.post self.now.ty) }
        ensures { Gives (λ p. (p.0, p.1, p.2.now)) result (spec.chain_with (bounded_reader self.now.room) Connective.Implies nesting tokens.now) }
    {
        let (left, nesting, rest) = self.disjunction(nesting, tokens)?;
        self.chain_after(Connective::Implies, left, nesting, rest)
    }

    /// Implications with IFF between them.
    fn equivalence<'a>(&self, nesting: Nesting, tokens: &'a [Terminal]) -> Read<'a, Expr>
        requires { Nests self.now.room (E.pre self.now.expr) (E.post self.now.expr) (T.pre self.now.ty) (T.post self.now.ty) }
        ensures { Gives (λ p. (p.0, p.1, p.2.now)) result (spec.chain_with (bounded_reader self.now.room) Connective.Iff nesting tokens.now) }
    {
        let (left, nesting, rest) = self.implication(nesting, tokens)?;
        self.chain_after(Connective::Iff, left, nesting, rest)
    }

    /// Operands with connectives between them that bind no more weakly than this one.
    pub fn chain<'a>(
        &self,
        connective: Connective,
        nesting: Nesting,
        tokens: &'a [Terminal],
    ) -> Read<'a, Expr>
        requires { Nests self.now.room (E.pre self.now.expr) (E.post self.now.expr) (T.pre self.now.ty) (T.post self.now.ty) }
        ensures { Gives (λ p. (p.0, p.1, p.2.now)) result (spec.chain_with (bounded_reader self.now.room) connective nesting tokens.now) }
    {
        match connective {
            Connective::Iff => self.equivalence(nesting, tokens),
            Connective::Implies => self.implication(nesting, tokens),
            Connective::Or => self.disjunction(nesting, tokens),
            Connective::And => self.conjunction(nesting, tokens),
        }
    }
}
