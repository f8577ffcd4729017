//! Terms: names, what stands in parentheses, IF, and what follows these.

ghost use Rattle.std.specs.Prelude.{◌≡◌};
ghost use Rattle.pvs_parser.specs.code.Descent.{Gives};
ghost use Rattle.pvs_parser.specs.code.Descent as spec;
ghost use Rattle.pvs_parser.specs.code.Nests.{Nests, bounded_reader};

use crate::descent::{Descent, Read};
use crate::failure::Failure;
use crate::nesting::Nesting;
use crate::start::Start;
use crate::terminal::{Terminal, TerminalKind};
use crate::tokens::{after, expect, stop};
use crate::trees::{grouped, project};
use pvs_syntax::{Expr, TypeExpr, Word};
use sqlite_items::Boxed;
use std::alloc::Global;

/// A term, whether a parenthesis after it sets a mark, and the tokens after it.
type First<'a> = Result<(Expr, bool, &'a [Terminal]), Failure>;

impl<E, T> Descent<E, T>
where
    E: Fn(Global, usize, usize, Start, Nesting, &[Terminal]) -> Read<'_, Expr>,
    T: Fn(Global, usize, usize, Nesting, &[Terminal]) -> Read<'_, TypeExpr>,
{
    /// What a parenthesis opens.
    fn group<'a>(&self, nesting: Nesting, word: Word, tokens: &'a [Terminal]) -> First<'a>
        requires { Nests self.now.room (E.pre self.now.expr) (E.post self.now.expr) (T.pre self.now.ty) (T.post self.now.ty) }
        ensures { Gives (λ p. (p.0, p.1, p.2.now)) result (spec.group_with (bounded_reader self.now.room) nesting word tokens.now) }
    {
        let (exprs, rest) = self.arguments(nesting, tokens)?;
        Ok((grouped(self.alloc, word.pos, exprs)?, true, rest))
    }

    /// The expression after IF or ELSIF, up to THEN.
    fn condition<'a>(&self, nesting: Nesting, tokens: &'a [Terminal]) -> Read<'a, Expr>
        requires { Nests self.now.room (E.pre self.now.expr) (E.post self.now.expr) (T.pre self.now.ty) (T.post self.now.ty) }
        ensures { Gives (λ p. (p.0, p.1, p.2.now)) result (spec.condition_with (bounded_reader self.now.room) nesting tokens.now) }
    {
        let (expr, nesting, rest) = self.expr(nesting, tokens)?;
        let rest = expect(TerminalKind::Then, rest)?;
        Ok((expr, nesting.cleared(), rest))
    }

    /// What stands after IF or ELSIF.
    pub fn cond<'a>(&self, word: Word, nesting: Nesting, tokens: &'a [Terminal]) -> Read<'a, Expr>
        requires { Nests self.now.room (E.pre self.now.expr) (E.post self.now.expr) (T.pre self.now.ty) (T.post self.now.ty) }
        ensures { Gives (λ p. (p.0, p.1, p.2.now)) result (spec.cond_with (bounded_reader self.now.room) word nesting tokens.now) }
    {
        let (test, nesting, rest) = self.condition(nesting, tokens)?;
        let (holds, nesting, rest) = self.expr(nesting, rest)?;
        let (fails, nesting, rest) = self.read_from(Start::Otherwise, nesting, rest)?;
        let test = Boxed::new(self.alloc, test)?;
        let holds = Boxed::new(self.alloc, holds)?;
        let fails = Boxed::new(self.alloc, fails)?;
        Ok((Expr::Cond(test, holds, fails, word.pos), nesting, rest))
    }

    /// What IF begins.
    fn if_expr<'a>(&self, nesting: Nesting, word: Word, tokens: &'a [Terminal]) -> First<'a>
        requires { Nests self.now.room (E.pre self.now.expr) (E.post self.now.expr) (T.pre self.now.ty) (T.post self.now.ty) }
        ensures { Gives (λ p. (p.0, p.1, p.2.now)) result (spec.if_with (bounded_reader self.now.room) nesting word tokens.now) }
    {
        let nesting = nesting.enter(tokens)?;
        let (expr, _, rest) = self.cond(word, nesting, tokens)?;
        Ok((expr, true, rest))
    }

    fn name_term<'a>(&self, nesting: Nesting, word: Word, tokens: &'a [Terminal]) -> First<'a>
        requires { Nests self.now.room (E.pre self.now.expr) (E.post self.now.expr) (T.pre self.now.ty) (T.post self.now.ty) }
        ensures { Gives (λ p. (p.0, p.1, p.2.now)) result (spec.name_term_with (bounded_reader self.now.room) nesting word tokens.now) }
    {
        let (name, rest) = self.name_after(word, nesting, tokens)?;
        Ok((Expr::NameTerm(name), false, rest))
    }

    /// A term without the arguments and projections after it.
    fn first<'a>(&self, nesting: Nesting, tokens: &'a [Terminal]) -> First<'a>
        requires { Nests self.now.room (E.pre self.now.expr) (E.post self.now.expr) (T.pre self.now.ty) (T.post self.now.ty) }
        ensures { Gives (λ p. (p.0, p.1, p.2.now)) result (spec.first_with (bounded_reader self.now.room) nesting tokens.now) }
    {
        let [token, rest @ ..] = tokens else {
            return Err(stop(tokens));
        };
        match token.kind {
            TerminalKind::True => Ok((Expr::Truth(true, token.word.pos), false, rest)),
            TerminalKind::False => Ok((Expr::Truth(false, token.word.pos), false, rest)),
            TerminalKind::Id | TerminalKind::Proof => self.name_term(nesting, token.word, rest),
            TerminalKind::Open => self.group(nesting, token.word, rest),
            TerminalKind::If => self.if_expr(nesting, token.word, rest),
            _ => Err(stop(tokens)),
        }
    }

    /// The application of `function` to what stands after the parenthesis.
    fn call<'a>(
        &self,
        is_closed: bool,
        function: Expr,
        nesting: Nesting,
        tokens: &'a [Terminal],
    ) -> Read<'a, Expr>
        requires { Nests self.now.room (E.pre self.now.expr) (E.post self.now.expr) (T.pre self.now.ty) (T.post self.now.ty) }
        ensures { Gives (λ p. (p.0, p.1, p.2.now)) result (spec.call_with (bounded_reader self.now.room) is_closed function nesting tokens.now) }
    {
        let nesting = nesting.call_mark(is_closed, tokens)?;
        let (arguments, rest) = self.arguments(nesting, tokens)?;
        let function = Boxed::new(self.alloc, function)?;
        Ok((Expr::Apply(function, arguments), nesting, rest))
    }

    /// A term.
    pub fn term<'a>(&self, nesting: Nesting, tokens: &'a [Terminal]) -> Read<'a, Expr>
        requires { Nests self.now.room (E.pre self.now.expr) (E.post self.now.expr) (T.pre self.now.ty) (T.post self.now.ty) }
        ensures { Gives (λ p. (p.0, p.1, p.2.now)) result (spec.term_with (bounded_reader self.now.room) nesting tokens.now) }
    {
        let (mut term, mut is_closed, mut rest) = self.first(nesting, tokens)?;
        let mut nesting = nesting;
        for _ in 0..tokens.len() {
            if let Some(next) = after(TerminalKind::Open, rest) {
                (term, nesting, rest) = self.call(is_closed, term, nesting, next)?;
            } else if let Some(next) = after(TerminalKind::Backquote, rest) {
                (term, nesting, rest) = project(self.alloc, term, nesting, next)?;
            } else {
                return Ok((term, nesting, rest));
            }
            is_closed = true;
        }
        Ok((term, nesting, rest))
    }
}
