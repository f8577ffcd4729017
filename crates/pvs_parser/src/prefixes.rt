//! What NOT, a binder or LET begins.

ghost use Rattle.std.specs.Prelude.{◌≡◌};
ghost use Rattle.pvs_parser.specs.code.Descent.{Gives};
ghost use Rattle.pvs_parser.specs.code.Descent as spec;
ghost use Rattle.pvs_parser.specs.code.Nests.{Nests, bounded_reader};

use crate::descent::{Descent, Read};
use crate::nesting::Nesting;
use crate::start::Start;
use crate::terminal::{Prefix, Terminal, TerminalKind};
use crate::tokens::{after, expect};
use pvs_syntax::{BinderWord, Binding, Expr, TypeExpr, Word};
use sqlite_items::{Boxed, Items};
use std::alloc::Global;

impl<E, T> Descent<E, T>
where
    E: Fn(Global, usize, usize, Start, Nesting, &[Terminal]) -> Read<'_, Expr>,
    T: Fn(Global, usize, usize, Nesting, &[Terminal]) -> Read<'_, TypeExpr>,
{
    /// The body of a binder, after its variables.
    fn body<'a>(
        &self,
        variables: Items<Binding>,
        binder: BinderWord,
        word: Word,
        nesting: Nesting,
        tokens: &'a [Terminal],
    ) -> Read<'a, Expr>
        requires { Nests self.now.room (E.pre self.now.expr) (E.post self.now.expr) (T.pre self.now.ty) (T.post self.now.ty) }
        ensures { Gives (λ p. (p.0, p.1, p.2.now)) result (spec.body_with (bounded_reader self.now.room) variables binder word nesting tokens.now) }
    {
        let rest = expect(TerminalKind::Colon, tokens)?;
        let (body, nesting, rest) = self.expr(nesting, rest)?;
        let body = Boxed::new(self.alloc, body)?;
        Ok((
            Expr::Binder(binder, variables, body, word.pos),
            nesting,
            rest,
        ))
    }

    /// What a binder begins.
    fn binder<'a>(
        &self,
        binder: BinderWord,
        word: Word,
        nesting: Nesting,
        tokens: &'a [Terminal],
    ) -> Read<'a, Expr>
        requires { Nests self.now.room (E.pre self.now.expr) (E.post self.now.expr) (T.pre self.now.ty) (T.post self.now.ty) }
        ensures { Gives (λ p. (p.0, p.1, p.2.now)) result (spec.binder_with (bounded_reader self.now.room) binder word nesting tokens.now) }
    {
        let nesting = nesting.hold(tokens)?;
        let Some(rest) = after(TerminalKind::Open, tokens) else {
            let (variables, nesting, rest) = self.bare_variables(nesting, tokens)?;
            return self.body(variables, binder, word, nesting, rest);
        };
        let (variables, rest) = self.bindings(nesting, rest)?;
        self.body(variables, binder, word, nesting, rest)
    }

    /// What LET begins.
    fn let_expr<'a>(&self, word: Word, nesting: Nesting, tokens: &'a [Terminal]) -> Read<'a, Expr>
        requires { Nests self.now.room (E.pre self.now.expr) (E.post self.now.expr) (T.pre self.now.ty) (T.post self.now.ty) }
        ensures { Gives (λ p. (p.0, p.1, p.2.now)) result (spec.let_with (bounded_reader self.now.room) word nesting tokens.now) }
    {
        let nesting = nesting.hold(tokens)?;
        let (parts, nesting, rest) = self.definitions(nesting, tokens)?;
        let rest = expect(TerminalKind::In, rest)?;
        let (body, nesting, rest) = self.expr(nesting, rest)?;
        Ok((
            Expr::Let(parts, Boxed::new(self.alloc, body)?, word.pos),
            nesting,
            rest,
        ))
    }

    /// What NOT begins.
    fn negation<'a>(&self, word: Word, nesting: Nesting, tokens: &'a [Terminal]) -> Read<'a, Expr>
        requires { Nests self.now.room (E.pre self.now.expr) (E.post self.now.expr) (T.pre self.now.ty) (T.post self.now.ty) }
        ensures { Gives (λ p. (p.0, p.1, p.2.now)) result (spec.not_with (bounded_reader self.now.room) word nesting tokens.now) }
    {
        let nesting = nesting.mark(tokens)?;
        let (operand, nesting, rest) = self.read_from(Start::Operand, nesting, tokens)?;
        Ok((
            Expr::Not(Boxed::new(self.alloc, operand)?, word.pos),
            nesting,
            rest,
        ))
    }

    /// What stands after `word`, which is the prefix.
    pub fn prefixed<'a>(
        &self,
        nesting: Nesting,
        prefix: Prefix,
        word: Word,
        tokens: &'a [Terminal],
    ) -> Read<'a, Expr>
        requires { Nests self.now.room (E.pre self.now.expr) (E.post self.now.expr) (T.pre self.now.ty) (T.post self.now.ty) }
        ensures { Gives (λ p. (p.0, p.1, p.2.now)) result (spec.prefixed_with (bounded_reader self.now.room) nesting prefix word tokens.now) }
    {
        match prefix {
            Prefix::Negation => self.negation(word, nesting, tokens),
            Prefix::Binder(binder) => self.binder(binder, word, nesting, tokens),
            Prefix::Local => self.let_expr(word, nesting, tokens),
        }
    }
}
