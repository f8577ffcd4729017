//! Types.

ghost use Rattle.std.specs.Prelude.{◌≡◌};
ghost use Rattle.pvs_parser.specs.code.Descent.{Gives};
ghost use Rattle.pvs_parser.specs.code.Descent as spec;
ghost use Rattle.pvs_parser.specs.code.Nests.{Nests, bounded_reader};

use crate::descent::{Descent, Read};
use crate::failure::Failure;
use crate::nesting::Nesting;
use crate::start::Start;
use crate::terminal::{Terminal, TerminalKind};
use crate::tokens::{after, expect, id, stop};
use crate::trees::tuple_type;
use pvs_syntax::{Binding, Expr, TypeExpr, Word};
use sqlite_items::{Boxed, Items};
use std::alloc::Global;

impl<E, T> Descent<E, T>
where
    E: Fn(Global, usize, usize, Start, Nesting, &[Terminal]) -> Read<'_, Expr>,
    T: Fn(Global, usize, usize, Nesting, &[Terminal]) -> Read<'_, TypeExpr>,
{
    /// What a parenthesis opens.
    fn pred_type<'a>(
        &self,
        nesting: Nesting,
        word: Word,
        tokens: &'a [Terminal],
    ) -> Read<'a, TypeExpr>
        requires { Nests self.now.room (E.pre self.now.expr) (E.post self.now.expr) (T.pre self.now.ty) (T.post self.now.ty) }
        ensures { Gives (λ p. (p.0, p.1, p.2.now)) result (spec.pred_type_with (bounded_reader self.now.room) nesting word tokens.now) }
    {
        let inner = nesting.enter(tokens)?;
        let (test, _, rest) = self.expr(inner, tokens)?;
        let rest = expect(TerminalKind::Close, rest)?;
        let test = Boxed::new(self.alloc, test)?;
        Ok((TypeExpr::PredType(test, word.pos), nesting, rest))
    }

    /// The variable and the base type of a subtype, up to the bar.
    fn base<'a>(
        &self,
        nesting: Nesting,
        tokens: &'a [Terminal],
    ) -> Result<(Word, TypeExpr, Nesting, &'a [Terminal]), Failure>
        requires { Nests self.now.room (E.pre self.now.expr) (E.post self.now.expr) (T.pre self.now.ty) (T.post self.now.ty) }
        ensures { Gives (λ p. (p.0, p.1, p.2, p.3.now)) result (spec.base_with (bounded_reader self.now.room) nesting tokens.now) }
    {
        let (word, rest) = id(tokens)?;
        let rest = expect(TerminalKind::Colon, rest)?;
        let (ty, nesting, rest) = self.type_expr(nesting, rest)?;
        let rest = expect(TerminalKind::Bar, rest)?;
        Ok((word, ty, nesting, rest))
    }

    /// What a brace opens.
    fn sub_type<'a>(
        &self,
        nesting: Nesting,
        word: Word,
        tokens: &'a [Terminal],
    ) -> Read<'a, TypeExpr>
        requires { Nests self.now.room (E.pre self.now.expr) (E.post self.now.expr) (T.pre self.now.ty) (T.post self.now.ty) }
        ensures { Gives (λ p. (p.0, p.1, p.2.now)) result (spec.sub_type_with (bounded_reader self.now.room) nesting word tokens.now) }
    {
        let inner = nesting.enter(tokens)?;
        let (variable, base, inner, rest) = self.base(inner, tokens)?;
        let (test, _, rest) = self.expr(inner, rest)?;
        let rest = expect(TerminalKind::CloseBrace, rest)?;
        let base = Boxed::new(self.alloc, base)?;
        let test = Boxed::new(self.alloc, test)?;
        Ok((
            TypeExpr::SubType(variable, base, test, word.pos),
            nesting,
            rest,
        ))
    }

    /// The range of a function type, after the arrow. `inner` is the nesting there, and `nesting` that
    /// outside the bracket.
    fn fun_type<'a>(
        &self,
        nesting: Nesting,
        word: Word,
        domain: Items<Binding>,
        inner: Nesting,
        tokens: &'a [Terminal],
    ) -> Read<'a, TypeExpr>
        requires { Nests self.now.room (E.pre self.now.expr) (E.post self.now.expr) (T.pre self.now.ty) (T.post self.now.ty) }
        ensures { Gives (λ p. (p.0, p.1, p.2.now)) result (spec.fun_type_with (bounded_reader self.now.room) nesting word domain inner tokens.now) }
    {
        let (range, _, rest) = self.type_expr(inner, tokens)?;
        let rest = expect(TerminalKind::CloseBracket, rest)?;
        let range = Boxed::new(self.alloc, range)?;
        Ok((TypeExpr::FunType(domain, range, word.pos), nesting, rest))
    }

    /// What a bracket opens.
    fn bracket_type<'a>(
        &self,
        nesting: Nesting,
        word: Word,
        tokens: &'a [Terminal],
    ) -> Read<'a, TypeExpr>
        requires { Nests self.now.room (E.pre self.now.expr) (E.post self.now.expr) (T.pre self.now.ty) (T.post self.now.ty) }
        ensures { Gives (λ p. (p.0, p.1, p.2.now)) result (spec.bracket_type_with (bounded_reader self.now.room) nesting word tokens.now) }
    {
        let inner = nesting.enter(tokens)?;
        let (components, inner, rest) = self.components(inner, tokens)?;
        match after(TerminalKind::Arrow, rest) {
            Some(rest) => self.fun_type(nesting, word, components, inner, rest),
            None => tuple_type(nesting, word, components, rest),
        }
    }

    fn name_type<'a>(
        &self,
        nesting: Nesting,
        word: Word,
        tokens: &'a [Terminal],
    ) -> Read<'a, TypeExpr>
        requires { Nests self.now.room (E.pre self.now.expr) (E.post self.now.expr) (T.pre self.now.ty) (T.post self.now.ty) }
        ensures { Gives (λ p. (p.0, p.1, p.2.now)) result (spec.name_type_with (bounded_reader self.now.room) nesting word tokens.now) }
    {
        let (name, rest) = self.name_after(word, nesting, tokens)?;
        Ok((TypeExpr::NameType(name), nesting, rest))
    }

    /// A type.
    pub fn type_rule<'a>(&self, nesting: Nesting, tokens: &'a [Terminal]) -> Read<'a, TypeExpr>
        requires { Nests self.now.room (E.pre self.now.expr) (E.post self.now.expr) (T.pre self.now.ty) (T.post self.now.ty) }
        ensures { Gives (λ p. (p.0, p.1, p.2.now)) result (spec.type_with (bounded_reader self.now.room) nesting tokens.now) }
    {
        let [token, rest @ ..] = tokens else {
            return Err(stop(tokens));
        };
        match token.kind {
            TerminalKind::Id | TerminalKind::Proof => self.name_type(nesting, token.word, rest),
            TerminalKind::Open => self.pred_type(nesting, token.word, rest),
            TerminalKind::OpenBrace => self.sub_type(nesting, token.word, rest),
            TerminalKind::OpenBracket => self.bracket_type(nesting, token.word, rest),
            _ => Err(stop(tokens)),
        }
    }
}
