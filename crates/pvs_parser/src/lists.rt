//! Lists with commas between their items: at most 200 of them.

ghost use Rattle.std.specs.Prelude.{◌≡◌, []};
ghost use Rattle.pvs_parser.specs.code.Descent.{Gives};
ghost use Rattle.pvs_parser.specs.code.Descent as spec;
ghost use Rattle.pvs_parser.specs.Language.{Expression, Parameter, Component, Variable, BareVariable, Definition};
ghost use Rattle.pvs_parser.specs.code.Nests.{Nests, ReadsItems, bounded_reader, end_of_list_at};

use crate::descent::{Descent, Read};
use crate::failure::Failure;
use crate::nesting::Nesting;
use crate::start::Start;
use crate::terminal::{Terminal, TerminalKind};
use crate::tokens::{
    after, comes_expr, comes_id, comes_type, comes_type_actual, expect, stop, too_many,
};
use crate::trees::bare_variable;
use pvs_base::MAX_LIST;
use pvs_syntax::{Actual, Binding, Expr, LetPart, TypeExpr};
use sqlite_items::Items;
use std::alloc::Global;

/// Why reading stops after the most items that a list may have. Where one more may begin, as
/// `is_start` says, that is one too many.
pub fn crowded(is_start: bool, tokens: &[Terminal]) -> Failure
    ensures { result ≡ Failure.At (end_of_list_at is_start tokens.now) }
{
    if is_start {
        too_many(tokens)
    } else {
        stop(tokens)
    }
}

/// The items that `item` reads, with commas between them: at most 200. `is_start` says whether one
/// more may begin.
fn list<'a, X, I, S>(
    alloc: Global,
    nesting: Nesting,
    tokens: &'a [Terminal],
    item: I,
    is_start: S,
) -> Read<'a, Items<X>>
where
    X: Drop,
    I: Fn(Nesting, &'a [Terminal]) -> Read<'a, X>,
    S: Fn(&'a [Terminal]) -> bool,
    requires item { I.IsAlwaysCallable item }
    requires is_start { S.IsAlwaysCallable is_start }
    ensures { (starts : _) (reads : _) → ReadsItems starts reads (I.post item) (S.post is_start) → Gives (λ p. (p.0, p.1, p.2.now)) result (spec.list_from starts reads 200 [] nesting tokens.now) }
{
    let mut found = Items::new(alloc);
    let mut nesting = nesting;
    let mut rest = tokens;
    for _ in 0..MAX_LIST {
        let (tree, behind, next) = item(nesting, rest)?;
        found.push(tree)?;
        let Some(next) = after(TerminalKind::Comma, next) else {
            return Ok((found, behind, next));
        };
        nesting = behind.cleared();
        rest = next;
    }
    Err(crowded(is_start(rest), rest))
}

impl<E, T> Descent<E, T>
where
    E: Fn(Global, usize, usize, Start, Nesting, &[Terminal]) -> Read<'_, Expr>,
    T: Fn(Global, usize, usize, Nesting, &[Terminal]) -> Read<'_, TypeExpr>,
{
    /// Expressions.
    fn exprs<'a>(&self, nesting: Nesting, tokens: &'a [Terminal]) -> Read<'a, Items<Expr>>
        requires { Nests self.now.room (E.pre self.now.expr) (E.post self.now.expr) (T.pre self.now.ty) (T.post self.now.ty) }
        ensures { Gives (λ p. (p.0, p.1, p.2.now)) result (spec.list_with (bounded_reader self.now.room) Expression nesting tokens.now) }
    {
        let item = |nesting, tokens| self.expr(nesting, tokens);
        list(self.alloc, nesting, tokens, item, comes_expr)
    }

    /// Actual parameters.
    fn actual_list<'a>(&self, nesting: Nesting, tokens: &'a [Terminal]) -> Read<'a, Items<Actual>>
        requires { Nests self.now.room (E.pre self.now.expr) (E.post self.now.expr) (T.pre self.now.ty) (T.post self.now.ty) }
        ensures { Gives (λ p. (p.0, p.1, p.2.now)) result (spec.list_with (bounded_reader self.now.room) Parameter nesting tokens.now) }
    {
        let item = |nesting, tokens| self.parameter(nesting, tokens);
        let is_start = |tokens| comes_expr(tokens) || comes_type_actual(tokens);
        list(self.alloc, nesting, tokens, item, is_start)
    }

    /// Components of a domain or of a tuple type.
    pub fn components<'a>(
        &self,
        nesting: Nesting,
        tokens: &'a [Terminal],
    ) -> Read<'a, Items<Binding>>
        requires { Nests self.now.room (E.pre self.now.expr) (E.post self.now.expr) (T.pre self.now.ty) (T.post self.now.ty) }
        ensures { Gives (λ p. (p.0, p.1, p.2.now)) result (spec.list_with (bounded_reader self.now.room) Component nesting tokens.now) }
    {
        let item = |nesting, tokens| self.component(nesting, tokens);
        list(self.alloc, nesting, tokens, item, comes_type)
    }

    /// Variables with or without types.
    fn variables<'a>(&self, nesting: Nesting, tokens: &'a [Terminal]) -> Read<'a, Items<Binding>>
        requires { Nests self.now.room (E.pre self.now.expr) (E.post self.now.expr) (T.pre self.now.ty) (T.post self.now.ty) }
        ensures { Gives (λ p. (p.0, p.1, p.2.now)) result (spec.list_with (bounded_reader self.now.room) Variable nesting tokens.now) }
    {
        let item = |nesting, tokens| self.variable(nesting, tokens);
        list(self.alloc, nesting, tokens, item, comes_id)
    }

    /// Variables without types.
    pub fn bare_variables<'a>(
        &self,
        nesting: Nesting,
        tokens: &'a [Terminal],
    ) -> Read<'a, Items<Binding>>
        requires { Nests self.now.room (E.pre self.now.expr) (E.post self.now.expr) (T.pre self.now.ty) (T.post self.now.ty) }
        ensures { Gives (λ p. (p.0, p.1, p.2.now)) result (spec.list_with (bounded_reader self.now.room) BareVariable nesting tokens.now) }
    {
        list(self.alloc, nesting, tokens, bare_variable, comes_id)
    }

    /// Parts of a LET.
    pub fn definitions<'a>(
        &self,
        nesting: Nesting,
        tokens: &'a [Terminal],
    ) -> Read<'a, Items<LetPart>>
        requires { Nests self.now.room (E.pre self.now.expr) (E.post self.now.expr) (T.pre self.now.ty) (T.post self.now.ty) }
        ensures { Gives (λ p. (p.0, p.1, p.2.now)) result (spec.list_with (bounded_reader self.now.room) Definition nesting tokens.now) }
    {
        let item = |nesting, tokens| self.definition(nesting, tokens);
        list(self.alloc, nesting, tokens, item, comes_id)
    }

    /// Expressions up to the parenthesis that ends them.
    pub fn arguments<'a>(
        &self,
        nesting: Nesting,
        tokens: &'a [Terminal],
    ) -> Result<(Items<Expr>, &'a [Terminal]), Failure>
        requires { Nests self.now.room (E.pre self.now.expr) (E.post self.now.expr) (T.pre self.now.ty) (T.post self.now.ty) }
        ensures { Gives (λ p. (p.0, p.1.now)) result (spec.framed_with (bounded_reader self.now.room) Expression TerminalKind.Close nesting tokens.now) }
    {
        let nesting = nesting.enter(tokens)?;
        let (found, _, rest) = self.exprs(nesting, tokens)?;
        let rest = expect(TerminalKind::Close, rest)?;
        Ok((found, rest))
    }

    /// Actual parameters up to the bracket that ends them.
    pub fn actuals<'a>(
        &self,
        nesting: Nesting,
        tokens: &'a [Terminal],
    ) -> Result<(Items<Actual>, &'a [Terminal]), Failure>
        requires { Nests self.now.room (E.pre self.now.expr) (E.post self.now.expr) (T.pre self.now.ty) (T.post self.now.ty) }
        ensures { Gives (λ p. (p.0, p.1.now)) result (spec.framed_with (bounded_reader self.now.room) Parameter TerminalKind.CloseBracket nesting tokens.now) }
    {
        let nesting = nesting.enter(tokens)?;
        let (found, _, rest) = self.actual_list(nesting, tokens)?;
        let rest = expect(TerminalKind::CloseBracket, rest)?;
        Ok((found, rest))
    }

    /// Variables up to the parenthesis that ends them.
    pub fn bindings<'a>(
        &self,
        nesting: Nesting,
        tokens: &'a [Terminal],
    ) -> Result<(Items<Binding>, &'a [Terminal]), Failure>
        requires { Nests self.now.room (E.pre self.now.expr) (E.post self.now.expr) (T.pre self.now.ty) (T.post self.now.ty) }
        ensures { Gives (λ p. (p.0, p.1.now)) result (spec.framed_with (bounded_reader self.now.room) Variable TerminalKind.Close nesting tokens.now) }
    {
        let nesting = nesting.enter(tokens)?;
        let (found, _, rest) = self.variables(nesting, tokens)?;
        let rest = expect(TerminalKind::Close, rest)?;
        Ok((found, rest))
    }
}
