//! Names.

ghost use Rattle.std.specs.Prelude.{◌≡◌};
ghost use Rattle.pvs_parser.specs.code.Descent.{Gives};
ghost use Rattle.pvs_parser.specs.code.Descent as spec;
ghost use Rattle.pvs_parser.specs.code.Nests.{Nests, bounded_reader};

use crate::descent::{Descent, Read};
use crate::failure::Failure;
use crate::nesting::Nesting;
use crate::start::Start;
use crate::terminal::{Terminal, TerminalKind};
use crate::tokens::{after, expect};
use crate::trees::{name_of, named};
use pvs_syntax::{Expr, NameExpr, TypeExpr, Word};
use sqlite_items::Items;
use std::alloc::Global;

impl<E, T> Descent<E, T>
where
    E: Fn(Global, usize, usize, Start, Nesting, &[Terminal]) -> Read<'_, Expr>,
    T: Fn(Global, usize, usize, Nesting, &[Terminal]) -> Read<'_, TypeExpr>,
{
    /// A name after the bracket of its theory.
    fn instance_name<'a>(
        &self,
        theory: Word,
        nesting: Nesting,
        tokens: &'a [Terminal],
    ) -> Result<(NameExpr, &'a [Terminal]), Failure>
        requires { Nests self.now.room (E.pre self.now.expr) (E.post self.now.expr) (T.pre self.now.ty) (T.post self.now.ty) }
        ensures { Gives (λ p. (p.0, p.1.now)) result (spec.instance_name_with (bounded_reader self.now.room) theory nesting tokens.now) }
    {
        let (actuals, rest) = self.actuals(nesting, tokens)?;
        let rest = expect(TerminalKind::Dot, rest)?;
        name_of(theory, actuals, rest)
    }

    /// A name after its first identifier.
    pub fn name_after<'a>(
        &self,
        word: Word,
        nesting: Nesting,
        tokens: &'a [Terminal],
    ) -> Result<(NameExpr, &'a [Terminal]), Failure>
        requires { Nests self.now.room (E.pre self.now.expr) (E.post self.now.expr) (T.pre self.now.ty) (T.post self.now.ty) }
        ensures { Gives (λ p. (p.0, p.1.now)) result (spec.name_after (bounded_reader self.now.room) word nesting tokens.now) }
    {
        if let Some(rest) = after(TerminalKind::OpenBracket, tokens) {
            return self.instance_name(word, nesting, rest);
        }
        match after(TerminalKind::Dot, tokens) {
            Some(rest) => name_of(word, Items::new(self.alloc), rest),
            None => Ok((named(word), tokens)),
        }
    }
}
