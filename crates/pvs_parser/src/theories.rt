//! Theories.

ghost use Rattle.std.specs.Prelude.{◌≡◌, bytes_eq};
ghost use Rattle.pvs_parser.specs.code.Descent.{Gives};
ghost use Rattle.pvs_parser.specs.Language.{language_limit};
ghost use Rattle.pvs_syntax.specs.Words.{spelling};
ghost use Rattle.pvs_parser.specs.code.UnitDescent as spec;

use crate::declarations::{Decls, TheoryPart, declarations};
use crate::failure::{Failure, Reason, Stop};
use crate::formals::formal_part;
use crate::terminal::{Terminal, TerminalKind};
use crate::tokens::{after, expect, id};
use pvs_syntax::{Formal, Theory, Word};
use sqlite_items::Items;
use std::alloc::Global;

/// The assuming part of a theory, if it has one.
fn assuming_part(alloc: Global, tokens: &[Terminal]) -> Decls<'_>
    ensures { Gives (λ p. (p.0, p.1.now)) result (spec.assuming_part language_limit tokens.now) }
{
    let Some(rest) = after(TerminalKind::Assuming, tokens) else {
        return Ok((Items::new(alloc), tokens));
    };
    let (assuming, rest) = declarations(alloc, TheoryPart::Assuming, rest)?;
    let rest = expect(TerminalKind::EndAssuming, rest)?;
    Ok((assuming, rest))
}

/// The name and the formals of a theory, and the tokens after BEGIN.
fn heading(
    alloc: Global,
    tokens: &[Terminal],
) -> Result<(Word, Items<Formal>, &[Terminal]), Failure>
    ensures { Gives (λ p. (p.0, p.1, p.2.now)) result (spec.heading language_limit tokens.now) }
{
    let (name, rest) = id(tokens)?;
    let (formals, rest) = formal_part(alloc, rest)?;
    let rest = expect(TerminalKind::Colon, rest)?;
    let rest = expect(TerminalKind::Theory, rest)?;
    let rest = expect(TerminalKind::Begin, rest)?;
    Ok((name, formals, rest))
}

/// Whether two words of a text have the same bytes.
fn same_spelling(text: &[u8], a: Word, b: Word) -> bool
    ensures { result ≡ bytes_eq (spelling text.now a) (spelling text.now b) }
{
    pvs_lexer::spelling(text, a.start, a.end) == pvs_lexer::spelling(text, b.start, b.end)
}

/// END and the name of the theory, and the tokens after them.
fn ending<'a>(
    text: &[u8],
    name: Word,
    tokens: &'a [Terminal],
) -> Result<(Word, &'a [Terminal]), Failure>
    ensures { Gives (λ p. (p.0, p.1.now)) result (spec.ending text.now name tokens.now) }
{
    let rest = expect(TerminalKind::End, tokens)?;
    let (end, rest) = id(rest)?;
    if same_spelling(text, name, end) {
        Ok((end, rest))
    } else {
        Err(Failure::At(Stop {
            left: rest.len() + 1,
            reason: Reason::WrongEnd,
        }))
    }
}

/// A theory of a text, and the tokens after it.
pub fn theory<'a>(
    alloc: Global,
    text: &[u8],
    tokens: &'a [Terminal],
) -> Result<(Theory, &'a [Terminal]), Failure>
    ensures { Gives (λ p. (p.0, p.1.now)) result (spec.theory language_limit text.now tokens.now) }
{
    let (name, formals, rest) = heading(alloc, tokens)?;
    let (assuming, rest) = assuming_part(alloc, rest)?;
    let (decls, rest) = declarations(alloc, TheoryPart::Body, rest)?;
    let (end, rest) = ending(text, name, rest)?;
    let theory = Theory {
        name,
        formals,
        assuming,
        decls,
        end: end.end,
    };
    Ok((theory, rest))
}
