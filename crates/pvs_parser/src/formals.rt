//! Formal parameters of theories.

ghost use Rattle.std.specs.Prelude.{◌≡◌, ◌<◌, [], length, map, IfOk};
ghost use Rattle.pvs_parser.specs.code.Descent.{Gives};
ghost use Rattle.pvs_parser.specs.Language.{language_limit, in_frame, outermost};
ghost use Rattle.pvs_parser.specs.code.Steps.{each};
ghost use Rattle.pvs_parser.specs.Units.{type_formal, const_formal};
ghost use Rattle.pvs_parser.specs.code.UnitDescent as spec;

use crate::descent::{CALLS, type_expr};
use crate::failure::Failure;
use crate::importings::ids;
use crate::lists::crowded;
use crate::nesting::Nesting;
use crate::terminal::{Terminal, TerminalKind};
use crate::tokens::{after, comes_id, expect, stop};
use pvs_base::MAX_LIST;
use pvs_syntax::{Formal, TypeExpr, Word};
use sqlite_items::Items;
use std::alloc::{AllocError, Global};

/// The nesting inside the bracket of a formal list, which opens at level 0 and so has room.
const INSIDE: Nesting = Nesting { kept: 1, marks: 0 };

/// A type, and the tokens after it.
pub fn type_of(
    alloc: Global,
    nesting: Nesting,
    tokens: &[Terminal],
) -> Result<(TypeExpr, &[Terminal]), Failure>
    ensures { Gives (λ p. (p.0, p.1.now)) result (spec.type language_limit nesting tokens.now) }
{
    let (ty, _, rest) = type_expr(alloc, CALLS, tokens.len() + 1, nesting, tokens)?;
    Ok((ty, rest))
}

/// Whether a type is declared nonempty, after TYPE, and the tokens after that.
pub fn plus(tokens: &[Terminal]) -> (bool, &[Terminal])
    ensures { (result.0, result.1.now) ≡ spec.plus tokens.now }
{
    match after(TerminalKind::Plus, tokens) {
        Some(rest) => (true, rest),
        None => (false, tokens),
    }
}

fn type_formals(alloc: Global, names: &[Word], nonempty: bool) -> Result<Items<Formal>, AllocError>
    ensures { IfOk result (λ fs. fs ≡ map (type_formal nonempty) names.now) }
{
    let mut found = Items::new(alloc);
    for name in names {
        found.push(Formal::TypeFormal {
            name: *name,
            nonempty,
        })?;
    }
    Ok(found)
}

/// Constants of one type. The type is read for each name, so that each has a tree of its own.
fn const_formals<'a>(
    alloc: Global,
    names: &[Word],
    tokens: &'a [Terminal],
) -> Result<(Items<Formal>, &'a [Terminal]), Failure>
    requires { 0 < length names.now }
    ensures { Gives (λ p. (p.0, p.1.now)) result (each const_formal names.now (spec.type language_limit (in_frame outermost) tokens.now)) }
{
    let mut found = Items::new(alloc);
    let mut rest = tokens;
    for name in names {
        let (ty, behind) = type_of(alloc, INSIDE, tokens)?;
        found.push(Formal::ConstFormal { name: *name, ty })?;
        rest = behind;
    }
    Ok((found, rest))
}

/// What the names before a colon are.
fn formal_after<'a>(
    alloc: Global,
    names: &[Word],
    tokens: &'a [Terminal],
) -> Result<(Items<Formal>, &'a [Terminal]), Failure>
    requires { 0 < length names.now }
    ensures { Gives (λ p. (p.0, p.1.now)) result (spec.formal_after language_limit names.now tokens.now) }
{
    let [token, rest @ ..] = tokens else {
        return Err(stop(tokens));
    };
    match token.kind {
        TerminalKind::Type => {
            let (nonempty, rest) = plus(rest);
            Ok((type_formals(alloc, names, nonempty)?, rest))
        }
        TerminalKind::NonemptyType => Ok((type_formals(alloc, names, true)?, rest)),
        _ => const_formals(alloc, names, tokens),
    }
}

/// A formal for each of some names.
fn formal(alloc: Global, tokens: &[Terminal]) -> Result<(Items<Formal>, &[Terminal]), Failure>
    ensures { Gives (λ p. (p.0, p.1.now)) result (spec.formal language_limit tokens.now) }
{
    let (names, rest) = ids(alloc, tokens)?;
    let rest = expect(TerminalKind::Colon, rest)?;
    formal_after(alloc, &names, rest)
}

/// Formals with commas between them, and the tokens after them.
#[tactic(auto, using(crate::proofs::UnitTurns::formals_init, crate::proofs::UnitTurns::formals_err, crate::proofs::UnitTurns::formals_last, crate::proofs::UnitTurns::formals_next, crate::proofs::UnitTurns::formals_full))]
fn formals(alloc: Global, tokens: &[Terminal]) -> Result<(Items<Formal>, &[Terminal]), Failure>
    ensures { Gives (λ p. (p.0, p.1.now)) result (spec.formals_from language_limit 200 [] tokens.now) }
{
    let mut found = Items::new(alloc);
    let mut rest = tokens;
    for _ in 0..MAX_LIST {
        let (more, behind) = formal(alloc, rest)?;
        found.append(more)?;
        let Some(next) = after(TerminalKind::Comma, behind) else {
            return Ok((found, behind));
        };
        rest = next;
    }
    Err(crowded(comes_id(rest), rest))
}

/// Formals in brackets, where a bracket comes next.
pub fn formal_part(
    alloc: Global,
    tokens: &[Terminal],
) -> Result<(Items<Formal>, &[Terminal]), Failure>
    ensures { Gives (λ p. (p.0, p.1.now)) result (spec.formal_part language_limit tokens.now) }
{
    let Some(rest) = after(TerminalKind::OpenBracket, tokens) else {
        return Ok((Items::new(alloc), tokens));
    };
    let (formals, rest) = formals(alloc, rest)?;
    let rest = expect(TerminalKind::CloseBracket, rest)?;
    Ok((formals, rest))
}
