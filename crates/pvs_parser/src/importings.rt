//! Lists of identifiers, and the importing of instances.

ghost use Rattle.std.specs.Prelude.{◌≡◌, ◌<◌, ◌+◌, [], length, IfOk};
ghost use Rattle.pvs_parser.specs.code.Descent.{Gives};
ghost use Rattle.pvs_parser.specs.Language.{language_limit};
ghost use Rattle.pvs_parser.specs.code.UnitDescent as spec;

use crate::descent::actuals;
use crate::failure::Failure;
use crate::lists::crowded;
use crate::nesting::Nesting;
use crate::terminal::{Terminal, TerminalKind};
use crate::tokens::{after, comes_id, id, stop};
use pvs_base::MAX_LIST;
use pvs_syntax::{Decl, InstExpr, Word};
use sqlite_items::Items;
use std::alloc::Global;

/// Identifiers with commas between them, and the tokens after them.
#[tactic(auto, using(crate::proofs::UnitTurns::ids_init, crate::proofs::UnitTurns::ids_err, crate::proofs::UnitTurns::ids_last, crate::proofs::UnitTurns::ids_next, crate::proofs::UnitTurns::ids_full))]
pub fn ids(alloc: Global, tokens: &[Terminal]) -> Result<(Vec<Word>, &[Terminal]), Failure>
    ensures value { Gives (λ p. (p.0.items, p.1.now)) result (spec.ids language_limit tokens.now) }
    ensures some { IfOk result (λ p. 0 < length p.0.items) }
{
    let mut found = Vec::new(alloc);
    let mut rest = tokens;
    for _ in 0..MAX_LIST {
        let (word, behind) = id(rest)?;
        found.push(word)?;
        let Some(next) = after(TerminalKind::Comma, behind) else {
            return Ok((found, behind));
        };
        rest = next;
    }
    Err(crowded(comes_id(rest), rest))
}

/// A theory, with the actuals that stand after its name.
fn inst(alloc: Global, tokens: &[Terminal]) -> Result<(InstExpr, &[Terminal]), Failure>
    ensures { Gives (λ p. (p.0, p.1.now)) result (spec.inst language_limit tokens.now) }
{
    let (theory, rest) = id(tokens)?;
    let (actuals, rest) = match after(TerminalKind::OpenBracket, rest) {
        Some(rest) => actuals(alloc, rest.len() + 1, Nesting::OUTERMOST, rest)?,
        None => (Items::new(alloc), rest),
    };
    Ok((InstExpr { theory, actuals }, rest))
}

/// Instances with commas between them, and the tokens after them.
#[tactic(auto, using(crate::proofs::UnitTurns::instances_err, crate::proofs::UnitTurns::instances_last, crate::proofs::UnitTurns::instances_next, crate::proofs::UnitTurns::instances_full))]
fn instances(alloc: Global, tokens: &[Terminal]) -> Result<(Vec<InstExpr>, &[Terminal]), Failure>
    ensures { Gives (λ p. (p.0.items, p.1.now)) result (spec.instances_from language_limit (length tokens.now + 1) [] tokens.now) }
{
    let mut found = Vec::new(alloc);
    let mut rest = tokens;
    for _ in 0..tokens.len() + 1 {
        let (instance, behind) = inst(alloc, rest)?;
        found.push(instance)?;
        let Some(next) = after(TerminalKind::Comma, behind) else {
            return Ok((found, behind));
        };
        rest = next;
    }
    Err(stop(rest))
}

/// What stands after IMPORTING: an entry for each instance.
pub fn importing(alloc: Global, tokens: &[Terminal]) -> Result<(Items<Decl>, &[Terminal]), Failure>
    ensures { Gives (λ p. (p.0, p.1.now)) result (spec.importing language_limit tokens.now) }
{
    let (instances, rest) = instances(alloc, tokens)?;
    let decls: Vec<Decl> = instances
        .into_iter()
        .map(|instance| Decl::Importing(instance))
        .collect(alloc)?;
    Ok((Items::from_vec(decls), rest))
}
