//! Units: the theories and the proofs of a text.

ghost use Rattle.std.specs.Prelude.{◌≡◌};
ghost use Rattle.pvs_parser.specs.code.Descent.{Gives};
ghost use Rattle.pvs_parser.specs.Language.{language_limit};
ghost use Rattle.pvs_parser.specs.code.UnitDescent as spec;

use crate::failure::Failure;
use crate::proofs::proof;
use crate::terminal::{Terminal, TerminalKind};
use crate::theories::theory;
use crate::tokens::{after, ended};
use pvs_syntax::{Item, Unit};
use sqlite_items::Items;
use std::alloc::Global;

/// A theory or a proof, and the tokens after it.
fn item<'a>(
    alloc: Global,
    text: &[u8],
    tokens: &'a [Terminal],
) -> Result<(Item, &'a [Terminal]), Failure>
    ensures { Gives (λ p. (p.0, p.1.now)) result (spec.one_item language_limit text.now tokens.now) }
{
    match after(TerminalKind::Open, tokens) {
        Some(rest) => {
            let (proof, rest) = proof(rest)?;
            Ok((Item::Proof(proof), rest))
        }
        None => {
            let (theory, rest) = theory(alloc, text, tokens)?;
            Ok((Item::Theory(theory), rest))
        }
    }
}

/// The tree of all the tokens of a text.
#[tactic(auto, using(crate::proofs::UnitTurns::unit_init, crate::proofs::UnitTurns::unit_end, crate::proofs::UnitTurns::unit_err, crate::proofs::UnitTurns::unit_next, crate::proofs::UnitTurns::unit_full))]
pub fn unit(alloc: Global, text: &[u8], tokens: &[Terminal]) -> Result<Unit, Failure>
    ensures { Gives (λ u. u) result (spec.unit language_limit text.now tokens.now) }
{
    let mut items = Items::new(alloc);
    let mut rest = tokens;
    for _ in 0..tokens.len() {
        if rest.is_empty() {
            return Ok(Unit { items });
        }
        let (item, behind) = item(alloc, text, rest)?;
        items.push(item)?;
        rest = behind;
    }
    ended(Unit { items }, rest)
}
