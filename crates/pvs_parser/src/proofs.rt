//! Proofs: their targets, and the spans of their scripts.

ghost use Rattle.std.specs.Prelude.{◌≡◌, ◌<◌};
ghost use Rattle.pvs_parser.specs.code.Descent.{Gives};
ghost use Rattle.pvs_parser.specs.Language.{language_limit};
ghost use Rattle.pvs_parser.specs.code.UnitDescent as spec;

use crate::failure::Failure;
use crate::terminal::{Terminal, TerminalKind};
use crate::tokens::{expect, id, stop, too_deep};
use pvs_base::MAX_LEVEL;
use pvs_syntax::{Proof, Word};

/// The parenthesis that closes a script, after the one that opens it, and the tokens after it.
///
/// Only parentheses count for the level in a script.
#[tactic(auto, unfolding(crate::specs::code::UnitDescent::closing_parenthesis))]
fn balanced(tokens: &[Terminal]) -> Result<(Word, &[Terminal]), Failure>
    ensures { Gives (λ p. (p.0, p.1.now)) result (spec.closing_parenthesis language_limit 0 tokens.now) }
{
    // How many parentheses are open inside the outermost one.
    let mut open = 0;
    let mut rest = tokens;
    while let [token, behind @ ..] = rest {
        match token.kind {
            TerminalKind::Open if open + 1 >= MAX_LEVEL => return Err(too_deep(behind)),
            TerminalKind::Open => open += 1,
            TerminalKind::Close if open == 0 => return Ok((token.word, behind)),
            TerminalKind::Close => open -= 1,
            _ => {}
        }
        rest = behind;
    }
    Err(stop(rest))
}

/// The first and the last parenthesis of a script, and the tokens after it. A script begins at level
/// 0, so its first parenthesis has room.
fn script(tokens: &[Terminal]) -> Result<(Word, Word, &[Terminal]), Failure>
    ensures { Gives (λ p. (p.0, p.1, p.2.now)) result (spec.script language_limit tokens.now) }
{
    let [token, ..] = tokens else {
        return Err(stop(tokens));
    };
    let rest = expect(TerminalKind::Open, tokens)?;
    let (last, rest) = balanced(rest)?;
    Ok((token.word, last, rest))
}

/// The names of a theory and of a formula, after a parenthesis and `proof`.
fn target(tokens: &[Terminal]) -> Result<(Word, Word, &[Terminal]), Failure>
    ensures { Gives (λ p. (p.0, p.1, p.2.now)) result (spec.target tokens.now) }
{
    let rest = expect(TerminalKind::Proof, tokens)?;
    let (theory, rest) = id(rest)?;
    let rest = expect(TerminalKind::Dot, rest)?;
    let (formula, rest) = id(rest)?;
    Ok((theory, formula, rest))
}

/// A proof, after its parenthesis, and the tokens after it.
pub fn proof(tokens: &[Terminal]) -> Result<(Proof, &[Terminal]), Failure>
    ensures { Gives (λ p. (p.0, p.1.now)) result (spec.proof language_limit tokens.now) }
{
    let (theory, formula, rest) = target(tokens)?;
    let (first, last, rest) = script(rest)?;
    let rest = expect(TerminalKind::Close, rest)?;
    let proof = Proof {
        theory,
        formula,
        start: first.start,
        end: last.end,
        pos: first.pos,
    };
    Ok((proof, rest))
}
