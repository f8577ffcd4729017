//! The first of some tokens.

ghost use Rattle.std.specs.Prelude.{◌≡◌, ◌+◌, option_map, length};
ghost use Rattle.pvs_parser.specs.Terminals.{is_id, same_kind};
ghost use Rattle.pvs_parser.specs.code.Nests.{comes};
ghost use Rattle.pvs_parser.specs.code.Descent.{Gives};
ghost use Rattle.pvs_parser.specs.code.Descent as spec;

use crate::failure::{Failure, Reason, Stop};
use crate::tables::{begins_type, comparison, is_id, prefix, starts_expr, starts_type};
use crate::terminal::{Prefix, Terminal, TerminalKind};
use pvs_syntax::{InfixWord, Word};

/// Nothing of the grammar goes on with the first of these tokens, or with their end.
pub fn stop(tokens: &[Terminal]) -> Failure
    ensures { result ≡ Failure.At (record { left = length tokens.now; reason = Reason.Unexpected }) }
{
    Failure::At(Stop {
        left: tokens.len(),
        reason: Reason::Unexpected,
    })
}

/// The first of these tokens is one too many.
pub fn too_many(tokens: &[Terminal]) -> Failure
    ensures { result ≡ Failure.At (record { left = length tokens.now; reason = Reason.TooNested }) }
{
    Failure::At(Stop {
        left: tokens.len(),
        reason: Reason::TooNested,
    })
}

/// The token before these nests too deep.
pub fn too_deep(tokens: &[Terminal]) -> Failure
    ensures { result ≡ Failure.At (record { left = length tokens.now + 1; reason = Reason.TooNested }) }
{
    Failure::At(Stop {
        left: tokens.len() + 1,
        reason: Reason::TooNested,
    })
}

#[tactic(auto, unfolding(crate::specs::Terminals::same_kind))]
fn is_kind(a: TerminalKind, b: TerminalKind) -> bool
    ensures { result ≡ same_kind a b }
{
    a == b
}

/// The tokens after one of this kind, where it comes next.
pub fn after(kind: TerminalKind, tokens: &[Terminal]) -> Option<&[Terminal]>
    ensures { option_map (λ r. r.now) result ≡ spec.after kind tokens.now }
{
    match tokens {
        [token, rest @ ..] if is_kind(token.kind, kind) => Some(rest),
        _ => None,
    }
}

/// The tokens after one of this kind, which has to come next.
pub fn expect(kind: TerminalKind, tokens: &[Terminal]) -> Result<&[Terminal], Failure>
    ensures { Gives (λ r. r.now) result (spec.expect kind tokens.now) }
{
    match tokens {
        [token, rest @ ..] if is_kind(token.kind, kind) => Ok(rest),
        _ => Err(stop(tokens)),
    }
}

/// An identifier, which has to come next, and the tokens after it.
pub fn id(tokens: &[Terminal]) -> Result<(Word, &[Terminal]), Failure>
    ensures { Gives (λ p. (p.0, p.1.now)) result (spec.id tokens.now) }
{
    match tokens {
        [token, rest @ ..] if is_id(token.kind) => Ok((token.word, rest)),
        _ => Err(stop(tokens)),
    }
}

/// A number, which has to come next, and the tokens after it.
pub fn number(tokens: &[Terminal]) -> Result<(Word, &[Terminal]), Failure>
    ensures { Gives (λ p. (p.0, p.1.now)) result (spec.number tokens.now) }
{
    match tokens {
        [token, rest @ ..] if is_kind(token.kind, TerminalKind::Number) => Ok((token.word, rest)),
        _ => Err(stop(tokens)),
    }
}

/// An `=` or `/=` that comes next, and the tokens after it.
pub fn compares(tokens: &[Terminal]) -> Option<(InfixWord, &[Terminal])>
    ensures { option_map (λ p. (p.0, p.1.now)) result ≡ spec.compares tokens.now }
{
    let [token, rest @ ..] = tokens else {
        return None;
    };
    match comparison(token.kind) {
        Some(word) => Some((word, rest)),
        None => None,
    }
}

/// The identifier and the colon that come next, and the tokens after them.
pub fn labels(tokens: &[Terminal]) -> Option<(Word, &[Terminal])>
    ensures { option_map (λ p. (p.0, p.1.now)) result ≡ spec.label tokens.now }
{
    let [token, rest @ ..] = tokens else {
        return None;
    };
    if !is_id(token.kind) {
        return None;
    }
    match after(TerminalKind::Colon, rest) {
        Some(rest) => Some((token.word, rest)),
        None => None,
    }
}

/// The NOT, LET or word of a binder that comes next, and the tokens after it.
pub fn begins(tokens: &[Terminal]) -> Option<(Prefix, Word, &[Terminal])>
    ensures { option_map (λ p. (p.0, p.1, p.2.now)) result ≡ spec.begins tokens.now }
{
    let [token, rest @ ..] = tokens else {
        return None;
    };
    match prefix(token.kind) {
        Some(prefix) => Some((prefix, token.word, rest)),
        None => None,
    }
}

/// Whether an identifier comes next.
pub fn comes_id(tokens: &[Terminal]) -> bool
    ensures { result ≡ comes is_id tokens.now }
{
    matches!(tokens, [token, ..] if is_id(token.kind))
}

/// Whether an expression may come next.
pub fn comes_expr(tokens: &[Terminal]) -> bool
    ensures { result ≡ comes spec.starts_expr tokens.now }
{
    matches!(tokens, [token, ..] if starts_expr(token.kind))
}

/// Whether a type may come next.
pub fn comes_type(tokens: &[Terminal]) -> bool
    ensures { result ≡ comes spec.starts_type tokens.now }
{
    matches!(tokens, [token, ..] if starts_type(token.kind))
}

/// Whether a type that is an actual parameter as it stands comes next.
pub fn comes_type_actual(tokens: &[Terminal]) -> bool
    ensures { result ≡ spec.comes_type tokens.now }
{
    matches!(tokens, [token, ..] if begins_type(token.kind))
}

/// A tree after which no token is left.
pub fn ended<A: Drop>(tree: A, tokens: &[Terminal]) -> Result<A, Failure>
    ensures { Gives (λ x. x) result (spec.at_end tree tokens.now) }
{
    if tokens.is_empty() {
        Ok(tree)
    } else {
        Err(stop(tokens))
    }
}
