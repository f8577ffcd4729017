//! What a terminal is to the rules.

ghost use Rattle.std.specs.Prelude.{◌≡◌};
ghost use Rattle.pvs_parser.specs.Terminals as terminals;
ghost use Rattle.pvs_parser.specs.Language as language;
ghost use Rattle.pvs_parser.specs.code.Descent as spec;

use crate::terminal::{Connective, Prefix, TerminalKind};
use pvs_syntax::{BinderWord, InfixWord};

/// Whether it is an identifier.
pub fn is_id(kind: TerminalKind) -> bool
    ensures { result ≡ terminals.is_id kind }
{
    matches!(kind, TerminalKind::Id | TerminalKind::Proof)
}

/// The terminal of a connective.
pub fn sign(connective: Connective) -> TerminalKind
    ensures { result ≡ language.sign connective }
{
    match connective {
        Connective::Iff => TerminalKind::Iff,
        Connective::Implies => TerminalKind::Implies,
        Connective::Or => TerminalKind::Or,
        Connective::And => TerminalKind::And,
    }
}

/// The operator of a connective.
pub fn operator(connective: Connective) -> InfixWord
    ensures { result ≡ language.operator connective }
{
    match connective {
        Connective::Iff => InfixWord::Iff,
        Connective::Implies => InfixWord::Implies,
        Connective::Or => InfixWord::Or,
        Connective::And => InfixWord::And,
    }
}

/// The operator that it is between two terms.
pub fn comparison(kind: TerminalKind) -> Option<InfixWord>
    ensures { result ≡ language.comparison kind }
{
    match kind {
        TerminalKind::Equal => Some(InfixWord::Equal),
        TerminalKind::Differs => Some(InfixWord::Differs),
        _ => None,
    }
}

fn binder_word(kind: TerminalKind) -> Option<BinderWord>
    ensures { result ≡ language.binder_word kind }
{
    match kind {
        TerminalKind::Forall => Some(BinderWord::Forall),
        TerminalKind::Exists => Some(BinderWord::Exists),
        TerminalKind::Lambda => Some(BinderWord::Lambda),
        _ => None,
    }
}

/// What it begins, where that is no term.
pub fn prefix(kind: TerminalKind) -> Option<Prefix>
    ensures { result ≡ spec.prefix kind }
{
    match kind {
        TerminalKind::Not => Some(Prefix::Negation),
        TerminalKind::Let => Some(Prefix::Local),
        _ => match binder_word(kind) {
            Some(word) => Some(Prefix::Binder(word)),
            None => None,
        },
    }
}

/// Whether a type that begins with it is an actual as it stands.
pub fn begins_type(kind: TerminalKind) -> bool
    ensures { result ≡ language.begins_type kind }
{
    matches!(kind, TerminalKind::OpenBracket | TerminalKind::OpenBrace)
}

/// Whether an expression may begin with it.
pub fn starts_expr(kind: TerminalKind) -> bool
    ensures { result ≡ spec.starts_expr kind }
{
    matches!(
        kind,
        TerminalKind::Not
            | TerminalKind::Forall
            | TerminalKind::Exists
            | TerminalKind::Lambda
            | TerminalKind::Let
            | TerminalKind::True
            | TerminalKind::False
            | TerminalKind::Id
            | TerminalKind::Proof
            | TerminalKind::Open
            | TerminalKind::If
    )
}

/// Whether a type may begin with it.
pub fn starts_type(kind: TerminalKind) -> bool
    ensures { result ≡ spec.starts_type kind }
{
    matches!(
        kind,
        TerminalKind::Id
            | TerminalKind::Proof
            | TerminalKind::Open
            | TerminalKind::OpenBracket
            | TerminalKind::OpenBrace
    )
}
