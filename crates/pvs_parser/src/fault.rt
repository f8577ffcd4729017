//! Where reading stops, as a fault of the text.

ghost use Rattle.std.specs.Prelude.{◌≡◌, ◌≤◌, ◌^◌, length};
ghost use Rattle.pvs_base.specs.Place.{place_after};
ghost use Rattle.pvs_parser.specs.code.Reading.{report_of};
ghost use Rattle.pvs_parser.specs.Faults as faults;
ghost use Rattle.pvs_parser.specs.code.Reading as spec;

use crate::failure::{Failure, ParseFault, Reason, Stop};
use crate::terminal::{Terminal, TerminalKind};
use crate::text;
use pvs_base::{Code, Fault, Pos};

/// The kind of the token that stands so far before the one of this number.
fn kind_before(tokens: &[Terminal], at: usize, back: usize) -> Option<TerminalKind>
    ensures { result ≡ faults.kind_before tokens.now at back }
{
    if at < back {
        return None;
    }
    match tokens.get(at - back) {
        Some(token) => Some(token.kind),
        None => None,
    }
}

/// Whether a token of this number follows `TYPE+` or NONEMPTY_TYPE.
fn is_behind_nonempty(tokens: &[Terminal], at: usize) -> bool
    ensures { result ≡ faults.after_nonempty (faults.kind_before tokens.now at 1) (faults.kind_before tokens.now at 2) }
{
    match (kind_before(tokens, at, 1), kind_before(tokens, at, 2)) {
        (Some(TerminalKind::Plus), Some(TerminalKind::Type)) => true,
        (Some(TerminalKind::NonemptyType), _) => true,
        _ => false,
    }
}

/// Whether a token of this kind and number, where the grammar does not have it, is one of PVS that
/// no form has there.
fn is_outside(tokens: &[Terminal], at: usize, kind: TerminalKind) -> bool
    ensures { result ≡ faults.is_outside tokens.now at kind }
{
    match kind {
        TerminalKind::OutOfProfile | TerminalKind::Plus | TerminalKind::Number => true,
        TerminalKind::Equal => is_behind_nonempty(tokens, at),
        _ => false,
    }
}

fn code_of(tokens: &[Terminal], at: usize, kind: TerminalKind, reason: Reason) -> Code
    ensures { result ≡ faults.code_of tokens.now at kind reason }
{
    match reason {
        Reason::TooNested => Code::TooNested,
        Reason::WrongEnd => Code::WrongEnd,
        Reason::Unexpected if is_outside(tokens, at, kind) => Code::OutOfProfile,
        Reason::Unexpected => Code::Unexpected,
    }
}

/// The fault of a stop in the tokens of a span, whose first byte has the place `pos`, with the
/// lexical fault after the tokens, if there is one.
///
/// Where no token is left, it is the lexical fault, or that the span ends: at the place after its
/// last byte.
fn fault_of(span: &[u8], pos: Pos, lexical: Option<Fault>, tokens: &[Terminal], stop: Stop) -> Fault
    requires size { length span.now ≤ 2 ^ 20 }
    requires line { pos.line ≤ 2 ^ 30 }
    requires col { pos.col ≤ 2 ^ 30 }
    ensures { result ≡ spec.fault_of (place_after pos span.now) lexical tokens.now stop }
{
    let at = tokens.len().saturating_sub(stop.left);
    if let Some(token) = tokens.get(at) {
        return Fault {
            pos: token.word.pos,
            code: code_of(tokens, at, token.kind, stop.reason),
        };
    }
    match lexical {
        Some(fault) => fault,
        None => Fault {
            pos: text::place_after(pos, span),
            code: Code::Unexpected,
        },
    }
}

/// Why a span gave no tree, where reading its tokens failed so.
pub fn parse_fault(
    span: &[u8],
    pos: Pos,
    lexical: Option<Fault>,
    tokens: &[Terminal],
    failure: Failure,
) -> ParseFault
    requires size { length span.now ≤ 2 ^ 20 }
    requires line { pos.line ≤ 2 ^ 30 }
    requires col { pos.col ≤ 2 ^ 30 }
    ensures { result ≡ report_of (place_after pos span.now) lexical tokens.now failure }
{
    match failure {
        Failure::Memory => ParseFault::Memory,
        Failure::At(stop) => ParseFault::At(fault_of(span, pos, lexical, tokens, stop)),
    }
}
