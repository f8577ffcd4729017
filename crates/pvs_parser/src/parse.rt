//! The calls of this crate: the unit of a text, and the expression of a span of one.

ghost use Rattle.std.specs.Prelude.{◌≡◌, ◌≤◌, ◌^◌, ℕ, List, Result, length, IfOk};
ghost use Rattle.pvs_base.specs.declared.code.Fault as fault;
ghost use Rattle.pvs_base.specs.declared.place.Pos as place;
ghost use Rattle.pvs_syntax.specs.declared.expression.Expr as tree_expr;
ghost use Rattle.pvs_syntax.specs.declared.unit.Unit as tree;
ghost use Rattle.pvs_parser.specs.code.Reading.{Returns};
ghost use Rattle.pvs_parser.specs.Text.{Reads, IsFirstFault, IsAnswer, Answers, ReadsSpan, IsFirstFaultOfSpan, AnswersSpan, IsSpanAnswer, AnswersTree, AnswersFault, SpansIn, HasAnswer, HasSpanAnswer};
ghost use Rattle.pvs_syntax.specs.Trees.{IsTreeOf, IsTreeOfTerm};
ghost use Rattle.pvs_parser.specs.code.Reading as spec;

use crate::descent::expression;
use crate::failure::ParseFault;
use crate::fault::parse_fault;
use crate::text::terminals;
use crate::units::unit;
use pvs_base::{Code, Fault, MAX_TEXT, Pos};
use pvs_syntax::{Expr, Unit};
use std::alloc::Global;

fn read_text(alloc: Global, text: &[u8]) -> Result<Unit, ParseFault>
    ensures { Returns result (spec.read_text text.now) }
{
    if text.len() > MAX_TEXT {
        return Err(ParseFault::At(Fault {
            pos: Pos::FIRST,
            code: Code::TextTooLong,
        }));
    }
    let (tokens, lexical) = terminals(alloc, false, 0, Pos::FIRST, text)?;
    match (unit(alloc, text, &tokens), lexical) {
        (Ok(unit), None) => Ok(unit),
        (Ok(_), Some(fault)) => Err(ParseFault::At(fault)),
        (Err(failure), _) => Err(parse_fault(text, Pos::FIRST, lexical, &tokens, failure)),
    }
}

fn read_span(alloc: Global, text: &[u8], start: u32, end: u32, pos: Pos) -> Result<Expr, ParseFault>
    requires order { start ≤ end }
    requires within { end ≤ length text.now }
    requires size { length text.now ≤ 2 ^ 20 }
    requires line { pos.line ≤ 2 ^ 30 }
    requires col { pos.col ≤ 2 ^ 30 }
    ensures { Returns result (spec.read_span text.now start end pos) }
{
    let span = pvs_lexer::spelling(text, start, end);
    let (tokens, lexical) = terminals(alloc, true, start, pos, span)?;
    match (expression(alloc, &tokens), lexical) {
        (Ok(expr), None) => Ok(expr),
        (Ok(_), Some(fault)) => Err(ParseFault::At(fault)),
        (Err(failure), _) => Err(parse_fault(span, pos, lexical, &tokens, failure)),
    }
}

/// The unit of a text: its theories and proofs, in order (PVS Language Reference, chapters Theories
/// and Declarations; proofs stand beside theories).
///
/// Otherwise the first fault, with its place; lines and columns count from 1, and columns are
/// bytes:
///
/// - TextTooLong, at line 1, column 1, for a text of more than 2^20 bytes;
/// - BadByte and UnclosedQuote, at the byte, where the tokens before it begin a unit;
/// - Unexpected, at the first token with which the tokens so far begin no unit, or at the place after
///   the last byte where the tokens begin one and are none;
/// - OutOfProfile in place of Unexpected, where that token is a number, `+`, `-`, a quoted text,
///   another word or symbol of PVS outside the grammar, or the `=` after `TYPE+` or NONEMPTY_TYPE;
/// - TooNested, at the token that opens level 201, or at the first token of the 201st entry of a
///   list;
/// - WrongEnd, at an identifier after END that is not the name of the theory.
///
/// Memory comes only where memory ran out, that of the stack included: a text whose reading would nest
/// more than 700 calls needs more. Only texts in which commas clear the marks of open forms do.
pub fn parse_unit(alloc: Global, text: &[u8]) -> Result<Unit, ParseFault>
    ensures answer { Answers text.now result }
    // Where the text is a unit, that one is answered; where it has a first fault, that one is.
    ensures only { (u : tree.Unit) → Reads text.now u → AnswersTree u result }
    ensures first { (f : fault.Fault) → IsFirstFault text.now f → AnswersFault f result }
    // Each word of the unit is a token of the text of its kind, and each list has a length of the grammar.
    ensures tree { IfOk result (λ u. IsTreeOf text.now u) }
    // The script of each proof lies in the text, and its place is that of its first byte.
    ensures spans { IfOk result (λ u. SpansIn text.now u) }
    // A text that reads is no longer than a text may be.
    ensures short { IfOk result (λ u. length text.now ≤ 2 ^ 20) }
{
    read_text(alloc, text)
}

/// The expression of the bytes of a text from `start` up to `end`, the first of which has the place
/// `pos` (PVS Language Reference, chapter Expressions). The variables of a sequent, as `v!1`, are
/// identifiers in it.
///
/// Otherwise the first fault: BadByte, UnclosedQuote, Unexpected, OutOfProfile or TooNested, each
/// where `parse_unit` has it, with an expression in place of a unit. The place after the last byte
/// is that after the span. Memory comes only where memory ran out, as in `parse_unit`.
pub fn parse_expr(
    alloc: Global,
    text: &[u8],
    start: u32,
    end: u32,
    pos: Pos,
) -> Result<Expr, ParseFault>
    requires order { start ≤ end }
    requires within { end ≤ length text.now }
    requires size { length text.now ≤ 2 ^ 20 }
    requires line { pos.line ≤ 2 ^ 30 }
    requires col { pos.col ≤ 2 ^ 30 }
    ensures answer { AnswersSpan text.now start end pos result }
    // Where the span is an expression, that one is answered; where it has a first fault, that one is.
    ensures only { (x : tree_expr.Expr) → ReadsSpan text.now start end pos x → AnswersTree x result }
    ensures first { (f : fault.Fault) → IsFirstFaultOfSpan text.now start end pos f → AnswersFault f result }
    // Each word of the expression is a token of the text of its kind, in which a variable of a sequent is an
    // identifier, and each list has a length of the grammar.
    ensures tree { IfOk result (λ x. IsTreeOfTerm text.now start pos x) }
{
    read_span(alloc, text, start, end, pos)
}

/// Each text has exactly one answer: its unit, or its first fault.
pub fn one_answer()
    ensures some { (text : List ℕ) → HasAnswer text }
    ensures only { (text : List ℕ) (a b : Result tree.Unit fault.Fault) → IsAnswer text a → IsAnswer text b → a ≡ b }
{}

/// Each span of a text has exactly one answer: its expression, or its first fault.
pub fn one_span_answer()
    ensures some { (text : List ℕ) (start end : ℕ) (pos : place.Pos) → HasSpanAnswer text start end pos }
    ensures only { (text : List ℕ) (start end : ℕ) (pos : place.Pos) (a b : Result tree_expr.Expr fault.Fault) → IsSpanAnswer text start end pos a → IsSpanAnswer text start end pos b → a ≡ b }
{}
