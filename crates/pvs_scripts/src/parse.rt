//! The calls of this crate: the script of a proof, and that each proof has one answer.

ghost use Rattle.std.specs.Prelude.{◌≡◌, ◌≤◌, ◌^◌, List, ℕ, length, Result, IfOk};
ghost use Rattle.pvs_base.specs.declared.code.Fault as fault;
ghost use Rattle.pvs_syntax.specs.declared.unit.Proof as unit;
ghost use Rattle.pvs_parser.specs.Text.{AnswersTree, AnswersFault};
ghost use Rattle.pvs_scripts.specs.declared.lexeme.Terminal as lexeme;
ghost use Rattle.pvs_scripts.specs.declared.tree.ScriptTree as tree;
ghost use Rattle.pvs_scripts.specs.Grammar.{DerivesScript, IsScript};
ghost use Rattle.pvs_scripts.specs.Faults.{IsFirstFault, IsScriptAnswer, AnswersScript};
ghost use Rattle.pvs_scripts.specs.Trees.{script_text, IsScriptOf};

use crate::reading::read_script;
use crate::tree::ScriptTree;
use pvs_parser::ParseFault;
use pvs_syntax::Proof;
use std::alloc::Global;

/// The script of a proof, from its span in the text of a unit of at most 2^20 bytes.
///
/// A script is steps and then scripts, in parentheses, at most 200 levels deep. A step is a word
/// and its arguments, in parentheses. An argument is a number, with or without a minus sign, a
/// quoted text or a word; a word may be a keyword. A quoted text is read as one expression, as
/// `parse_expr` does, with the places of the text.
///
/// Otherwise the first fault of the span, by its place:
///
/// - Unexpected, at the first token with which the tokens so far begin no script, or at the place
///   after the last byte of a span that ends too early;
/// - OutOfProfile in place of Unexpected, where that token is a number, `+`, `-`, a quoted text,
///   another word or symbol of PVS outside the language, or the `=` after NONEMPTY_TYPE;
/// - TooNested, at a parenthesis that opens level 201;
/// - BadByte and UnclosedQuote, at a byte where no token begins;
/// - the first fault of an expression in quotes, at its place.
///
/// Memory comes only where memory ran out, as in `parse_expr`.
pub fn parse_script(alloc: Global, text: &[u8], proof: &Proof) -> Result<ScriptTree, ParseFault>
    requires text { length text.now ≤ 2 ^ 20 }
    requires order { proof.now.start ≤ proof.now.end }
    requires within { proof.now.end ≤ length text.now }
    requires line { proof.now.pos.line ≤ 2 ^ 29 }
    requires col { proof.now.pos.col ≤ 2 ^ 29 }
    ensures answer { AnswersScript text.now proof.now result }
    // Where the span is a script, that one is answered; where it has a first fault, that one is.
    ensures only { (x : tree.ScriptTree) → IsScript text.now proof.now x → AnswersTree x result }
    ensures first { (f : fault.Fault) → IsFirstFault text.now proof.now f → AnswersFault f result }
    // Each word of the script is a word of the text, each expression is one of a quoted text, and each script has
    // a step.
    ensures tree { IfOk result (λ x. IsScriptOf (script_text text.now proof.now) x) }
{
    read_script(
        alloc,
        text,
        proof.start,
        proof.pos,
        &text[proof.start as usize..proof.end as usize],
    )
}

/// Tokens, with the expressions that quoted texts hold, are at most one script.
pub fn one_script()
    ensures { (ts : List lexeme.Terminal) (x y : tree.ScriptTree) → DerivesScript ts x → DerivesScript ts y → x ≡ y }
{}

/// Each proof has exactly one answer: its script, or its first fault.
pub fn one_answer()
    ensures some { (text : List ℕ) (proof : unit.Proof) → (a : Result tree.ScriptTree fault.Fault) × IsScriptAnswer text proof a }
    ensures only { (text : List ℕ) (proof : unit.Proof) (a b : Result tree.ScriptTree fault.Fault) → IsScriptAnswer text proof a → IsScriptAnswer text proof b → a ≡ b }
{}
