//! The calls of this crate: the script of a span, and that each span has one answer.

ghost use Rattle.std.specs.Prelude.{◌≡◌, ◌≤◌, ◌^◌, List, ℕ, length, IfOk, Result, Ok, Err};
ghost use Rattle.pvs_base.specs.Place.{place_after};
ghost use Rattle.pvs_base.specs.declared.code.Fault as code;
ghost use Rattle.pvs_syntax.specs.declared.unit.Proof as unit;
ghost use Rattle.pvs_script.specs.declared.lexeme.Lexeme as lexeme;
ghost use Rattle.pvs_script.specs.declared.tree.Script as tree;
ghost use Rattle.pvs_script.specs.Grammar.{DerivesScript, IsScript};
ghost use Rattle.pvs_script.specs.Faults.{IsFirstFault, IsScriptAnswer};
ghost use Rattle.pvs_script.specs.code.Reading.{Gives, script_of};
ghost use Rattle.pvs_script.specs.code.Reading as spec;

use crate::fault::ScriptFault;
use crate::lexeme::Lexeme;
use crate::sorts::lexeme;
use crate::state::State;
use crate::steps::{is_deep, next_state};
use crate::tree::Script;
use pvs_base::{Code, Fault, Pos};
use pvs_lexer::Lexer;
use pvs_syntax::Proof;
use std::alloc::Global;

fn fault(pos: Pos, code: Code) -> ScriptFault
    ensures { result ≡ ScriptFault.At (spec.fault_at pos code) }
{
    ScriptFault::At(Fault { pos, code })
}

/// What is read with a further token.
fn take_token(alloc: Global, state: State, token: &Lexeme) -> Result<State, ScriptFault>
    ensures { Gives result (spec.take_token state token.now) }
{
    let Some(state) = next_state(alloc, state, token)? else {
        return Err(fault(token.pos, Code::OutOfProfile));
    };
    if is_deep(&state) {
        return Err(fault(token.pos, Code::TooNested));
    }
    Ok(state)
}

/// The place after the last byte of a span, whose first byte has a place.
fn end_place(span: &[u8], pos: Pos) -> Pos
    requires span { length span.now ≤ 2 ^ 20 }
    requires line { pos.line ≤ 2 ^ 30 }
    requires col { pos.col ≤ 2 ^ 30 }
    ensures { result ≡ place_after pos span.now }
{
    let mut end = pos;
    for b in span {
        end = end.after(*b);
    }
    end
}

/// The script of all the tokens of a span.
fn whole(span: &[u8], pos: Pos, state: State) -> Result<Script, ScriptFault>
    requires span { length span.now ≤ 2 ^ 20 }
    requires line { pos.line ≤ 2 ^ 30 }
    requires col { pos.col ≤ 2 ^ 30 }
    ensures { Gives result (spec.whole (place_after pos span.now) state) }
{
    match state {
        State::Whole(script) => Ok(script),
        State::Start | State::Inside(_) => Err(fault(end_place(span, pos), Code::OutOfProfile)),
    }
}

#[tactic(auto, unfolding(crate::specs::code::Reading::read_span))]
fn read_span(alloc: Global, span: &[u8], pos: Pos) -> Result<Script, ScriptFault>
    requires span { length span.now ≤ 2 ^ 20 }
    requires line { pos.line ≤ 2 ^ 30 }
    requires col { pos.col ≤ 2 ^ 30 }
    ensures { Gives result (spec.read_span pos span.now) }
{
    let mut lexer = Lexer::new(span, pos);
    let mut state = State::Start;
    while let Some(answer) = lexer.next() {
        let token = match answer {
            Ok(token) => lexeme(span, token),
            Err(fault) => return Err(ScriptFault::At(fault)),
        };
        state = take_token(alloc, state, &token)?;
    }
    whole(span, pos, state)
}

/// The script of a proof, from its span in the text of a unit of at most 2^20 bytes.
///
/// A script is steps and then scripts, in parentheses, at most 200 levels deep. A step is `axiom`,
/// or `if` and the number of a formula, with a minus sign for an antecedent. A number of more than
/// nine digits is read as 0, which no formula has.
///
/// The fault is the first one of the span, at the place of its token: OutOfProfile, where the
/// tokens up to this one begin no script; TooNested, where they do and it opens level 201; BadByte
/// or UnclosedQuote, where no token begins. OutOfProfile at the place after the last byte is for a
/// span that ends too early.
pub fn read_script(alloc: Global, text: &[u8], proof: &Proof) -> Result<Script, ScriptFault>
    requires text { length text.now ≤ 2 ^ 20 }
    requires order { proof.now.start ≤ proof.now.end }
    requires within { proof.now.end ≤ length text.now }
    requires line { proof.now.pos.line ≤ 2 ^ 30 }
    requires col { proof.now.pos.col ≤ 2 ^ 30 }

    // Which script or which fault it is.
    ensures gives { Gives result (script_of text.now proof.now) }

    // A script that is answered is one by the grammar, and one by the grammar is answered.
    ensures found { IfOk result (λ x. IsScript text.now proof.now x) }
    ensures only { (x : tree.Script) → IsScript text.now proof.now x → Gives result (Ok x) }

    // A fault that is answered is the first one, and the first one is answered.
    ensures fault { (f : code.Fault) → result ≡ Err (ScriptFault.At f) → IsFirstFault text.now proof.now f }
    ensures first { (f : code.Fault) → IsFirstFault text.now proof.now f → Gives result (Err f) }
{
    read_span(
        alloc,
        &text[proof.start as usize..proof.end as usize],
        proof.pos,
    )
}

/// Tokens are at most one script.
pub fn one_script()
    ensures { (ts : List lexeme.Lexeme) (x y : tree.Script) → DerivesScript ts x → DerivesScript ts y → x ≡ y }
{}

/// Each proof has exactly one answer: its script, or its first fault.
pub fn one_answer()
    ensures some { (text : List ℕ) (proof : unit.Proof) → (a : Result tree.Script code.Fault) × IsScriptAnswer text proof a }
    ensures only { (text : List ℕ) (proof : unit.Proof) (a b : Result tree.Script code.Fault) → IsScriptAnswer text proof a → IsScriptAnswer text proof b → a ≡ b }
{}
