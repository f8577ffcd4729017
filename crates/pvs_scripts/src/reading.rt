//! The script of a span, token by token.

ghost use Rattle.std.specs.Prelude.{◌≡◌, ◌≤◌, ◌+◌, ◌^◌, length};
ghost use Rattle.pvs_base.specs.Place.{place_after};
ghost use Rattle.pvs_parser.specs.code.Reading.{Returns};
ghost use Rattle.pvs_scripts.specs.code.Reading as spec;
ghost use Rattle.pvs_scripts.specs.code.States as states;
ghost use Rattle.pvs_scripts.specs.Faults as faults;

use crate::lexeme::{Lexeme, LexemeKind, Terminal};
use crate::quotes::quote;
use crate::spelling::{is_nonempty_type, lexeme};
use crate::state::State;
use crate::steps::{is_deep, next_state, takes_quote};
use crate::tree::ScriptTree;
use pvs_base::{Code, Fault, Pos};
use pvs_lexer::Lexer;
use pvs_parser::ParseFault;
use pvs_syntax::Expr;
use std::alloc::Global;

fn fault(pos: Pos, code: Code) -> ParseFault
    ensures { result ≡ ParseFault.At (faults.fault_at pos code) }
{
    ParseFault::At(Fault { pos, code })
}

/// The fault of a token that cannot come.
fn refusal(token: &Lexeme) -> ParseFault
    ensures { result ≡ ParseFault.At (spec.refusal token.now) }
{
    let code = if token.outside {
        Code::OutOfProfile
    } else {
        Code::Unexpected
    };
    fault(token.word.pos, code)
}

/// What is read with a further token, which holds an expression or nothing.
fn shift(
    alloc: Global,
    state: State,
    token: Lexeme,
    quote: Option<Expr>,
) -> Result<State, ParseFault>
    ensures { Returns result (spec.shift state token quote) }
{
    let terminal = Terminal {
        lexeme: token,
        quote,
    };
    let Some(state) = next_state(alloc, state, terminal)? else {
        return Err(refusal(&token));
    };
    if is_deep(&state) {
        return Err(fault(token.word.pos, Code::TooNested));
    }
    Ok(state)
}

/// What is read with a quoted text.
fn take_quote(alloc: Global, text: &[u8], state: State, token: Lexeme) -> Result<State, ParseFault>
    requires order { token.word.start + 2 ≤ token.word.end }
    requires within { token.word.end ≤ length text.now }
    requires size { length text.now ≤ 2 ^ 20 }
    requires line { token.word.pos.line ≤ 2 ^ 30 }
    requires col { token.word.pos.col + 1 ≤ 2 ^ 30 }
    ensures { Returns result (spec.take_quote text.now state token (states.takes_quote state)) }
{
    if !takes_quote(&state) {
        return Err(refusal(&token));
    }
    let expr = quote(alloc, text, token.word)?;
    shift(alloc, state, token, Some(expr))
}

/// What is read with a further token.
fn take_token(alloc: Global, text: &[u8], state: State, token: Lexeme) -> Result<State, ParseFault>
    requires order { token.kind ≡ LexemeKind.Quoted → token.word.start + 2 ≤ token.word.end }
    requires within { token.word.end ≤ length text.now }
    requires size { length text.now ≤ 2 ^ 20 }
    requires line { token.word.pos.line ≤ 2 ^ 30 }
    requires col { token.word.pos.col + 1 ≤ 2 ^ 30 }
    ensures { Returns result (spec.take_token text.now state token) }
{
    match token.kind {
        LexemeKind::Quoted => take_quote(alloc, text, state, token),
        _ => shift(alloc, state, token, None),
    }
}

/// The place after the last byte of a span, whose first byte has a place.
fn end_place(span: &[u8], pos: Pos) -> Pos
    requires span { length span.now ≤ 2 ^ 20 }
    requires line { pos.line ≤ 2 ^ 30 }
    requires col { pos.col ≤ 2 ^ 30 }
    ensures { result ≡ place_after pos span.now }
{
    let mut end = pos;
    for b in span {
        end = end.after(*b);
    }
    end
}

/// The script of all the tokens of a span.
fn whole(span: &[u8], pos: Pos, state: State) -> Result<ScriptTree, ParseFault>
    requires span { length span.now ≤ 2 ^ 20 }
    requires line { pos.line ≤ 2 ^ 30 }
    requires col { pos.col ≤ 2 ^ 30 }
    ensures { Returns result (spec.whole (place_after pos span.now) state) }
{
    match state {
        State::Whole(script) => Ok(script),
        State::Start | State::Inside(_) => Err(fault(end_place(span, pos), Code::Unexpected)),
    }
}

/// The script of a span, which begins at an offset of the text.
pub fn read_script(
    alloc: Global,
    text: &[u8],
    offset: u32,
    pos: Pos,
    span: &[u8],
) -> Result<ScriptTree, ParseFault>
    requires within { offset + length span.now ≤ length text.now }
    requires size { length text.now ≤ 2 ^ 20 }
    requires line { pos.line ≤ 2 ^ 29 }
    requires col { pos.col ≤ 2 ^ 29 }
    ensures { Returns result (spec.read_script text.now offset pos span.now) }
{
    let mut lexer = Lexer::new(span, pos);
    let mut state = State::Start;
    let mut after_nonempty = false;
    while let Some(answer) = lexer.next() {
        let token = match answer {
            Ok(token) => token,
            Err(fault) => return Err(ParseFault::At(fault)),
        };
        let lexeme = lexeme(after_nonempty, offset, span, token);
        state = take_token(alloc, text, state, lexeme)?;
        after_nonempty = is_nonempty_type(span, token);
    }
    whole(span, pos, state)
}
