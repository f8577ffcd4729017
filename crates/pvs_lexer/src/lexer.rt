//! The tokens of a text, one at a time.

ghost use Rattle.std.specs.Prelude.{◌≡◌, ◌≤◌, ◌+◌, ◌^◌, length, All};
ghost use Rattle.pvs_lexer.specs.Tokens as spec;
ghost use Rattle.pvs_lexer.specs.Tokens.{tokens_of};
ghost use Rattle.pvs_lexer.specs.Spans.{AreSpans, IsTokenOf};
ghost use Rattle.pvs_lexer.specs.Answers.{answer_of, after_answer};

use crate::cursor::{Cursor, past, past_blanks};
use crate::scan::longest;
use crate::token::Token;
use pvs_base::{Code, Fault, Pos};
use std::marker::Model;

/// A reader of the tokens of a text. Contracts see it as the tokens that are still to come, with
/// the fault after them, if there is one.
#[derive(Drop)]
pub struct Lexer<'a> {
    cursor: Cursor<'a>,
}

impl<'a> Model for Lexer<'a> {
    ghost use Rattle.pvs_lexer.specs.Tokens.{TokenStream};

    ghost Value = { TokenStream };

    ghost use Rattle.pvs_lexer.specs.code.Cursor.{tokens_left, HasRoom};

    ghost view = { λ l. tokens_left l.cursor 0 };

    ghost invariant = { λ l. HasRoom l.cursor };
}

impl<'a> Lexer<'a> {
    /// A reader at the beginning of a text whose first byte has the place `pos`.
    #[tactic(auto, using(crate::proofs::SpanLaws::new_is, crate::proofs::SpanLaws::tokens_spans, crate::proofs::SpanLaws::tokens_count, crate::proofs::SpanLaws::tokens_are))]
    pub fn new(text: &'a [u8], pos: Pos) -> Lexer<'a>
        requires text { length text.now ≤ 2 ^ 20 }
        requires line { pos.line ≤ 2 ^ 30 }
        requires col { pos.col ≤ 2 ^ 30 }
        ensures tokens { result ≡ tokens_of pos text.now }
        // The spans lie in the text, ascend, and are not empty; so there are no more than bytes.
        ensures spans { AreSpans 0 (length text.now) result.tokens }
        ensures count { length result.tokens ≤ length text.now }
        // Each has the kind of its bytes, and the place of its first byte.
        ensures each { All (IsTokenOf pos text.now) result.tokens }
    {
        Lexer {
            cursor: Cursor {
                rest: text,
                offset: 0,
                pos,
            },
        }
    }

    /// The next token, or the fault that ends the tokens. None at the end of the text, and after a
    /// fault. This takes no memory.
    ///
    /// BadByte, at its place, is for a byte outside white space and comments that begins no token;
    /// UnclosedQuote, at its place, for a `"` without a second one.
    pub fn next(&mut self) -> Option<Result<Token, Fault>>
        ensures answer { result ≡ answer_of self.old }
        ensures rest { self.new ≡ after_answer self.old }
    {
        let cursor = past_blanks(self.cursor);
        let [first, rest @ ..] = cursor.rest else {
            self.cursor = cursor;
            return None;
        };
        match longest(*first, rest) {
            Some((kind, size)) => {
                self.cursor = past(cursor, size);
                Some(Ok(Token {
                    kind,
                    start: cursor.offset,
                    end: self.cursor.offset,
                    pos: cursor.pos,
                }))
            }
            None => {
                self.cursor = Cursor {
                    rest: &[],
                    ..cursor
                };
                Some(Err(Fault {
                    pos: cursor.pos,
                    code: fault_of(*first),
                }))
            }
        }
    }
}

fn fault_of(first: u8) -> Code
    ensures { result ≡ spec.fault_of first }
{
    if first == b'"' {
        Code::UnclosedQuote
    } else {
        Code::BadByte
    }
}
