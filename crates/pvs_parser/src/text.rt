//! The tokens of a text as the grammar distinguishes them.

ghost use Rattle.std.specs.Prelude.{◌≡◌, ◌≤◌, ◌<◌, ◌+◌, ◌^◌, length, IfOk};
ghost use Rattle.std.specs.Str.{bytes_eq};
ghost use Rattle.pvs_base.specs.Place as place;
ghost use Rattle.pvs_lexer.specs.Keywords.{keyword_of};
ghost use Rattle.pvs_parser.specs.Text as spec;

use crate::terminal::{Terminal, TerminalKind};
use pvs_base::{Fault, Pos};
use pvs_lexer::{Keyword, Lexer, Token, TokenKind, keyword, spelling};
use pvs_syntax::Word;
use std::alloc::{AllocError, Global};

fn same(a: &[u8], b: &[u8]) -> bool
    ensures { result ≡ bytes_eq a.now b.now }
{
    a == b
}

fn keyword_kind(keyword: Keyword) -> TerminalKind
    ensures { result ≡ spec.keyword_kind keyword }
{
    match keyword {
        Keyword::And => TerminalKind::And,
        Keyword::Assuming => TerminalKind::Assuming,
        Keyword::Assumption => TerminalKind::Assumption,
        Keyword::Axiom | Keyword::Postulate => TerminalKind::Axiom,
        Keyword::Begin => TerminalKind::Begin,
        Keyword::Else => TerminalKind::Else,
        Keyword::Elsif => TerminalKind::Elsif,
        Keyword::End => TerminalKind::End,
        Keyword::EndAssuming => TerminalKind::EndAssuming,
        Keyword::EndIf => TerminalKind::EndIf,
        Keyword::Exists => TerminalKind::Exists,
        Keyword::False => TerminalKind::False,
        Keyword::Forall => TerminalKind::Forall,
        Keyword::If => TerminalKind::If,
        Keyword::Iff => TerminalKind::Iff,
        Keyword::Implies => TerminalKind::Implies,
        Keyword::Importing => TerminalKind::Importing,
        Keyword::In => TerminalKind::In,
        Keyword::Lambda => TerminalKind::Lambda,
        Keyword::Let => TerminalKind::Let,
        Keyword::NonemptyType => TerminalKind::NonemptyType,
        Keyword::Not => TerminalKind::Not,
        Keyword::Or => TerminalKind::Or,
        Keyword::Then => TerminalKind::Then,
        Keyword::Theory => TerminalKind::Theory,
        Keyword::True => TerminalKind::True,
        Keyword::Type => TerminalKind::Type,
        Keyword::Var => TerminalKind::Var,
        Keyword::Challenge
        | Keyword::Claim
        | Keyword::Conjecture
        | Keyword::Corollary
        | Keyword::Fact
        | Keyword::Formula
        | Keyword::Law
        | Keyword::Lemma
        | Keyword::Obligation
        | Keyword::Proposition
        | Keyword::Sublemma
        | Keyword::Theorem => TerminalKind::Lemma,
        _ => TerminalKind::OutOfProfile,
    }
}

fn word_kind(word: &[u8]) -> TerminalKind
    ensures { result ≡ spec.word_kind word.now (keyword_of word.now) }
{
    match keyword(word) {
        Some(keyword) => keyword_kind(keyword),
        None if same(word, b"proof") => TerminalKind::Proof,
        None => TerminalKind::Id,
    }
}

/// What a symbol of one byte is.
fn sign_kind(byte: u8) -> TerminalKind
    ensures { result ≡ spec.sign_kind byte }
{
    match byte {
        b'(' => TerminalKind::Open,
        b')' => TerminalKind::Close,
        b'[' => TerminalKind::OpenBracket,
        b']' => TerminalKind::CloseBracket,
        b'{' => TerminalKind::OpenBrace,
        b'}' => TerminalKind::CloseBrace,
        b',' => TerminalKind::Comma,
        b';' => TerminalKind::Semicolon,
        b':' => TerminalKind::Colon,
        b'.' => TerminalKind::Dot,
        b'|' => TerminalKind::Bar,
        b'=' => TerminalKind::Equal,
        b'&' => TerminalKind::And,
        b'+' => TerminalKind::Plus,
        b'`' => TerminalKind::Backquote,
        _ => TerminalKind::OutOfProfile,
    }
}

/// What a symbol of two bytes is.
fn pair_kind(symbol: &[u8]) -> TerminalKind
    ensures { result ≡ spec.pair_kind symbol.now }
{
    if same(symbol, b"->") {
        TerminalKind::Arrow
    } else if same(symbol, b"=>") {
        TerminalKind::Implies
    } else if same(symbol, b"/=") {
        TerminalKind::Differs
    } else if same(symbol, b"/\\") {
        TerminalKind::And
    } else if same(symbol, b"\\/") {
        TerminalKind::Or
    } else {
        TerminalKind::OutOfProfile
    }
}

fn symbol_kind(symbol: &[u8]) -> TerminalKind
    ensures { result ≡ spec.symbol_kind symbol.now }
{
    match symbol {
        [] => TerminalKind::OutOfProfile,
        [byte] => sign_kind(*byte),
        [_, _] => pair_kind(symbol),
        _ => TerminalKind::Iff,
    }
}

fn kind_of(quoted: bool, kind: TokenKind, bytes: &[u8]) -> TerminalKind
    ensures { result ≡ spec.kind_of quoted kind bytes.now }
{
    match kind {
        TokenKind::Word => word_kind(bytes),
        TokenKind::Bang if quoted => TerminalKind::Id,
        TokenKind::Bang => TerminalKind::Variable,
        TokenKind::Number => TerminalKind::Number,
        TokenKind::Quoted => TerminalKind::OutOfProfile,
        TokenKind::Symbol => symbol_kind(bytes),
    }
}

/// A token of a span that begins at an offset of a text.
fn terminal(quoted: bool, offset: u32, span: &[u8], token: Token) -> Terminal
    requires start { offset + token.start < 2 ^ 32 }
    requires end { offset + token.end < 2 ^ 32 }
    ensures { result ≡ spec.terminal quoted offset span.now token }
{
    let bytes = spelling(span, token.start, token.end);
    Terminal {
        kind: kind_of(quoted, token.kind, bytes),
        word: Word {
            start: offset + token.start,
            end: offset + token.end,
            pos: token.pos,
        },
    }
}

/// The tokens of a span of a text, and the lexical fault that ends them, if there is one.
///
/// The first byte of the span has this offset in the text, and this place. In a quoted term the
/// variables of a sequent are identifiers.
#[tactic(auto, using(crate::proofs::Spans::ends_within))]
pub fn terminals(
    alloc: Global,
    quoted: bool,
    offset: u32,
    pos: Pos,
    span: &[u8],
) -> Result<(Vec<Terminal>, Option<Fault>), AllocError>
    requires size { offset + length span.now ≤ 2 ^ 20 }
    requires line { pos.line ≤ 2 ^ 30 }
    requires col { pos.col ≤ 2 ^ 30 }
    ensures tokens { IfOk result (λ p. p.0.items ≡ (spec.terminals quoted offset pos span.now).tokens) }
    ensures fault { IfOk result (λ p. p.1 ≡ (spec.terminals quoted offset pos span.now).fault) }
{
    let mut lexer = Lexer::new(span, pos);
    let mut found = Vec::new(alloc);
    while let Some(answer) = lexer.next() {
        match answer {
            Ok(token) => found.push(terminal(quoted, offset, span, token))?,
            Err(fault) => return Ok((found, Some(fault))),
        }
    }
    Ok((found, None))
}

/// Where a text goes on that begins at this place with these bytes.
pub fn place_after(first: Pos, text: &[u8]) -> Pos
    requires size { length text.now ≤ 2 ^ 20 }
    requires line { first.line ≤ 2 ^ 30 }
    requires col { first.col ≤ 2 ^ 30 }
    ensures { result ≡ place.place_after first text.now }
{
    let mut pos = first;
    for byte in text {
        pos = pos.after(*byte);
    }
    pos
}
