//! Which token of a script a token of a text is.

ghost use Rattle.std.specs.Prelude.{◌≡◌, ◌≤◌, ◌<◌, ◌+◌, ◌^◌, false};
ghost use Rattle.std.specs.Str.{bytes_eq};
ghost use Rattle.pvs_lexer.specs.Keywords.{keyword_of};
ghost use Rattle.pvs_parser.specs.Text as parser;
ghost use Rattle.pvs_scripts.specs.Tokens as spec;

use crate::lexeme::{Lexeme, LexemeKind};
use pvs_lexer::{Keyword, Token, TokenKind, keyword, spelling};
use pvs_syntax::Word;

fn sign_kind(byte: u8) -> LexemeKind
    ensures { result ≡ spec.sign_kind byte }
{
    match byte {
        b'(' => LexemeKind::Open,
        b')' => LexemeKind::Close,
        b'-' => LexemeKind::Minus,
        _ => LexemeKind::Other,
    }
}

fn symbol_kind(bytes: &[u8]) -> LexemeKind
    ensures { result ≡ spec.symbol_kind bytes.now }
{
    match bytes {
        [byte] => sign_kind(*byte),
        _ => LexemeKind::Other,
    }
}

fn digit(byte: u8) -> u8
    ensures value { result ≡ spec.digit byte }
    ensures small { result ≤ 9 }
{
    if byte.is_ascii_digit() {
        byte - b'0'
    } else {
        0
    }
}

fn decimal(bytes: &[u8]) -> u32
    ensures { result ≡ spec.decimal bytes.now }
{
    if bytes.len() > 9 {
        return 0;
    }
    let mut value = 0;
    let mut rest = bytes;
    while let [byte, more @ ..] = rest {
        value = value * 10 + digit(*byte) as u32;
        rest = more;
    }
    value
}

fn kind_of(kind: TokenKind, bytes: &[u8]) -> LexemeKind
    ensures { result ≡ spec.kind_of kind bytes.now }
{
    match kind {
        TokenKind::Word => LexemeKind::Word,
        TokenKind::Bang => LexemeKind::Other,
        TokenKind::Number => LexemeKind::Number(decimal(bytes)),
        TokenKind::Quoted => LexemeKind::Quoted,
        TokenKind::Symbol => symbol_kind(bytes),
    }
}

/// Whether a keyword is one that no form of the language has.
fn is_reserved(keyword: Keyword) -> bool
    ensures { result ≡ spec.is_outside false (parser.keyword_kind keyword) }
{
    match keyword {
        Keyword::Cases
        | Keyword::Codatatype
        | Keyword::Cond
        | Keyword::Conversion
        | Keyword::Datatype
        | Keyword::Exporting
        | Keyword::From
        | Keyword::HasType
        | Keyword::Inductive
        | Keyword::Judgement
        | Keyword::Library
        | Keyword::Macro
        | Keyword::Measure
        | Keyword::Recursive
        | Keyword::SubtypeOf
        | Keyword::Table
        | Keyword::When
        | Keyword::Where
        | Keyword::With
        | Keyword::Xor => true,
        _ => false,
    }
}

/// Whether a word is a keyword that no form of the language has.
fn is_word_outside(after_nonempty: bool, bytes: &[u8]) -> bool
    ensures { result ≡ spec.is_outside after_nonempty (parser.word_kind bytes.now (keyword_of bytes.now)) }
{
    match keyword(bytes) {
        Some(keyword) => is_reserved(keyword),
        None => false,
    }
}

/// Whether a symbol of one byte is one that no form of the language has.
fn is_sign_outside(after_nonempty: bool, byte: u8) -> bool
    ensures { result ≡ spec.is_outside after_nonempty (parser.sign_kind byte) }
{
    match byte {
        b'(' | b')' | b'[' | b']' | b'{' | b'}' | b',' | b';' | b':' | b'.' | b'|' | b'&' | b'`' =>
            false,
        b'=' => after_nonempty,
        _ => true,
    }
}

fn same(a: &[u8], b: &[u8]) -> bool
    ensures { result ≡ bytes_eq a.now b.now }
{
    a == b
}

/// Whether a symbol of two bytes is one that no form of the language has.
fn is_pair_outside(after_nonempty: bool, bytes: &[u8]) -> bool
    ensures { result ≡ spec.is_outside after_nonempty (parser.pair_kind bytes.now) }
{
    !(same(bytes, b"->")
        || same(bytes, b"=>")
        || same(bytes, b"/=")
        || same(bytes, b"/\\")
        || same(bytes, b"\\/"))
}

fn is_symbol_outside(after_nonempty: bool, bytes: &[u8]) -> bool
    ensures { result ≡ spec.is_outside after_nonempty (parser.symbol_kind bytes.now) }
{
    match bytes {
        [] => true,
        [byte] => is_sign_outside(after_nonempty, *byte),
        [_, _] => is_pair_outside(after_nonempty, bytes),
        _ => false,
    }
}

fn is_outside(after_nonempty: bool, kind: TokenKind, bytes: &[u8]) -> bool
    ensures { result ≡ spec.is_outside after_nonempty (parser.kind_of false kind bytes.now) }
{
    match kind {
        TokenKind::Word => is_word_outside(after_nonempty, bytes),
        TokenKind::Bang => false,
        TokenKind::Number | TokenKind::Quoted => true,
        TokenKind::Symbol => is_symbol_outside(after_nonempty, bytes),
    }
}

/// A token of a span that begins at an offset of the text. First, whether NONEMPTY_TYPE stands
/// directly before it.
pub fn lexeme(after_nonempty: bool, offset: u32, span: &[u8], token: Token) -> Lexeme
    requires start { offset + token.start < 2 ^ 32 }
    requires end { offset + token.end < 2 ^ 32 }
    ensures { result ≡ spec.lexeme after_nonempty offset span.now token }
{
    let bytes = spelling(span, token.start, token.end);
    Lexeme {
        kind: kind_of(token.kind, bytes),
        outside: is_outside(after_nonempty, token.kind, bytes),
        word: Word {
            start: offset + token.start,
            end: offset + token.end,
            pos: token.pos,
        },
    }
}

fn is_nonempty_word(bytes: &[u8]) -> bool
    ensures { result ≡ spec.is_nonempty_type (parser.word_kind bytes.now (keyword_of bytes.now)) }
{
    match keyword(bytes) {
        Some(Keyword::NonemptyType) => true,
        _ => false,
    }
}

/// Whether a token of a span is NONEMPTY_TYPE.
pub fn is_nonempty_type(span: &[u8], token: Token) -> bool
    ensures { result ≡ spec.is_nonempty_type (spec.terminal_kind span.now token) }
{
    match token.kind {
        TokenKind::Word => is_nonempty_word(spelling(span, token.start, token.end)),
        _ => false,
    }
}
