//! Which token of a script a token of a text is.

ghost use Rattle.std.specs.Prelude.{◌≡◌, ◌≤◌};
ghost use Rattle.std.specs.Str.{bytes_eq};
ghost use Rattle.pvs_script.specs.Tokens as spec;

use crate::lexeme::{Lexeme, Sort};
use pvs_lexer::{Token, TokenKind, spelling};

fn same(a: &[u8], b: &[u8]) -> bool
    ensures { result ≡ bytes_eq a.now b.now }
{
    a == b
}

fn word_sort(bytes: &[u8]) -> Sort
    ensures { result ≡ spec.word_sort bytes.now }
{
    if same(bytes, b"axiom") {
        Sort::Axiom
    } else if same(bytes, b"if") {
        Sort::If
    } else {
        Sort::Other
    }
}

fn sign_sort(byte: u8) -> Sort
    ensures { result ≡ spec.sign_sort byte }
{
    match byte {
        b'(' => Sort::Open,
        b')' => Sort::Close,
        b'-' => Sort::Minus,
        _ => Sort::Other,
    }
}

fn sort_of(kind: TokenKind, bytes: &[u8]) -> Sort
    ensures { result ≡ spec.sort_of kind bytes.now }
{
    match kind {
        TokenKind::Word => word_sort(bytes),
        TokenKind::Number => Sort::Number,
        TokenKind::Symbol => match bytes {
            [byte] => sign_sort(*byte),
            _ => Sort::Other,
        },
        TokenKind::Bang | TokenKind::Quoted => Sort::Other,
    }
}

fn digit(byte: u8) -> u8
    ensures value { result ≡ spec.digit byte }
    ensures small { result ≤ 9 }
{
    if byte.is_ascii_digit() {
        byte - b'0'
    } else {
        0
    }
}

fn decimal(bytes: &[u8]) -> u32
    ensures { result ≡ spec.decimal bytes.now }
{
    if bytes.len() > 9 {
        return 0;
    }
    let mut value = 0;
    let mut rest = bytes;
    while let [byte, more @ ..] = rest {
        value = value * 10 + digit(*byte) as u32;
        rest = more;
    }
    value
}

fn value_of(kind: TokenKind, bytes: &[u8]) -> u32
    ensures { result ≡ spec.value_of kind bytes.now }
{
    match kind {
        TokenKind::Number => decimal(bytes),
        TokenKind::Word | TokenKind::Symbol | TokenKind::Bang | TokenKind::Quoted => 0,
    }
}

/// A token of a span, as the grammar of scripts has it.
pub fn lexeme(span: &[u8], token: Token) -> Lexeme
    ensures { result ≡ spec.lexeme span.now token }
{
    let bytes = spelling(span, token.start, token.end);
    Lexeme {
        sort: sort_of(token.kind, bytes),
        number: value_of(token.kind, bytes),
        pos: token.pos,
    }
}
