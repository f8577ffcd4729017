//! The tokens of small texts, as they are written out by hand.

ghost use Rattle.std.specs.Prelude.{◌≤◌, ◌^◌, length};

use crate::{Keyword, Lexer, TokenKind, keyword, spelling};
use pvs_base::{Pos, code_name};
use std::alloc::{AllocError, Global};
use std::test::Fail;

fn letter(kind: TokenKind) -> char {
    match kind {
        TokenKind::Word => 'w',
        TokenKind::Bang => 'b',
        TokenKind::Number => 'n',
        TokenKind::Quoted => 'q',
        TokenKind::Symbol => 's',
    }
}

/// What the next call answers: a token's kind, span and place, or a fault and its place.
fn answer(alloc: Global, lexer: &mut Lexer<'_>) -> Result<Option<String>, AllocError> {
    match lexer.next() {
        None => Ok(None),
        Some(Ok(token)) => {
            let (kind, pos) = (letter(token.kind), token.pos);
            let text = format!(in alloc;
                "{kind}{}-{}@{}:{} ",
                token.start, token.end, pos.line, pos.col
            )?;
            Ok(Some(text))
        }
        Some(Err(fault)) => {
            let (name, pos) = (code_name(fault.code), fault.pos);
            Ok(Some(format!(in alloc; "{name}@{}:{} ", pos.line, pos.col)?))
        }
    }
}

/// All answers up to the first None, and `.`; then whether the call after it answers None too.
fn lexed(alloc: Global, text: &[u8]) -> Result<String, AllocError>
    requires { length text.now ≤ 2 ^ 20 }
{
    let mut out = String::new(alloc);
    let mut lexer = Lexer::new(text, Pos::FIRST);
    for _ in 0..1000u32 {
        let Some(text) = answer(alloc, &mut lexer)? else {
            break;
        };
        out.push_str(&text)?;
    }
    out.push_str(if lexer.next().is_none() { "." } else { "!" })?;
    Ok(out)
}

const TABLE: [(&[u8], &str); 28] = [
    (b"", "."),
    (b"a?_9 Z", "w0-4@1:1 w5-6@1:6 ."),
    (b"007a", "n0-3@1:1 w3-4@1:4 ."),
    (b"\"a\nb\"c", "q0-5@1:1 w5-6@2:3 ."),
    (b"\"\"\"", "q0-2@1:1 UnclosedQuote@1:3 ."),
    (b"x \"ab", "w0-1@1:1 UnclosedQuote@1:3 ."),
    (b"v!1 s!12", "b0-3@1:1 b4-8@1:5 ."),
    (b"v !1", "w0-1@1:1 BadByte@1:3 ."),
    (b"v!0", "w0-1@1:1 BadByte@1:2 ."),
    (b"v!1234567890", "b0-11@1:1 n11-12@1:12 ."),
    (b"V!1", "w0-1@1:1 BadByte@1:2 ."),
    (b"vs!1", "w0-2@1:1 BadByte@1:3 ."),
    (b"v!", "w0-1@1:1 BadByte@1:2 ."),
    (
        b"< <= <=> = => > >=",
        "s0-1@1:1 s2-4@1:3 s5-8@1:6 s9-10@1:10 s11-13@1:12 s14-15@1:15 s16-18@1:17 .",
    ),
    (b"/ /= /\\ \\/", "s0-1@1:1 s2-4@1:3 s5-7@1:6 s8-10@1:9 ."),
    (
        b"- -> : :: :=",
        "s0-1@1:1 s2-4@1:3 s5-6@1:6 s7-9@1:8 s10-12@1:11 .",
    ),
    (
        b"( (# (: [ [#",
        "s0-1@1:1 s2-4@1:3 s5-7@1:6 s8-9@1:9 s10-12@1:11 .",
    ),
    (
        b") #) :) ] #]",
        "s0-1@1:1 s2-4@1:3 s5-7@1:6 s8-9@1:9 s10-12@1:11 .",
    ),
    (b"{ {{ }}", "s0-1@1:1 s2-4@1:3 s5-6@1:6 s6-7@1:7 ."),
    (
        b",;.|&+*^`",
        "s0-1@1:1 s1-2@1:2 s2-3@1:3 s3-4@1:4 s4-5@1:5 s5-6@1:6 s6-7@1:7 s7-8@1:8 s8-9@1:9 .",
    ),
    (b"<==>=>", "s0-2@1:1 s2-4@1:3 s4-6@1:5 ."),
    (b"(#)", "s0-2@1:1 s2-3@1:3 ."),
    (b"a#", "w0-1@1:1 BadByte@1:2 ."),
    (b"a%b \xff\n c% d", "w0-1@1:1 w7-8@2:2 ."),
    (b"%%\n%\n\na", "w6-7@4:1 ."),
    (b"a\r\n\x0c\tb", "w0-1@1:1 w5-6@2:3 ."),
    (
        b"\"\xc3\xa9\" a \xc3\xa9",
        "q0-4@1:1 w5-6@1:6 BadByte@1:8 .",
    ),
    (b"a\x0bb", "w0-1@1:1 BadByte@1:2 ."),
];

#[test]
fn tokens_of_small_texts(rt: HostRuntime) -> Result<(), Fail> {
    for (text, want) in TABLE {
        assert!(rt; text.len() <= 1 << 20);
        let found = lexed(rt.alloc(), text)?;
        assert_eq!(rt; found.as_str(), want);
    }
    Ok(())
}

#[test]
fn words_and_spellings(rt: HostRuntime) {
    assert!(rt; keyword(b"theory") == Some(Keyword::Theory));
    assert!(rt; keyword(b"NonEmpty_Type") == Some(Keyword::NonemptyType));
    assert!(rt; keyword(b"XOR") == Some(Keyword::Xor));
    assert!(rt; keyword(b"proof").is_none());
    assert!(rt; spelling(b"abcde", 1, 3) == b"bc".as_slice());
    assert!(rt; spelling(b"abcde", 3, 9) == b"de".as_slice());
    assert!(rt; spelling(b"abcde", 3, 1).is_empty());
}
