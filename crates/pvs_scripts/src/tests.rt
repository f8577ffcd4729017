//! Scripts and first faults of small texts, written out by hand, and how deep a script may nest.

use crate::{Argument, ScriptTree, StepExpr, one_answer, one_script, parse_script};
use pvs_base::{MAX_TEXT, Pos, code_name};
use pvs_parser::ParseFault;
use pvs_syntax::{Expr, InfixWord, Proof, Word};
use std::alloc::{AllocError, Global};
use std::test::Fail;

/// An expression of few forms, with the places of its tokens.
fn put_expr(out: &mut String, alloc: Global, text: &str, expr: &Expr) -> Result<(), AllocError> {
    match expr {
        Expr::NameTerm(name) => put_word(out, alloc, text, name.word),
        Expr::Infix(InfixWord::And, a, b) => {
            put_expr(out, alloc, text, a.get())?;
            out.push_str(" AND ")?;
            put_expr(out, alloc, text, b.get())
        }
        Expr::Paren(a, pos) => {
            let (line, col) = (pos.line, pos.col);
            out.push_str(&format!(in alloc; "[{line}:{col} ")?)?;
            put_expr(out, alloc, text, a.get())?;
            out.push(']')
        }
        _ => out.push('?'),
    }
}

fn put_word(out: &mut String, alloc: Global, text: &str, word: Word) -> Result<(), AllocError> {
    let (line, col) = (word.pos.line, word.pos.col);
    let bytes = pvs_lexer::spelling(text.as_bytes(), word.start, word.end);
    for byte in bytes {
        out.push(char::from(*byte))?;
    }
    out.push_str(&format!(in alloc; "@{line}:{col}")?)
}

fn put_argument(
    out: &mut String,
    alloc: Global,
    text: &str,
    argument: &Argument,
) -> Result<(), AllocError> {
    out.push(' ')?;
    match argument {
        Argument::Signed(number, pos) => {
            let (line, col) = (pos.line, pos.col);
            out.push_str(&format!(in alloc; "{number}@{line}:{col}")?)
        }
        Argument::QuotedExpr(expr, pos) => {
            let (line, col) = (pos.line, pos.col);
            out.push_str(&format!(in alloc; "@{line}:{col}\"")?)?;
            put_expr(out, alloc, text, expr)?;
            out.push('"')
        }
        Argument::Plain(word) => put_word(out, alloc, text, *word),
    }
}

fn put_step(
    out: &mut String,
    alloc: Global,
    text: &str,
    step: &StepExpr,
) -> Result<(), AllocError> {
    let (line, col) = (step.pos.line, step.pos.col);
    out.push_str(&format!(in alloc; "({line}:{col} ")?)?;
    put_word(out, alloc, text, step.word)?;
    for argument in step.arguments.as_slice() {
        put_argument(out, alloc, text, argument)?;
    }
    out.push(')')
}

fn put_tree(
    out: &mut String,
    alloc: Global,
    text: &str,
    tree: &ScriptTree,
) -> Result<(), AllocError> {
    out.push('<')?;
    for step in tree.steps.as_slice() {
        put_step(out, alloc, text, step)?;
    }
    for tree in tree.trees.as_slice() {
        put_tree(out, alloc, text, tree)?;
    }
    out.push('>')
}

/// The script of a span, written out, or its fault.
fn answer(alloc: Global, text: &str, proof: &Proof) -> Result<String, AllocError> {
    let within = proof.start <= proof.end && proof.end as usize <= text.len();
    if text.len() > MAX_TEXT || !within || proof.pos.line > 1000 || proof.pos.col > 1000 {
        return format!(in alloc; "not read");
    }
    match parse_script(alloc, text.as_bytes(), proof) {
        Ok(tree) => {
            let mut out = String::new(alloc);
            put_tree(&mut out, alloc, text, &tree)?;
            Ok(out)
        }
        Err(ParseFault::At(fault)) => {
            let (line, col) = (fault.pos.line, fault.pos.col);
            format!(in alloc; "{}@{line}:{col}", code_name(fault.code))
        }
        Err(ParseFault::Memory) => Err(AllocError),
    }
}

fn offset(text: &str) -> u32 {
    u32::try_from(text.len()).unwrap_or(u32::MAX)
}

/// What a span is read as, that stands between two others and whose first byte has a place.
fn read(alloc: Global, parts: [&str; 3], pos: Pos) -> Result<String, AllocError> {
    let [before, span, after] = parts;
    let mut text = String::new(alloc);
    text.push_str(before)?;
    let start = offset(&text);
    text.push_str(span)?;
    let end = offset(&text);
    text.push_str(after)?;
    let word = Word {
        start: 0,
        end: 0,
        pos: Pos::FIRST,
    };
    let proof = Proof {
        theory: word,
        formula: word,
        start,
        end,
        pos,
    };
    answer(alloc, &text, &proof)
}

const TABLE: [(&str, &str); 52] = [
    ("((axiom))", "<(1:2 axiom@1:3)>"),
    (
        "((if 1) (if -1) (AND))",
        "<(1:2 if@1:3 1@1:6)(1:9 if@1:10 -1@1:13)(1:17 AND@1:18)>",
    ),
    (
        "( (a 007) % first\n ((b))\n((c)(d 3)((e))) )",
        "<(1:3 a@1:4 7@1:6)<(2:3 b@2:4)><(3:2 c@3:3)(3:5 d@3:6 3@3:8)<(3:11 e@3:12)>>>",
    ),
    (
        "((if 123456789 1234567890 - 0000000001 -0))",
        "<(1:2 if@1:3 123456789@1:6 0@1:16 0@1:27 0@1:40)>",
    ),
    (
        "((replace - 1 2 rl))",
        "<(1:2 replace@1:3 -1@1:11 2@1:15 rl@1:17)>",
    ),
    // Quoted texts.
    (
        "((cut \"p & (q)\") (inst -1 \"s!1\"))",
        "<(1:2 cut@1:3 @1:7\"p@1:8 AND [1:12 q@1:13]\")(1:18 inst@1:19 -1@1:24 @1:27\"s!1@1:28\")>",
    ),
    (
        "((cut \"a\nAND\n b\"))",
        "<(1:2 cut@1:3 @1:7\"a@1:8 AND b@3:2\")>",
    ),
    ("((cut \"\"))", "Unexpected@1:8"),
    ("((cut \"p q\"))", "Unexpected@1:10"),
    ("((cut \"p AND\"))", "Unexpected@1:13"),
    ("((cut \"p AND\n\"))", "Unexpected@2:1"),
    ("((cut \"p $ q\") $)", "BadByte@1:10"),
    ("((cut \"p = 1\"))", "OutOfProfile@1:12"),
    ("((cut \"p <= q\"))", "OutOfProfile@1:10"),
    ("((cut \"p q\") axiom)", "Unexpected@1:10"),
    ("((cut \"p\") axiom \"q r\")", "Unexpected@1:12"),
    ("((cut \"p\" - \"q r\"))", "OutOfProfile@1:13"),
    // Where a step or a tree is wanted.
    ("()", "Unexpected@1:2"),
    ("(axiom)", "Unexpected@1:2"),
    ("(((axiom)))", "Unexpected@1:3"),
    ("((axiom) axiom)", "Unexpected@1:10"),
    ("((axiom) ())", "Unexpected@1:11"),
    ("((axiom) ((axiom)) (axiom))", "Unexpected@1:21"),
    ("(1)", "OutOfProfile@1:2"),
    ("((axiom) CASES)", "OutOfProfile@1:10"),
    ("((axiom) 7)", "OutOfProfile@1:10"),
    ("((axiom) v!1)", "Unexpected@1:10"),
    ("(\"axiom\")", "OutOfProfile@1:2"),
    // Words and arguments of steps.
    ("((cases FROM))", "<(1:2 cases@1:3 FROM@1:9)>"),
    ("((v!1))", "Unexpected@1:3"),
    ("((-1))", "OutOfProfile@1:3"),
    ("((1))", "OutOfProfile@1:3"),
    ("((\"p\"))", "OutOfProfile@1:3"),
    ("((if +1))", "OutOfProfile@1:6"),
    ("((if -x))", "Unexpected@1:7"),
    ("((if - - 1))", "OutOfProfile@1:8"),
    ("((if s!1))", "Unexpected@1:6"),
    ("((if =))", "Unexpected@1:6"),
    ("((if a = 1))", "Unexpected@1:8"),
    ("((if nonempty_Type = 1))", "OutOfProfile@1:20"),
    ("((if NONEMPTY_TYPE) = 1)", "Unexpected@1:21"),
    ("((if a.b))", "Unexpected@1:7"),
    ("((if a (b)))", "Unexpected@1:8"),
    // Faults of the lexer.
    ("((axiom) $)", "BadByte@1:10"),
    ("((axiom) \"x)", "UnclosedQuote@1:10"),
    ("((1) $)", "OutOfProfile@1:3"),
    ("((axiom)) $", "BadByte@1:11"),
    // More after the script.
    ("((axiom)) x", "Unexpected@1:11"),
    ("((axiom))\n\t((axiom))", "Unexpected@2:2"),
    // The end of the span.
    ("", "Unexpected@1:1"),
    ("% nothing\n", "Unexpected@2:1"),
    ("((if ", "Unexpected@1:6"),
];

#[test]
fn scripts_and_faults_of_small_texts(rt: HostRuntime) -> Result<(), Fail> {
    one_script();
    one_answer();
    for (span, want) in TABLE {
        let found = read(rt.alloc(), ["", span, ""], Pos::FIRST)?;
        assert_eq!(rt; found.as_str(), want);
    }
    Ok(())
}

/// A span inside a text, whose first byte is at line 3 and column 7.
const INSIDE: [(&str, &str); 4] = [
    ("((axiom))", "<(3:8 axiom@3:9)>"),
    (
        "((cut \"p\nAND q\")\n((if 2)))",
        "<(3:8 cut@3:9 @3:13\"p@3:14 AND q@4:5\")<(5:2 if@5:3 2@5:6)>>",
    ),
    ("((cut \"p AND", "UnclosedQuote@3:13"),
    ("((axiom)\n", "Unexpected@4:1"),
];

#[test]
fn spans_inside_a_text(rt: HostRuntime) -> Result<(), Fail> {
    let pos = Pos { line: 3, col: 7 };
    for (span, want) in INSIDE {
        let found = read(rt.alloc(), ["a\nb\n(proof", span, ") $"], pos)?;
        assert_eq!(rt; found.as_str(), want);
    }
    Ok(())
}

/// What is read of so many trees, each inside the one before it.
fn nested(alloc: Global, count: u32) -> Result<String, AllocError> {
    let mut span = String::new(alloc);
    for _ in 0..count {
        span.push_str("((axiom)")?;
    }
    for _ in 0..count {
        span.push(')')?;
    }
    read(alloc, ["", &span, ""], Pos::FIRST)
}

#[test]
fn levels(rt: HostRuntime) -> Result<(), Fail> {
    let found = nested(rt.alloc(), 199)?;
    assert!(rt; found.starts_with("<(1:2 axiom@1:3)<(1:10 axiom@1:11)<"));
    let fault = nested(rt.alloc(), 200)?;
    assert_eq!(rt; fault.as_str(), "TooNested@1:1594");
    Ok(())
}

/// A script whose only argument is so many parentheses, quoted.
fn quoted(alloc: Global, count: u32) -> Result<String, AllocError> {
    let mut span = String::new(alloc);
    span.push_str("((cut \"")?;
    for _ in 0..count {
        span.push('(')?;
    }
    span.push('p')?;
    for _ in 0..count {
        span.push(')')?;
    }
    span.push_str("\"))")?;
    read(alloc, ["", &span, ""], Pos::FIRST)
}

#[test]
fn levels_inside_quotes_count_anew(rt: HostRuntime) -> Result<(), Fail> {
    let found = quoted(rt.alloc(), 200)?;
    assert!(rt; found.starts_with("<(1:2 cut@1:3 @1:7\"[1:8 [1:9 "));
    let fault = quoted(rt.alloc(), 201)?;
    assert_eq!(rt; fault.as_str(), "TooNested@1:208");
    Ok(())
}
