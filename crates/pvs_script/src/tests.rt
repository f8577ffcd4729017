//! Scripts and first faults of small texts, written out by hand, and how deep a script may nest.

use crate::{Rule, Script, ScriptFault, Step, one_answer, one_script, read_script};
use pvs_base::{MAX_TEXT, Pos, code_name};
use pvs_syntax::{Proof, Word};
use std::alloc::{AllocError, Global};
use std::test::Fail;

fn shown_step(alloc: Global, step: &Step) -> Result<String, AllocError> {
    let (line, col) = (step.pos.line, step.pos.col);
    match step.rule {
        Rule::Axiom => format!(in alloc; "axiom@{line}:{col} "),
        Rule::If(n) => format!(in alloc; "if{n}@{line}:{col} "),
    }
}

fn shown(alloc: Global, script: &Script) -> Result<String, AllocError> {
    let mut out = String::new(alloc);
    out.push('<')?;
    for step in script.steps.as_slice() {
        out.push_str(&shown_step(alloc, step)?)?;
    }
    for tree in script.trees.as_slice() {
        out.push_str(&shown(alloc, tree)?)?;
    }
    out.push('>')?;
    Ok(out)
}

/// The script of a span, written out, or its fault.
fn answer(alloc: Global, text: &[u8], proof: &Proof) -> Result<String, AllocError> {
    let within = proof.start <= proof.end && proof.end as usize <= text.len();
    if text.len() > MAX_TEXT || !within || proof.pos.line > 1000 || proof.pos.col > 1000 {
        return format!(in alloc; "not read");
    }
    match read_script(alloc, text, proof) {
        Ok(script) => shown(alloc, &script),
        Err(ScriptFault::At(fault)) => {
            let (line, col) = (fault.pos.line, fault.pos.col);
            format!(in alloc; "{}@{line}:{col}", code_name(fault.code))
        }
        Err(ScriptFault::Memory) => Err(AllocError),
    }
}

fn offset(text: &str) -> u32 {
    u32::try_from(text.len()).unwrap_or(u32::MAX)
}

/// What a span is read as, that stands between two others and whose first byte has a place.
fn read(alloc: Global, parts: [&str; 3], pos: Pos) -> Result<String, AllocError> {
    let [before, span, after] = parts;
    let mut text = String::new(alloc);
    text.push_str(before)?;
    let start = offset(&text);
    text.push_str(span)?;
    let end = offset(&text);
    text.push_str(after)?;
    let word = Word {
        start: 0,
        end: 0,
        pos: Pos::FIRST,
    };
    let proof = Proof {
        theory: word,
        formula: word,
        start,
        end,
        pos,
    };
    answer(alloc, text.as_bytes(), &proof)
}

const TABLE: [(&str, &str); 34] = [
    ("((axiom))", "<axiom@1:2 >"),
    ("((if 1) (if -1) (if 1))", "<if1@1:2 if-1@1:9 if1@1:17 >"),
    (
        "( (if 007) % first\n ((axiom))\n((axiom)(if 3)((axiom))) )",
        "<if7@1:3 <axiom@2:3 ><axiom@3:2 if3@3:9 <axiom@3:16 >>>",
    ),
    (
        "((if 123456789)(if 1234567890)(if -0000000001)(if -0))",
        "<if123456789@1:2 if0@1:16 if0@1:31 if0@1:47 >",
    ),
    ("((axiom)) % after\n", "<axiom@1:2 >"),
    // Where a step or a tree is wanted.
    ("()", "OutOfProfile@1:2"),
    ("(axiom)", "OutOfProfile@1:2"),
    ("(((axiom)))", "OutOfProfile@1:3"),
    ("((axiom) axiom)", "OutOfProfile@1:10"),
    ("((axiom) ())", "OutOfProfile@1:11"),
    ("((axiom) ((axiom)) (axiom))", "OutOfProfile@1:21"),
    // Rules and their arguments.
    ("((grind))", "OutOfProfile@1:3"),
    ("((AXIOM))", "OutOfProfile@1:3"),
    ("((If 1))", "OutOfProfile@1:3"),
    ("((axiom 1))", "OutOfProfile@1:9"),
    ("((if))", "OutOfProfile@1:5"),
    ("((if x))", "OutOfProfile@1:6"),
    ("((if +1))", "OutOfProfile@1:6"),
    ("((if -x))", "OutOfProfile@1:7"),
    ("((if - -1))", "OutOfProfile@1:8"),
    ("((if 1 2))", "OutOfProfile@1:8"),
    ("(\"axiom\")", "OutOfProfile@1:2"),
    ("((axiom) v!1)", "OutOfProfile@1:10"),
    // Faults of the lexer.
    ("((axiom) $)", "BadByte@1:10"),
    ("((axiom) \"x)", "UnclosedQuote@1:10"),
    ("((x) $)", "OutOfProfile@1:3"),
    ("((axiom)) $", "BadByte@1:11"),
    // More after the script.
    ("((axiom)) x", "OutOfProfile@1:11"),
    ("((axiom))\n\t((axiom))", "OutOfProfile@2:2"),
    // The end of the span.
    ("", "OutOfProfile@1:1"),
    ("% nothing\n", "OutOfProfile@2:1"),
    ("((axiom)", "OutOfProfile@1:9"),
    ("((if ", "OutOfProfile@1:6"),
    ("((axiom) (", "OutOfProfile@1:11"),
];

#[test]
fn scripts_and_faults_of_small_texts(rt: HostRuntime) -> Result<(), Fail> {
    one_script();
    one_answer();
    for (span, want) in TABLE {
        let found = read(rt.alloc(), ["", span, ""], Pos::FIRST)?;
        assert_eq!(rt; found.as_str(), want);
    }
    Ok(())
}

/// A span inside a text, whose first byte is at line 3 and column 7.
const INSIDE: [(&str, &str); 4] = [
    ("((axiom))", "<axiom@3:8 >"),
    ("((axiom)\n((if 2)))", "<axiom@3:8 <if2@4:2 >>"),
    ("((axiom)", "OutOfProfile@3:15"),
    ("((axiom)\n", "OutOfProfile@4:1"),
];

#[test]
fn spans_inside_a_text(rt: HostRuntime) -> Result<(), Fail> {
    let pos = Pos { line: 3, col: 7 };
    for (span, want) in INSIDE {
        let found = read(rt.alloc(), ["a\nb\n(proof", span, ") $"], pos)?;
        assert_eq!(rt; found.as_str(), want);
    }
    Ok(())
}

/// What is read of so many trees, each inside the one before it.
fn nested(alloc: Global, count: u32) -> Result<String, AllocError> {
    let mut span = String::new(alloc);
    for _ in 0..count {
        span.push_str("((axiom)")?;
    }
    for _ in 0..count {
        span.push(')')?;
    }
    read(alloc, ["", &span, ""], Pos::FIRST)
}

#[test]
fn levels(rt: HostRuntime) -> Result<(), Fail> {
    let found = nested(rt.alloc(), 199)?;
    assert!(rt; found.starts_with("<axiom@1:2 <axiom@1:10 <"));
    let fault = nested(rt.alloc(), 200)?;
    assert_eq!(rt; fault.as_str(), "TooNested@1:1594");
    Ok(())
}
