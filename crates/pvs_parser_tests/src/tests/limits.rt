//! The limits of nesting, of lists and of calls.

use super::shown_fault;
use pvs_parser::{ParseFault, parse_unit};
use std::alloc::{AllocError, Global};
use std::test::Fail;

/// What stands before a piece that is repeated, the piece, what stands in the middle, the piece
/// that stands as often after it, and the end.
type Pieces = [&'static [u8]; 5];

fn repeated(alloc: Global, pieces: &Pieces, times: u32) -> Result<Vec<u8>, AllocError> {
    let [before, first, middle, second, end] = *pieces;
    let mut text = Vec::new(alloc);
    text.extend_from_slice(before)?;
    for _ in 0..times {
        text.extend_from_slice(first)?;
    }
    text.extend_from_slice(middle)?;
    for _ in 0..times {
        text.extend_from_slice(second)?;
    }
    text.extend_from_slice(end)?;
    Ok(text)
}

/// The first fault of a unit with so many pieces, or `ok`.
fn stop(alloc: Global, pieces: &Pieces, times: u32) -> Result<String, AllocError> {
    let text = repeated(alloc, pieces, times)?;
    match parse_unit(alloc, &text) {
        Ok(_) => format!(in alloc; "ok"),
        Err(ParseFault::At(fault)) => shown_fault(alloc, &fault),
        Err(ParseFault::Memory) => Err(AllocError),
    }
}

/// Texts, how many pieces they may have at most, and the first fault with one more.
const LIMITS: [(Pieces, u32, &str); 21] = [
    (
        [b"t: THEORY BEGIN\n", b"a, ", b"a: TYPE", b"", b"\nEND t"],
        199,
        "TooNested@2:601",
    ),
    (
        [
            b"t[",
            b"a: TYPE, ",
            b"a: TYPE",
            b"",
            b"]: THEORY BEGIN END t",
        ],
        199,
        "TooNested@1:1803",
    ),
    (
        [
            b"t: THEORY BEGIN\nIMPORTING t[",
            b"a, ",
            b"a",
            b"",
            b"]\nEND t",
        ],
        199,
        "TooNested@2:613",
    ),
    (
        [b"t: THEORY BEGIN\nf(", b"a, ", b"a", b"", b"): T\nEND t"],
        199,
        "TooNested@2:603",
    ),
    (
        [
            b"t: THEORY BEGIN\nf: T = f(",
            b"a, ",
            b"a",
            b"",
            b")\nEND t",
        ],
        199,
        "TooNested@2:610",
    ),
    (
        [b"t: THEORY BEGIN\nc: [", b"a, ", b"a", b"", b"]\nEND t"],
        199,
        "TooNested@2:605",
    ),
    (
        [
            b"t: THEORY BEGIN\nl: LEMMA LET ",
            b"a = b, ",
            b"a = b",
            b"",
            b" IN c\nEND t",
        ],
        199,
        "TooNested@2:1414",
    ),
    (
        [
            b"t: THEORY BEGIN\nl: LEMMA FORALL ",
            b"a, ",
            b"a",
            b"",
            b": c\nEND t",
        ],
        199,
        "TooNested@2:617",
    ),
    (
        [
            b"t: THEORY BEGIN\nl: LEMMA ",
            b"NOT ",
            b"a",
            b"",
            b"\nEND t",
        ],
        200,
        "TooNested@2:810",
    ),
    (
        [
            b"t: THEORY BEGIN\nl: LEMMA ",
            b"a AND ",
            b"a",
            b"",
            b"\nEND t",
        ],
        200,
        "TooNested@2:1212",
    ),
    (
        [
            b"t: THEORY BEGIN\nl: LEMMA ",
            b"a = ",
            b"a",
            b"",
            b"\nEND t",
        ],
        200,
        "TooNested@2:812",
    ),
    (
        [b"t: THEORY BEGIN\nl: LEMMA ", b"", b"a", b"(b)", b"\nEND t"],
        200,
        "TooNested@2:611",
    ),
    (
        [b"t: THEORY BEGIN\nl: LEMMA ", b"", b"a", b"`1", b"\nEND t"],
        200,
        "TooNested@2:411",
    ),
    (
        [
            b"t: THEORY BEGIN\nl: LEMMA ",
            b"FORALL a: ",
            b"b",
            b"",
            b"\nEND t",
        ],
        200,
        "TooNested@2:2010",
    ),
    (
        [
            b"t: THEORY BEGIN\nl: LEMMA ",
            b"LET a = b IN ",
            b"c",
            b"",
            b"\nEND t",
        ],
        200,
        "TooNested@2:2610",
    ),
    (
        [
            b"t: THEORY BEGIN\nl: LEMMA ",
            b"IF a THEN ",
            b"b",
            b" ELSE c ENDIF",
            b"\nEND t",
        ],
        200,
        "TooNested@2:2010",
    ),
    (
        [b"t: THEORY BEGIN\nl: LEMMA ", b"(", b"a", b")", b"\nEND t"],
        200,
        "TooNested@2:210",
    ),
    (
        [
            b"t: THEORY BEGIN\nl: LEMMA ",
            b"(a, NOT b, ",
            b"c",
            b")",
            b"\nEND t",
        ],
        199,
        "TooNested@2:2203",
    ),
    (
        [b"t: THEORY BEGIN\nc: ", b"[a, ", b"b", b"]", b"\nEND t"],
        200,
        "TooNested@2:804",
    ),
    (
        [b"t[c: ", b"[a, ", b"b", b"]", b"]: THEORY BEGIN END t"],
        199,
        "TooNested@1:802",
    ),
    (
        [b"(proof t.a ", b"(", b"", b")", b")"],
        200,
        "TooNested@1:212",
    ),
];

/// The same of marks that are cleared, and of those that stay.
const MARKS: [(Pieces, u32, &str); 10] = [
    (
        [
            b"t: THEORY BEGIN\nl: LEMMA (",
            b"a, ",
            b"a",
            b"",
            b")\nEND t",
        ],
        199,
        "TooNested@2:611",
    ),
    (
        [
            b"t: THEORY BEGIN\nl: LEMMA FORALL (",
            b"a, ",
            b"a",
            b"",
            b"): c\nEND t",
        ],
        199,
        "TooNested@2:618",
    ),
    (
        [
            b"t: THEORY BEGIN\nl: LEMMA IF a THEN b ",
            b"ELSIF c THEN d ",
            b"ELSE e ENDIF",
            b"",
            b"\nEND t",
        ],
        199,
        "TooNested@2:3007",
    ),
    (
        [b"t: THEORY BEGIN\nc: ", b"{x: ", b"T", b" | p}", b"\nEND t"],
        200,
        "TooNested@2:804",
    ),
    (
        [
            b"t: THEORY BEGIN\nl: LEMMA IF ",
            b"NOT ",
            b"a THEN ",
            b"NOT ",
            b"b ELSE c ENDIF\nEND t",
        ],
        199,
        "TooNested@2:809",
    ),
    (
        [
            b"t: THEORY BEGIN\nl: LEMMA IF a THEN ",
            b"NOT ",
            b"b ELSE ",
            b"NOT ",
            b"c ENDIF\nEND t",
        ],
        199,
        "TooNested@2:816",
    ),
    (
        [
            b"t: THEORY BEGIN\nl: LEMMA IF a THEN ",
            b"NOT ",
            b"b ELSIF ",
            b"NOT ",
            b"c THEN d ELSE e ENDIF\nEND t",
        ],
        198,
        "TooNested@2:1616",
    ),
    (
        [
            b"t: THEORY BEGIN\nl: LEMMA ",
            b"FORALL x, y: ",
            b"a",
            b"",
            b"\nEND t",
        ],
        200,
        "TooNested@2:2610",
    ),
    (
        [
            b"t: THEORY BEGIN\nl: LEMMA ",
            b"LET a = b, c = d IN ",
            b"a",
            b"",
            b"\nEND t",
        ],
        200,
        "TooNested@2:4010",
    ),
    (
        [
            b"t: THEORY BEGIN\nl: LEMMA ",
            b"NOT FORALL x, y: ",
            b"a",
            b"",
            b"\nEND t",
        ],
        199,
        "TooNested@2:3397",
    ),
];

/// The first fault of a unit with one piece more than so many, where with so many it has none.
fn stop_past(alloc: Global, pieces: &Pieces, most: u32) -> Result<String, AllocError> {
    let found = stop(alloc, pieces, most)?;
    if found.as_str() != "ok" {
        return Ok(found);
    }
    stop(alloc, pieces, most.saturating_add(1))
}

#[test]
fn limits(rt: HostRuntime) -> Result<(), Fail> {
    for (pieces, most, fault) in LIMITS {
        let found = stop_past(rt.alloc(), &pieces, most)?;
        assert_eq!(rt; found.as_str(), fault);
    }
    Ok(())
}

#[test]
fn limits_of_marks(rt: HostRuntime) -> Result<(), Fail> {
    for (pieces, most, fault) in MARKS {
        let found = stop_past(rt.alloc(), &pieces, most)?;
        assert_eq!(rt; found.as_str(), fault);
    }
    Ok(())
}

/// Texts with 200 pieces, as many as there may be, and the first fault at a token after them.
const BEHIND: [(Pieces, &str); 12] = [
    (
        [b"t: THEORY BEGIN\n", b"a, ", b"a", b"", b""],
        "TooNested@2:601",
    ),
    (
        [b"t: THEORY BEGIN\n", b"a, ", b": TYPE", b"", b""],
        "Unexpected@2:601",
    ),
    (
        [b"t: THEORY BEGIN\n", b"a, ", b"1", b"", b""],
        "OutOfProfile@2:601",
    ),
    (
        [b"t: THEORY BEGIN\n", b"a, ", b"#", b"", b""],
        "BadByte@2:601",
    ),
    (
        [b"t: THEORY BEGIN\n", b"a, ", b"", b"", b""],
        "Unexpected@2:601",
    ),
    (
        [b"t: THEORY BEGIN\nl: LEMMA ", b"(", b"NOT", b"", b""],
        "TooNested@2:210",
    ),
    (
        [b"t: THEORY BEGIN\nl: LEMMA ", b"(", b")", b"", b""],
        "Unexpected@2:210",
    ),
    (
        [b"t: THEORY BEGIN\nl: LEMMA ", b"(", b"XOR", b"", b""],
        "OutOfProfile@2:210",
    ),
    (
        [b"t: THEORY BEGIN\nl: LEMMA ", b"(", b"\"", b"", b""],
        "UnclosedQuote@2:210",
    ),
    (
        [b"t: THEORY BEGIN\nl: LEMMA ", b"(", b"a AND", b"", b""],
        "TooNested@2:212",
    ),
    (
        [b"t: THEORY BEGIN\nl: LEMMA ", b"(", b"a THEN", b"", b""],
        "Unexpected@2:212",
    ),
    (
        [b"t: THEORY BEGIN\nl: LEMMA ", b"(", b"a", b"", b""],
        "Unexpected@2:211",
    ),
];

#[test]
fn faults_behind_limits(rt: HostRuntime) -> Result<(), Fail> {
    for (pieces, fault) in BEHIND {
        let found = stop(rt.alloc(), &pieces, 200)?;
        assert_eq!(rt; found.as_str(), fault);
    }
    Ok(())
}

/// A formula of so many groups, each of 150 NOTs that nest and a comma that clears their marks.
fn nested_nots(alloc: Global, groups: u32) -> Result<Vec<u8>, AllocError> {
    let mut text = Vec::new(alloc);
    text.extend_from_slice(b"t: THEORY BEGIN\nl: LEMMA ")?;
    for _ in 0..groups {
        for _ in 0..150 {
            text.extend_from_slice(b"NOT ")?;
        }
        text.extend_from_slice(b"FORALL x, y: ")?;
    }
    text.extend_from_slice(b"a\nEND t")?;
    Ok(text)
}

/// The answer to a formula of so many groups.
fn answer_to_nots(alloc: Global, groups: u32) -> Result<&'static str, AllocError> {
    let text = nested_nots(alloc, groups)?;
    match parse_unit(alloc, &text) {
        Ok(_) => Ok("ok"),
        Err(ParseFault::At(_)) => Ok("fault"),
        Err(ParseFault::Memory) => Ok("memory"),
    }
}

/// The bound on calls is not one of the language: a text past it is a unit, for which memory runs out.
#[test]
fn nested_calls(rt: HostRuntime) -> Result<(), Fail> {
    assert_eq!(rt; answer_to_nots(rt.alloc(), 4)?, "ok");
    assert_eq!(rt; answer_to_nots(rt.alloc(), 5)?, "memory");
    Ok(())
}
