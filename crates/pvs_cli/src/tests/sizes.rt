//! Texts as long and as deep as they may be, and past that.

use super::{NOTHING, assert_report, outcome};
use crate::status::Status;
use std::alloc::{AllocError, Global};
use std::str::from_utf8;
use std::test::Fail;

const PARENTHESES: &str = "unit u refused 1:2 Unexpected\n\
    total complete 0 incomplete 0 open 0 refused 1\n";

const TOO_NESTED: &str = "unit u refused 1:234 TooNested\n\
    total complete 0 incomplete 0 open 0 refused 1\n";

const TOO_MANY_MARKS: &str = "unit u refused 1:834 TooNested\n\
    total complete 0 incomplete 0 open 0 refused 1\n";

const TOO_LONG_CHAIN: &str = "unit u refused 1:1236 TooNested\n\
    total complete 0 incomplete 0 open 0 refused 1\n";

const TOO_LARGE: &str = "theory t refused 1:97691 TooLarge\n\
    total complete 0 incomplete 0 open 0 refused 1\n";

const OPEN: &str = "theory t\nt.l open\ntotal complete 0 incomplete 0 open 1 refused 0\n";

const TOO_LONG: &str = "unit u refused 1:1 TextTooLong\n\
    total complete 0 incomplete 0 open 0 refused 1\n";

#[test]
fn long_texts(rt: HostRuntime) -> Result<(), Fail> {
    for (byte, len, report, status) in [
        (b' ', 1 << 20, NOTHING, Status::Clean),
        (b' ', (1 << 20) + 1, TOO_LONG, Status::Unfinished),
        (b' ', (1 << 20) + 4096, TOO_LONG, Status::Unfinished),
        (b'(', 1 << 20, PARENTHESES, Status::Unfinished),
    ] {
        let text = vec![in rt.alloc(); byte; len]?;
        let went = outcome(rt.alloc(), &["check"], &text, 4096, None, 4096, None)?;
        let written = from_utf8(&went.written).unwrap_or("no text");
        assert_eq!(rt; written, report, "of {len} bytes {byte}");
        assert_eq!(rt; went.status, status, "of {len} bytes {byte}");
    }
    Ok(())
}

/// A theory that nests nearly as deep as a text may, with a list as long as one may be.
fn deep_and_wide(alloc: Global) -> Result<String, AllocError> {
    let mut theory = String::from_str(alloc, "t: THEORY BEGIN f: [T")?;
    for _ in 0..199 {
        theory.push_str(", T")?;
    }
    theory.push_str(" -> bool] l: LEMMA ")?;
    for _ in 0..199 {
        theory.push_str("(")?;
    }
    theory.push_str("f")?;
    for _ in 0..199 {
        theory.push_str(")")?;
    }
    theory.push_str("\nEND t\n")?;
    Ok(theory)
}

#[test]
fn large_units(rt: HostRuntime) -> Result<(), Fail> {
    let theory = deep_and_wide(rt.alloc())?;
    let mut text = String::new(rt.alloc());
    for _ in 0..960 {
        text.push_str(&theory)?;
    }
    assert!(rt; text.len() > 1_000_000 && text.len() <= 1 << 20);
    let room = 1 << 20;
    let went = outcome(
        rt.alloc(),
        &["check"],
        text.as_bytes(),
        65_536,
        None,
        room,
        None,
    )?;
    let written = from_utf8(&went.written).unwrap_or("no text");
    let total =
        "theory t refused 1919:1 OutOfProfile\ntotal complete 0 incomplete 0 open 0 refused 960\n";
    assert!(rt; written.ends_with(total));
    assert_eq!(rt; went.status, Status::Unfinished);
    Ok(())
}

/// A theory whose lemma is p, with so many openings before it and as many closings after it. The
/// lemma begins in column 34.
fn nested(alloc: Global, open: &str, close: &str, depth: usize) -> Result<String, AllocError> {
    let mut text = String::from_str(alloc, "t: THEORY BEGIN p: bool l: LEMMA ")?;
    for _ in 0..depth {
        text.push_str(open)?;
    }
    text.push_str("p")?;
    for _ in 0..depth {
        text.push_str(close)?;
    }
    text.push_str(" END t")?;
    Ok(text)
}

#[test]
fn nesting(rt: HostRuntime) -> Result<(), Fail> {
    for (before, after, depth, report) in [
        ("(", ")", 200, OPEN),
        ("(", ")", 201, TOO_NESTED),
        // The trees of these are as deep as those of a text may be.
        ("NOT ", "", 200, OPEN),
        ("NOT ", "", 201, TOO_MANY_MARKS),
        ("p AND ", "", 200, OPEN),
        ("p AND ", "", 201, TOO_LONG_CHAIN),
    ] {
        let text = nested(rt.alloc(), before, after, depth)?;
        assert_report(&rt, rt.alloc(), &text, report, Status::Unfinished)?;
    }
    Ok(())
}

/// A conjunction of one operand, so many times.
fn conjunction(alloc: Global, operand: &str, width: usize) -> Result<String, AllocError> {
    let mut text = String::from_str(alloc, "(")?;
    for _ in 1..width {
        text.push_str(operand)?;
        text.push_str("&")?;
    }
    text.push_str(operand)?;
    text.push_str(")")?;
    Ok(text)
}

/// A theory whose lemma is a conjunction of conjunctions, four deep, and so has the fourth power of
/// `width` operands. A tree of n operands has 3 n - 2 nodes.
fn conjunctions(alloc: Global, width: usize) -> Result<String, AllocError> {
    let mut formula = String::from_str(alloc, "p")?;
    for _ in 0..4 {
        formula = conjunction(alloc, &formula, width)?;
    }
    let mut text = String::from_str(alloc, "t: THEORY BEGIN p: bool l: LEMMA ")?;
    text.push_str(&formula)?;
    text.push_str(" END t")?;
    Ok(text)
}

#[test]
fn large_formulas(rt: HostRuntime) -> Result<(), Fail> {
    for (width, report) in [
        (24, OPEN),
        // The last 22 of the 25 conjunctions make a tree of more than 1,000,000 nodes; the last 21
        // do not.
        (25, TOO_LARGE),
    ] {
        let text = conjunctions(rt.alloc(), width)?;
        let went = outcome(
            rt.alloc(),
            &["check"],
            text.as_bytes(),
            65_536,
            None,
            4096,
            None,
        )?;
        let written = from_utf8(&went.written).unwrap_or("no text");
        assert_eq!(rt; written, report, "of conjunctions of {width}");
        assert_eq!(rt;
            went.status,
            Status::Unfinished,
            "of conjunctions of {width}"
        );
    }
    Ok(())
}
