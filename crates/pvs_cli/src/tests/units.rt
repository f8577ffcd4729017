//! Units of several kinds, the places that a report names, and texts that do not parse.

use super::{COMPLETE, NOTHING, assert_bytes, assert_report, joined};
use crate::status::Status;
use std::alloc::{AllocError, Global};
use std::test::Fail;

#[test]
fn reports(rt: HostRuntime) -> Result<(), Fail> {
    for (text, report, status) in [
        ("", NOTHING, Status::Clean),
        (" \t\r\n\x0c% a comment (\"\0", NOTHING, Status::Clean),
        (
            "t:\x0cTHEORY BEGIN END t",
            "theory t\ntotal complete 0 incomplete 0 open 0 refused 0\n",
            Status::Clean,
        ),
        (
            COMPLETE,
            "theory b\nb.l complete\ntotal complete 1 incomplete 0 open 0 refused 0\n",
            Status::Clean,
        ),
        (
            "b: THEORY\nBEGIN\np, q: bool\nl: LEMMA (p AND q) IMPLIES (q AND p)\nEND b\n",
            "theory b\nb.l open\ntotal complete 0 incomplete 0 open 1 refused 0\n",
            Status::Unfinished,
        ),
        (
            "b: THEORY\nBEGIN\np, q: [bool -> bool]\nl: LEMMA (p AND q) IMPLIES (q AND p)\nEND b\n\
             (proof b.l ((if 1) (if -1) (if 1)))\n",
            "theory b refused 1:1 OutOfProfile\nproof b.l refused 6:8 NoSuchFormula\n\
             total complete 0 incomplete 0 open 0 refused 2\n",
            Status::Unfinished,
        ),
        (
            "b: THEORY\nBEGIN\np: bool\nl: LEMMA (p AND q) IMPLIES (q AND p)\nEND b\n\
             (proof b.l ((if 1) (if -1) (if 1)))\n",
            "theory b refused 4:17 Unknown\nproof b.l refused 6:8 NoSuchFormula\n\
             total complete 0 incomplete 0 open 0 refused 2\n",
            Status::Unfinished,
        ),
        (
            "b: THEORY\nBEGIN\np, q: bool\nl: LEMMA (p AND q) IMPLIES (q AND p)\nEND b\n\
             (proof b.l ((if 1)))\n",
            "theory b\nb.l open\nproof b.l refused 6:13 NotApplicable\n\
             total complete 0 incomplete 0 open 1 refused 1\n",
            Status::Unfinished,
        ),
        (
            "t: THEORY\nBEGIN\np: bool\na: AXIOM p\nl: LEMMA TRUE\nEND t\n(proof t.l ((axiom)))\n",
            "theory t\nt.a axiom\nt.l complete\ntotal complete 1 incomplete 0 open 0 refused 0\n",
            Status::Clean,
        ),
        // A constant, a formula and a theory of one name.
        (
            "p: THEORY BEGIN p: bool p: LEMMA p END p",
            "theory p\np.p open\ntotal complete 0 incomplete 0 open 1 refused 0\n",
            Status::Unfinished,
        ),
        (
            "t: theory begin p: boolean l: lEmMa if p then true else not p endif end t \
             (proof t.l ((if 1) (if 2)))",
            "theory t\nt.l complete\ntotal complete 1 incomplete 0 open 0 refused 0\n",
            Status::Clean,
        ),
        (
            "t: THEORY BEGIN p, q: bool l: LEMMA p IMPLIES q IMPLIES p END t \
             (proof t.l ((if 1) (if 1)))",
            "theory t\nt.l complete\ntotal complete 1 incomplete 0 open 0 refused 0\n",
            Status::Clean,
        ),
        (
            "b: THEORY\nBEGIN\np, q: bool;\nl: THEOREM p /\\ q => q & p;\n\
             m: CLAIM IF p THEN p ELSIF q THEN q ELSE NOT (p \\/ q) ENDIF\nx: POSTULATE p\nEND b\n\
             (proof b.l ((if 1) (if -1) (if 1)))\n",
            "theory b\nb.l complete\nb.m open\nb.x axiom\n\
             total complete 1 incomplete 0 open 1 refused 0\n",
            Status::Unfinished,
        ),
    ] {
        assert_report(&rt, rt.alloc(), text, report, status)?;
    }
    Ok(())
}

/// A column is a byte, and a line ends with LF alone.
#[test]
fn places(rt: HostRuntime) -> Result<(), Fail> {
    for (text, report) in [
        (
            "% é \" (\r\n\tt: THEORY\r\nBEGIN\r\n\tp: bool\r\n\t\tl: LEMMA\tp OR\r\tr\r\nEND t\r\n",
            "theory t refused 5:18 Unknown\ntotal complete 0 incomplete 0 open 0 refused 1\n",
        ),
        (
            "t: THEORY\r\nBEGIN\r\nEND t\r\n\x0c(proof % of t.l\r\n\t \tt.m\t((axiom)))",
            "theory t\nproof t.m refused 5:4 NoSuchFormula\n\
             total complete 0 incomplete 0 open 0 refused 1\n",
        ),
        (
            "t: THEORY\r\nBEGIN\r\nl: LEMMA FALSE\r\nEND t (proof t.l (\t% é (axiom)\r\n\r\n \t(axiom)\r\n))",
            "theory t\nt.l open\nproof t.l refused 6:3 NotApplicable\n\
             total complete 0 incomplete 0 open 1 refused 1\n",
        ),
    ] {
        assert_report(&rt, rt.alloc(), text, report, Status::Unfinished)?;
    }
    Ok(())
}

/// The line of a unit that is refused at a place with a code, and the total.
fn refused_unit(alloc: Global, fault: &str) -> Result<String, AllocError> {
    let line = joined(alloc, "unit u refused ", fault)?;
    joined(
        alloc,
        &line,
        "\ntotal complete 0 incomplete 0 open 0 refused 1\n",
    )
}

#[test]
fn texts_that_are_no_unit(rt: HostRuntime) -> Result<(), Fail> {
    for (text, fault) in [
        (b"\0".as_slice(), "1:1 BadByte"),
        (b"\xff\xfe", "1:1 BadByte"),
        (b"\"", "1:1 UnclosedQuote"),
        (b"b", "1:2 Unexpected"),
        (b"t: THEORY BEGIN\x0bEND t", "1:16 BadByte"),
        (b"t: THEORY BEGIN END T", "1:21 WrongEnd"),
        (b"t: THEORY BEGIN if: bool END t", "1:17 Unexpected"),
        (b"t: THEORY BEGIN p: bool = 1 END t", "1:27 OutOfProfile"),
        (
            b"t: THEORY BEGIN\nEND t\n(PROOF t.l ((axiom)))",
            "3:2 Unexpected",
        ),
        (
            b"t: THEORY BEGIN\nEND t\n(proof t.l ((axiom)) x)",
            "3:22 Unexpected",
        ),
    ] {
        let report = refused_unit(rt.alloc(), fault)?;
        assert_bytes(&rt, rt.alloc(), fault, text, &report, Status::Unfinished)?;
    }
    let comment = b"%\xff\0\xc3".as_slice();
    assert_bytes(
        &rt,
        rt.alloc(),
        "no UTF-8 in a comment",
        comment,
        NOTHING,
        Status::Clean,
    )
}
