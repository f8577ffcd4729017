//! Which theories are accepted, and why others are refused.

use super::assert_report;
use crate::status::Status;
use std::test::Fail;

#[test]
fn unknown_names(rt: HostRuntime) -> Result<(), Fail> {
    for (text, report) in [
        (
            "t: THEORY BEGIN l: LEMMA q q: bool END t",
            "theory t refused 1:26 Unknown\ntotal complete 0 incomplete 0 open 0 refused 1\n",
        ),
        (
            "t: THEORY BEGIN p: bool a: AXIOM p l: LEMMA a END t",
            "theory t refused 1:45 Unknown\ntotal complete 0 incomplete 0 open 0 refused 1\n",
        ),
        (
            "t: THEORY BEGIN p: bool l: LEMMA IF p THEN NOT r ELSE s ENDIF END t",
            "theory t refused 1:48 Unknown\ntotal complete 0 incomplete 0 open 0 refused 1\n",
        ),
        (
            "t: THEORY BEGIN p: bool l: LEMMA P END t",
            "theory t refused 1:34 Unknown\ntotal complete 0 incomplete 0 open 0 refused 1\n",
        ),
    ] {
        assert_report(&rt, rt.alloc(), text, report, Status::Unfinished)?;
    }
    Ok(())
}

/// Declarations of forms that are not built yet, and theories that have other forms.
#[test]
fn forms_that_are_not_built(rt: HostRuntime) -> Result<(), Fail> {
    let report = "theory t refused 2:1 OutOfProfile\n\
        total complete 0 incomplete 0 open 0 refused 1\n";
    for text in [
        "\nt[T: TYPE]: THEORY BEGIN END t",
        "\nt: THEORY BEGIN ASSUMING a: ASSUMPTION TRUE ENDASSUMING END t",
        "\nt: THEORY BEGIN IMPORTING t END t",
        "\nt: THEORY BEGIN T: TYPE END t",
        "\nt: THEORY BEGIN T: TYPE = bool END t",
        "\nt: THEORY BEGIN x: VAR bool END t",
        "\nt: THEORY BEGIN p: Bool END t",
        "\nt: THEORY BEGIN p: [bool -> bool] END t",
        "\nt: THEORY BEGIN p: t.bool END t",
        "\nt: THEORY BEGIN p: bool = TRUE END t",
        "\nt: THEORY BEGIN p(x: bool): bool END t",
        "\nt: THEORY BEGIN p: bool l: LEMMA p = p END t",
        "\nt: THEORY BEGIN p: bool l: LEMMA p /= p END t",
        "\nt: THEORY BEGIN p: bool l: LEMMA p IFF p END t",
        "\nt: THEORY BEGIN p: bool l: LEMMA TRUE AND (FORALL (x: bool): p) END t",
        "\nt: THEORY BEGIN p: bool l: LEMMA NOT (LET x = p IN p) END t",
        "\nt: THEORY BEGIN p: bool l: LEMMA IF p THEN p ELSE p(p) ENDIF END t",
        "\nt: THEORY BEGIN p: bool l: LEMMA IF p THEN p`1 ELSE p ENDIF END t",
        "\nt: THEORY BEGIN p: bool l: LEMMA IF (p, p) THEN p ELSE p ENDIF END t",
        "\nt: THEORY BEGIN p: bool l: LEMMA t.p END t",
        // It comes before a name that is declared again, and before one that is unknown.
        "\nt: THEORY BEGIN p, p: bool l: LEMMA q l: AXIOM q IFF q END t",
    ] {
        assert_report(&rt, rt.alloc(), text, report, Status::Unfinished)?;
    }
    Ok(())
}

/// A part in which nothing is assumed leaves the same tree as none.
#[test]
fn nothing_is_assumed(rt: HostRuntime) -> Result<(), Fail> {
    let text = "t: THEORY BEGIN ASSUMING ENDASSUMING END t";
    let report = "theory t\ntotal complete 0 incomplete 0 open 0 refused 0\n";
    assert_report(&rt, rt.alloc(), text, report, Status::Clean)
}

#[test]
fn names_that_are_declared_again(rt: HostRuntime) -> Result<(), Fail> {
    for (text, report) in [
        (
            "t: THEORY\nBEGIN\np, q: bool\nq: bool\nEND t\n",
            "theory t refused 4:1 Duplicate\ntotal complete 0 incomplete 0 open 0 refused 1\n",
        ),
        (
            "t: THEORY\nBEGIN\np: bool\nl: LEMMA p\nl: AXIOM p\nEND t\n",
            "theory t refused 5:1 Duplicate\ntotal complete 0 incomplete 0 open 0 refused 1\n",
        ),
        // The first of them, and before a name that is unknown.
        (
            "t: THEORY\nBEGIN\nl: LEMMA q\np, p: bool\nl: LEMMA p\nEND t\n",
            "theory t refused 4:4 Duplicate\ntotal complete 0 incomplete 0 open 0 refused 1\n",
        ),
        (
            "t: THEORY\nBEGIN\na: LEMMA q\nl: LEMMA TRUE\nl: LEMMA p\np, p: bool\nEND t\n",
            "theory t refused 5:1 Duplicate\ntotal complete 0 incomplete 0 open 0 refused 1\n",
        ),
    ] {
        assert_report(&rt, rt.alloc(), text, report, Status::Unfinished)?;
    }
    Ok(())
}

#[test]
fn several_theories(rt: HostRuntime) -> Result<(), Fail> {
    for (text, report, status) in [
        (
            "a: THEORY\nBEGIN\np: bool\nEND a\nb: THEORY\nBEGIN\nl: LEMMA TRUE\nEND b\n\
             (proof b.l ((axiom)))\n",
            "theory a\ntheory b\nb.l complete\ntotal complete 1 incomplete 0 open 0 refused 0\n",
            Status::Clean,
        ),
        // Each theory has names of its own.
        (
            "a: THEORY BEGIN p: bool l: LEMMA p END a b: THEORY BEGIN q: bool l: LEMMA p END b",
            "theory a\na.l open\ntheory b refused 1:75 Unknown\n\
             total complete 0 incomplete 0 open 1 refused 1\n",
            Status::Unfinished,
        ),
        // Of theories of one name only the first can be accepted.
        (
            "t: THEORY BEGIN l: LEMMA TRUE END t\nt: THEORY BEGIN m: LEMMA TRUE END t\n\
             (proof t.m ((axiom)))\n(proof t.l ((axiom)))",
            "theory t\nt.l complete\ntheory t refused 2:1 Duplicate\n\
             proof t.m refused 3:8 NoSuchFormula\n\
             total complete 1 incomplete 0 open 0 refused 2\n",
            Status::Unfinished,
        ),
        (
            "t: THEORY BEGIN l: LEMMA q END t\nt: THEORY BEGIN l: LEMMA TRUE END t\n\
             (proof t.l ((axiom)))",
            "theory t refused 1:26 Unknown\ntheory t refused 2:1 Duplicate\n\
             proof t.l refused 3:8 NoSuchFormula\n\
             total complete 0 incomplete 0 open 0 refused 3\n",
            Status::Unfinished,
        ),
        // The name of the theory comes before the names in it, and after its forms.
        (
            "t: THEORY BEGIN END t\nt: THEORY BEGIN p, p: bool END t\n\
             t: THEORY BEGIN T: TYPE END t",
            "theory t\ntheory t refused 2:1 Duplicate\ntheory t refused 3:1 OutOfProfile\n\
             total complete 0 incomplete 0 open 0 refused 2\n",
            Status::Unfinished,
        ),
    ] {
        assert_report(&rt, rt.alloc(), text, report, status)?;
    }
    Ok(())
}
