//! Scripts of proofs: which are read, and what their steps do.

use super::{assert_report, joined};
use crate::status::Status;
use std::test::Fail;

#[test]
fn proofs_before_their_theories(rt: HostRuntime) -> Result<(), Fail> {
    for (text, report, status) in [
        (
            "(proof t.l ((axiom)))\nt: THEORY BEGIN l: LEMMA TRUE END t",
            "theory t\nt.l complete\ntotal complete 1 incomplete 0 open 0 refused 0\n",
            Status::Clean,
        ),
        // The line of a refused proof stands at its place, and the second proof of a lemma is
        // refused.
        (
            "(proof t.l ((if 1)))\ns: THEORY BEGIN END s\n(proof t.l ((axiom)))\n\
             t: THEORY BEGIN l: LEMMA TRUE m: LEMMA TRUE END t\n(proof t.m ((axiom)))",
            "proof t.l refused 1:13 NotApplicable\ntheory s\nproof t.l refused 3:8 NoSuchFormula\n\
             theory t\nt.l open\nt.m complete\ntotal complete 1 incomplete 0 open 1 refused 2\n",
            Status::Unfinished,
        ),
        (
            "(proof t.l ((axiom)))",
            "proof t.l refused 1:8 NoSuchFormula\ntotal complete 0 incomplete 0 open 0 refused 1\n",
            Status::Unfinished,
        ),
        // Formulas of one name in two theories.
        (
            "(proof b.l ((axiom)))\na: THEORY BEGIN l: LEMMA TRUE END a\n\
             b: THEORY BEGIN l: LEMMA TRUE END b\n(proof b.a ((axiom)))",
            "theory a\na.l open\ntheory b\nb.l complete\nproof b.a refused 4:8 NoSuchFormula\n\
             total complete 1 incomplete 0 open 1 refused 1\n",
            Status::Unfinished,
        ),
    ] {
        assert_report(&rt, rt.alloc(), text, report, status)?;
    }
    Ok(())
}

/// Scripts that are none, each of a proof that begins at line 2, column 1, with the place of its
/// fault.
#[test]
fn scripts_that_are_none(rt: HostRuntime) -> Result<(), Fail> {
    for (script, place) in [
        ("()", "2:13"),
        ("(axiom)", "2:13"),
        ("((axiom 1))", "2:20"),
        ("((AXIOM))", "2:14"),
        ("((IF 1))", "2:14"),
        ("((if))", "2:16"),
        ("((if 1 2))", "2:19"),
        ("((if +1))", "2:17"),
        ("((if \"1\"))", "2:17"),
        ("((lemma \"l\") (axiom))", "2:14"),
        ("((if 1)\n((cut \"p\")))", "3:3"),
    ] {
        let begin = joined(
            rt.alloc(),
            "t: THEORY BEGIN l: LEMMA TRUE END t\n(proof t.l ",
            script,
        )?;
        let text = joined(rt.alloc(), &begin, ")")?;
        let line = joined(rt.alloc(), "theory t\nt.l open\nproof t.l refused ", place)?;
        let report = joined(
            rt.alloc(),
            &line,
            " OutOfProfile\ntotal complete 0 incomplete 0 open 1 refused 1\n",
        )?;
        assert_report(&rt, rt.alloc(), &text, &report, Status::Unfinished)?;
    }
    // No lemma of the name comes first.
    assert_report(
        &rt,
        rt.alloc(),
        "t: THEORY BEGIN a: AXIOM TRUE END t\n(proof t.a ((rule)))\n",
        "theory t\nt.a axiom\nproof t.a refused 2:8 NoSuchFormula\n\
         total complete 0 incomplete 0 open 0 refused 1\n",
        Status::Unfinished,
    )
}

const THEORY: &str = "b: THEORY
BEGIN
p, q: bool
a: AXIOM p
l: LEMMA p OR q IMPLIES q OR p
m: LEMMA NOT p OR p
END b
";

const BOTH_OPEN: &str = "theory b\nb.a axiom\nb.l open\nb.m open\n";

const ONE_OPEN: &str = "theory b\nb.a axiom\nb.l open\nb.m complete\n";

/// Proofs after the theory, the first on line 8, with what the report has after the beginning.
#[test]
fn proofs(rt: HostRuntime) -> Result<(), Fail> {
    for (scripts, begin, end, status) in [
        (
            "(proof b.l ((if 1) (if -1) ((if 1)) ((if 2))))\n(proof b.m ((if 1) (if 1)))",
            "theory b\nb.a axiom\nb.l complete\nb.m complete\n",
            "total complete 2 incomplete 0 open 0 refused 0\n",
            Status::Clean,
        ),
        // Two branches: the second is refused, both are, and one has no script.
        (
            "(proof b.l ((if 1) (if -1) ((if 1)) ((if 1))))",
            BOTH_OPEN,
            "proof b.l refused 8:38 NotApplicable\ntotal complete 0 incomplete 0 open 2 refused 1\n",
            Status::Unfinished,
        ),
        (
            "(proof b.l ((if 1) (if -1) ((axiom)) ((axiom))))",
            BOTH_OPEN,
            "proof b.l refused 8:29 NotApplicable\ntotal complete 0 incomplete 0 open 2 refused 1\n",
            Status::Unfinished,
        ),
        (
            "(proof b.l ((if 1) (if -1) ((if 1))))",
            BOTH_OPEN,
            "proof b.l refused 8:20 NotApplicable\ntotal complete 0 incomplete 0 open 2 refused 1\n",
            Status::Unfinished,
        ),
        // A step after two premises, a step after none, and a script after none.
        (
            "(proof b.l ((if 1) (if -1) (if 1)))",
            BOTH_OPEN,
            "proof b.l refused 8:20 NotApplicable\ntotal complete 0 incomplete 0 open 2 refused 1\n",
            Status::Unfinished,
        ),
        (
            "(proof b.m ((if 1) (if 1) (axiom)))",
            BOTH_OPEN,
            "proof b.m refused 8:20 NotApplicable\ntotal complete 0 incomplete 0 open 2 refused 1\n",
            Status::Unfinished,
        ),
        (
            "(proof b.m ((if 1) (if 1) ((axiom))))",
            BOTH_OPEN,
            "proof b.m refused 8:20 NotApplicable\ntotal complete 0 incomplete 0 open 2 refused 1\n",
            Status::Unfinished,
        ),
        // Two proofs of one lemma, and the first is refused, or it is not.
        (
            "(proof b.m ((if 1) (if 1)))\n(proof b.m ((if 1) (if 1)))",
            ONE_OPEN,
            "proof b.m refused 9:8 NoSuchFormula\ntotal complete 1 incomplete 0 open 1 refused 1\n",
            Status::Unfinished,
        ),
        (
            "(proof b.m ((axiom)))\n(proof b.m ((if 1) (if 1)))",
            BOTH_OPEN,
            "proof b.m refused 8:13 NotApplicable\nproof b.m refused 9:8 NoSuchFormula\n\
             total complete 0 incomplete 0 open 2 refused 2\n",
            Status::Unfinished,
        ),
        // An axiom, a constant, names that are absent, and another theory.
        (
            "(proof b.a ((axiom)))\n(proof b.p ((if 1)))\n(proof b.k ((if 0)))\n\
             (proof b.M ((if 1) (if 1)))\n (proof c.m ((if 1) (if 1)))\n\
             (proof b.m ((if 1) (if 1)))",
            ONE_OPEN,
            "proof b.a refused 8:8 NoSuchFormula\nproof b.p refused 9:8 NoSuchFormula\n\
             proof b.k refused 10:8 NoSuchFormula\nproof b.M refused 11:8 NoSuchFormula\n\
             proof c.m refused 12:9 NoSuchFormula\n\
             total complete 1 incomplete 0 open 1 refused 5\n",
            Status::Unfinished,
        ),
    ] {
        let text = joined(rt.alloc(), THEORY, scripts)?;
        let report = joined(rt.alloc(), begin, end)?;
        assert_report(&rt, rt.alloc(), &text, &report, status)?;
    }
    Ok(())
}

#[test]
fn numbers_of_no_formula(rt: HostRuntime) -> Result<(), Fail> {
    let report = joined(
        rt.alloc(),
        BOTH_OPEN,
        "proof b.m refused 8:13 NotApplicable\ntotal complete 0 incomplete 0 open 2 refused 1\n",
    )?;
    for script in [
        "(proof b.m ((axiom)))",
        "(proof b.m ((if 2) (if 1)))",
        "(proof b.m ((if -1) (if 1)))",
        "(proof b.m ((if 0) (if 1)))",
        "(proof b.m ((if -0) (if 1)))",
        "(proof b.m ((if 4294967297) (if 1)))",
        "(proof b.m ((if 18446744073709551617) (if 1)))",
        "(proof b.m ((if -18446744073709551615) (if 1)))",
    ] {
        let text = joined(rt.alloc(), THEORY, script)?;
        assert_report(&rt, rt.alloc(), &text, &report, Status::Unfinished)?;
    }
    let text = joined(rt.alloc(), THEORY, "(proof b.m ((if 000000001) (if 01)))")?;
    let report = joined(
        rt.alloc(),
        ONE_OPEN,
        "total complete 1 incomplete 0 open 1 refused 0\n",
    )?;
    assert_report(&rt, rt.alloc(), &text, &report, Status::Unfinished)
}
