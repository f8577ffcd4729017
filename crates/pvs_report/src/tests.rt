//! A report of each kind of line.

use crate::{Line, LineName, LineWord, Totals, What, count_lines, put_report};
use pvs_base::{Code, Fault, Pos};
use std::test::Fail;

fn formula<'a>(formula: &'a [u8], word: LineWord<'a>) -> Line<'a> {
    Line::FormulaLine {
        theory: b"t",
        formula,
        word,
    }
}

fn refusal<'a>(what: What, name: LineName<'a>) -> Line<'a> {
    let pos = Pos { line: 3, col: 14 };
    Line::RefusedLine {
        what,
        name,
        fault: Fault {
            pos,
            code: Code::Unknown,
        },
    }
}

const REPORT: &str = "before
theory t
t.a axiom
t.b assumption
t.c complete
t.d incomplete t.e
t.e open
unit u refused 3:14 Unknown
theory s refused 3:14 Unknown
proof t.f refused 3:14 Unknown
total complete 1 incomplete 1 open 1 refused 3
";

#[test]
fn each_kind_of_line(rt: HostRuntime) -> Result<(), Fail> {
    let lines = [
        Line::TheoryLine(b"t"),
        formula(b"a", LineWord::AxiomWord),
        formula(b"b", LineWord::AssumptionWord),
        formula(b"c", LineWord::CompleteWord),
        formula(b"d", LineWord::IncompleteWord(b"t", b"e")),
        formula(b"e", LineWord::OpenWord),
        refusal(What::UnitOf, LineName::Simple(b"u")),
        refusal(What::TheoryOf, LineName::Simple(b"s")),
        refusal(What::ProofOf, LineName::Qualified(b"t", b"f")),
    ];
    let totals = count_lines(&lines);
    let counts = Totals {
        theories: 1,
        lemmas: 3,
        conditions: 0,
        complete: 1,
        incomplete: 1,
        unproved: 1,
        refused: 3,
    };
    assert_eq!(rt; totals, counts);
    let mut out = b"before\n".to_vec(rt.alloc())?;
    put_report(rt.alloc(), &lines, &totals, &mut out)?;
    assert_eq!(rt; out.as_slice(), REPORT.as_bytes());
    Ok(())
}
