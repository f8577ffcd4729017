//! The bytes of a report.

ghost use Rattle.std.specs.Prelude.{◌≡◌, ◌++◌, ◌∷◌, [], flat_map, IfOk, OnErr, OnOk};
ghost use Rattle.pvs_report.specs.Lines.{TotalLine, bytes_of, fault_text, line_bytes, report_bytes, what_text, word_text};
ghost use Rattle.pvs_report.specs.Printed.{line_shown, lines_shown, name_shown, word_shown};

use crate::line::{Line, LineName, LineWord, What};
use crate::totals::Totals;
use itoa::Buffer;
use pvs_base::{Fault, code_name};
use std::alloc::{AllocError, Global};

/// Adds the parts at the end.
fn put(out: &mut Vec<u8>, parts: &[&[u8]]) -> Result<(), AllocError>
    ensures { OnOk result (out.new.items ≡ out.old.items ++ flat_map (λ p. p.now) parts.now) }
{
    for part in parts {
        out.extend_from_slice(part)?;
    }
    Ok(())
}

/// Adds a text between two others.
fn put_between<'a>(
    out: &mut Vec<u8>,
    before: &'a [u8],
    text: &'a [u8],
    after: &'a [u8],
) -> Result<(), AllocError>
    ensures { OnOk result (out.new.items ≡ out.old.items ++ (before.now ++ text.now ++ after.now)) }
{
    put(out, &[before, text, after])
}

fn what_text(what: What) -> &'static [u8]
    ensures { result.now ≡ what_text what }
{
    match what {
        What::UnitOf => b"unit",
        What::TheoryOf => b"theory",
        What::ProofOf => b"proof",
    }
}

/// Adds the name.
fn put_name(out: &mut Vec<u8>, name: LineName<'_>) -> Result<(), AllocError>
    ensures { OnOk result (out.new.items ≡ out.old.items ++ name_shown name.entry) }
{
    match name {
        LineName::Simple(text) => put(out, &[text]),
        LineName::Qualified(theory, formula) => put_between(out, theory, b".", formula),
    }
}

/// Adds the word.
fn put_word(out: &mut Vec<u8>, word: LineWord<'_>) -> Result<(), AllocError>
    ensures { OnOk result (out.new.items ≡ out.old.items ++ word_text (word_shown word.entry)) }
{
    match word {
        LineWord::AxiomWord => put(out, &[b"axiom"]),
        LineWord::AssumptionWord => put(out, &[b"assumption"]),
        LineWord::CompleteWord => put(out, &[b"complete"]),
        LineWord::OpenWord => put(out, &[b"open"]),
        LineWord::IncompleteWord(theory, formula) => {
            put(out, &[b"incomplete ", theory, b".", formula])
        }
    }
}

/// Adds `LINE:COLUMN Code` and a line feed.
fn put_fault(out: &mut Vec<u8>, fault: Fault) -> Result<(), AllocError>
    ensures { OnOk result (out.new.items ≡ out.old.items ++ (fault_text fault ++ 10 ∷ [])) }
{
    let mut line = Buffer::new();
    let mut col = Buffer::new();
    put(
        out,
        &[
            line.format(fault.pos.line).as_bytes(),
            b":",
            col.format(fault.pos.col).as_bytes(),
            b" ",
            code_name(fault.code).as_bytes(),
            b"\n",
        ],
    )
}

/// Adds the line, with its line feed.
fn put_line(out: &mut Vec<u8>, line: &Line<'_>) -> Result<(), AllocError>
    ensures { OnOk result (out.new.items ≡ out.old.items ++ line_bytes (line_shown line.now)) }
{
    match line {
        Line::TheoryLine(theory) => put_between(out, b"theory ", theory, b"\n"),
        Line::RefusedLine { what, name, fault } => {
            put(out, &[what_text(*what), b" "])?;
            put_name(out, *name)?;
            put(out, &[b" refused "])?;
            put_fault(out, *fault)
        }
        Line::FormulaLine {
            theory,
            formula,
            word,
        } => {
            put_between(out, theory, b".", formula)?;
            put(out, &[b" "])?;
            put_word(out, *word)?;
            put(out, &[b"\n"])
        }
    }
}

/// Adds the last line of a report.
fn put_totals(out: &mut Vec<u8>, totals: &Totals) -> Result<(), AllocError>
    ensures { OnOk result (out.new.items ≡ out.old.items ++ line_bytes (TotalLine totals.now)) }
{
    let mut complete = Buffer::new();
    let mut incomplete = Buffer::new();
    let mut unproved = Buffer::new();
    let mut refused = Buffer::new();
    put(
        out,
        &[
            b"total complete ",
            complete.format(totals.complete).as_bytes(),
            b" incomplete ",
            incomplete.format(totals.incomplete).as_bytes(),
            b" open ",
            unproved.format(totals.unproved).as_bytes(),
            b" refused ",
            refused.format(totals.refused).as_bytes(),
        ],
    )?;
    put(out, &[b"\n"])
}

/// The bytes of a report with these lines and, in its last line, these totals.
fn report_bytes(alloc: Global, lines: &[Line<'_>], totals: &Totals) -> Result<Vec<u8>, AllocError>
    ensures { IfOk result (λ v. v.items ≡ report_bytes (lines_shown lines.now) totals.now) }
{
    let mut bytes = Vec::new(alloc);
    for line in lines {
        put_line(&mut bytes, line)?;
    }
    put_totals(&mut bytes, totals)?;
    Ok(bytes)
}

/// Adds a report to `out`: these lines, and a last line with these totals. Each line ends with a
/// line feed. If memory runs out, nothing is added.
pub fn put_report(
    alloc: Global,
    lines: &[Line<'_>],
    totals: &Totals,
    out: &mut Vec<u8>,
) -> Result<(), AllocError>
    ensures ok { OnOk result (out.new.items ≡ out.old.items ++ report_bytes (lines_shown lines.now) totals.now) }
    ensures err { OnErr result (out.new.items ≡ out.old.items) }
{
    let bytes = report_bytes(alloc, lines, totals)?;
    out.extend_from_slice(&bytes)
}
