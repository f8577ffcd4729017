//! The report of a text.

ghost use Rattle.std.specs.Prelude.{◌≡◌, ◌≤◌, ◌^◌, ◌++◌, ◌∷◌, [], codes, length, option_to_list, IfOk, OnOk};
ghost use Rattle.std.specs.List.{All, list_any};
ghost use Rattle.std.specs.Option.{option_map};
ghost use Rattle.pvs_parser.specs.Text.{SpanIn};
ghost use Rattle.pvs_script.specs.code.Reading.{script_of};
ghost use Rattle.pvs_cli.specs.code.LemmaIndex.{word_in};
ghost use Rattle.pvs_terms.specs.Stored.{Stored};
ghost use Rattle.pvs_cli.specs.code.Shown.{outcome_shown, part_outcome_shown, part_outcomes_shown};
ghost use Rattle.pvs_theory.specs.code.Shown.{entries_shown, entry_shown};
ghost use Rattle.pvs_report.specs.Lines.{RefusedLine, bytes_of};
ghost use Rattle.pvs_report.specs.Printed.{line_shown, lines_shown, word_shown};
ghost use Rattle.pvs_theory.specs.Theories.{parts_of};
ghost use Rattle.pvs_cli.specs.Outcomes.{outcomes_of};
ghost use Rattle.pvs_cli.specs.Reporting.{IsReport, entry_lines, formula_lines, outcome_lines, part_lines, proof_line, with_total};
ghost use Rattle.pvs_cli.specs.Output.{exit_status, is_unfinished};
ghost use Rattle.pvs_cli.specs.code.Writing.{IsReportOf};

use crate::outcome::Outcome;
use crate::outcomes::{PartOutcome, outcomes, proved_formulas};
use crate::status::Status;
use pvs_base::Fault;
use pvs_parser::{ParseFault, parse_unit};
use pvs_report::{Line, LineName, LineWord, What, count_lines, put_report};
use pvs_syntax::{FormulaWord, Item};
use pvs_terms::Store;
use pvs_theory::{Entry, FormulaIndex, parts, spelling_of};
use std::alloc::{AllocError, Global};

/// What the line of a lemma says of it, where these formulas are proved.
fn lemma_word<'a>(proved: &FormulaIndex<'a, ()>, theory: &'a [u8], name: &'a [u8]) -> LineWord<'a>
    ensures { word_shown result ≡ word_in proved.now (record { theory = theory.now; formula = name.now }) }
{
    if proved.find(theory, name).is_some() {
        LineWord::CompleteWord
    } else {
        LineWord::OpenWord
    }
}

/// The line of an entry of a theory, where these formulas are proved: one of a formula, and none of
/// a constant.
fn entry_line<'a>(
    text: &'a [u8],
    proved: &FormulaIndex<'a, ()>,
    theory: &'a [u8],
    entry: &Entry,
) -> Option<Line<'a>>
    ensures { (s : Stored) → option_to_list (option_map line_shown result) ≡ entry_lines (word_in proved.now) theory.now (entry_shown s text.now entry.now).name (entry_shown s text.now entry.now).kind }
{
    let Entry::Formula(name, word, _) = entry else {
        return None;
    };
    let name = spelling_of(text, name);
    match word {
        FormulaWord::Axiom => Some(Line::FormulaLine {
            theory,
            formula: name,
            word: LineWord::AxiomWord,
        }),
        FormulaWord::Assumption => None,
        FormulaWord::Lemma => Some(Line::FormulaLine {
            theory,
            formula: name,
            word: lemma_word(proved, theory, name),
        }),
    }
}

/// Adds a line where there is one.
fn push_some<'a>(lines: &mut Vec<Line<'a>>, line: Option<Line<'a>>) -> Result<(), AllocError>
    ensures { OnOk result (lines_shown lines.new.items ≡ lines_shown lines.old.items ++ option_to_list (option_map line_shown line.entry)) }
{
    match line {
        None => Ok(()),
        Some(line) => Ok(lines.push(line)?),
    }
}

/// Adds the lines of the formulas of a theory, where these formulas are proved.
fn push_formulas<'a>(
    lines: &mut Vec<Line<'a>>,
    text: &'a [u8],
    proved: &FormulaIndex<'a, ()>,
    theory: &'a [u8],
    entries: &[Entry],
) -> Result<(), AllocError>
    ensures { (s : Stored) → OnOk result (lines_shown lines.new.items ≡ lines_shown lines.old.items ++ formula_lines (word_in proved.now) theory.now (entries_shown s text.now entries.now)) }
{
    for entry in entries {
        push_some(lines, entry_line(text, proved, theory, entry))?;
    }
    Ok(())
}

/// Adds the lines of a part of a unit with its outcome, where these formulas are proved.
fn push_part<'a>(
    lines: &mut Vec<Line<'a>>,
    text: &'a [u8],
    proved: &FormulaIndex<'a, ()>,
    outcome: &PartOutcome<'_, 'a>,
) -> Result<(), AllocError>
    ensures { (s : Stored) → OnOk result (lines_shown lines.new.items ≡ lines_shown lines.old.items ++ part_lines (word_in proved.now) (part_outcome_shown s text.now outcome.now)) }
{
    match outcome {
        PartOutcome::Accepted(theory, entries) => {
            lines.push(Line::TheoryLine(theory))?;
            push_formulas(lines, text, proved, theory, entries)
        }
        PartOutcome::Rejected(theory, fault) => {
            let refusal = Line::RefusedLine {
                what: What::TheoryOf,
                name: LineName::Simple(theory),
                fault: *fault,
            };
            push_some(lines, Some(refusal))
        }
        PartOutcome::Proof(theory, formula, outcome) => {
            push_some(lines, proof_line(theory, formula, outcome))
        }
    }
}

/// The line of a proof with its outcome: one where it is refused.
fn proof_line<'a>(theory: &'a [u8], formula: &'a [u8], outcome: &Outcome) -> Option<Line<'a>>
    ensures { option_to_list (option_map line_shown result) ≡ proof_line (record { theory = theory.now; formula = formula.now }) (outcome_shown outcome.now) }
{
    match outcome {
        Outcome::Refused(fault) => Some(Line::RefusedLine {
            what: What::ProofOf,
            name: LineName::Qualified(theory, formula),
            fault: *fault,
        }),
        Outcome::Proved | Outcome::Open => None,
    }
}

/// The lines of the parts of a unit with their outcomes.
fn outcome_lines<'a>(
    alloc: Global,
    text: &'a [u8],
    outcomes: &[PartOutcome<'_, 'a>],
) -> Result<Vec<Line<'a>>, AllocError>
    ensures { (s : Stored) → IfOk result (λ v. lines_shown v.items ≡ outcome_lines (part_outcomes_shown s text.now outcomes.now)) }
{
    let proved = proved_formulas(alloc, outcomes)?;
    let mut lines = Vec::new(alloc);
    for outcome in outcomes {
        push_part(&mut lines, text, &proved, outcome)?;
    }
    Ok(lines)
}

/// The lines of a unit with these items, whose formulas are added to a store.
fn stored_lines<'a>(
    alloc: Global,
    store: &mut Store,
    text: &'a [u8],
    items: &[Item],
) -> Result<Vec<Line<'a>>, AllocError>
    requires short { length text.now ≤ 2 ^ 20 }
    requires spans { All (SpanIn text.now) items.now }
    ensures { IfOk result (λ v. lines_shown v.items ≡ outcome_lines (outcomes_of script_of (parts_of text.now items.now))) }
{
    let parts = parts(alloc, store, text, items)?;
    let outcomes = outcomes(alloc, store, text, &parts)?;
    outcome_lines(alloc, text, &outcomes)
}

/// The lines of a unit with these items.
fn unit_lines<'a>(
    alloc: Global,
    text: &'a [u8],
    items: &[Item],
) -> Result<Vec<Line<'a>>, AllocError>
    requires short { length text.now ≤ 2 ^ 20 }
    requires spans { All (SpanIn text.now) items.now }
    ensures { IfOk result (λ v. lines_shown v.items ≡ outcome_lines (outcomes_of script_of (parts_of text.now items.now))) }
{
    let mut store = Store::new(alloc)?;
    stored_lines(alloc, &mut store, text, items)
}

/// The line of a unit that is refused.
fn unit_refusal<'a>(alloc: Global, fault: Fault) -> Result<Vec<Line<'a>>, AllocError>
    ensures { IfOk result (λ v. lines_shown v.items ≡ RefusedLine What.UnitOf (codes "u") fault ∷ []) }
{
    let mut lines = Vec::new(alloc);
    lines.push(Line::RefusedLine {
        what: What::UnitOf,
        name: LineName::Simple(b"u"),
        fault,
    })?;
    Ok(lines)
}

/// The lines of the report of a text, up to the last.
fn text_lines<'a>(alloc: Global, text: &'a [u8]) -> Result<Vec<Line<'a>>, AllocError>
    ensures { IfOk result (λ v. IsReport text.now (with_total (lines_shown v.items))) }
{
    match parse_unit(alloc, text) {
        Ok(unit) => unit_lines(alloc, text, unit.items.as_slice()),
        Err(ParseFault::At(fault)) => unit_refusal(alloc, fault),
        Err(ParseFault::Memory) => Err(AllocError),
    }
}

/// A report: its bytes, and how a run ends that wrote it.
#[derive(Drop)]
pub struct Report {
    pub bytes: Vec<u8>,
    pub status: Status,
}

/// Whether some line is of an open formula or of a refusal.
fn is_unfinished(lines: &[Line<'_>]) -> bool
    ensures { result ≡ list_any is_unfinished (lines_shown lines.now) }
{
    for line in lines {
        if line.is_open() || line.is_refused() {
            return true;
        }
    }
    false
}

/// The bytes of the report whose lines up to the last are these.
fn report_bytes(alloc: Global, lines: &[Line<'_>]) -> Result<Vec<u8>, AllocError>
    ensures { IfOk result (λ v. v.items ≡ bytes_of (with_total (lines_shown lines.now))) }
{
    let mut bytes = Vec::new(alloc);
    put_report(alloc, lines, &count_lines(lines), &mut bytes)?;
    Ok(bytes)
}

/// How a run ends that wrote a report with these lines before its last one.
#[tactic(auto, using(crate::proofs::StatusLaws::total_ends_none))]
fn end_of(lines: &[Line<'_>]) -> Status
    ensures { result ≡ exit_status (with_total (lines_shown lines.now)) }
{
    if is_unfinished(lines) {
        Status::Unfinished
    } else {
        Status::Clean
    }
}

/// The report of a text.
pub fn make_report(alloc: Global, text: &[u8]) -> Result<Report, AllocError>
    ensures { IfOk result (λ r. IsReportOf text.now r.bytes.items r.status) }
{
    let lines = text_lines(alloc, text)?;
    let bytes = report_bytes(alloc, &lines)?;
    let status = end_of(&lines);
    Ok(Report { bytes, status })
}
