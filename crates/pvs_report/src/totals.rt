//! How many formulas have each status, and how much is refused.

ghost use Rattle.std.specs.Prelude.{◌≡◌, count_by};
ghost use Rattle.pvs_report.specs.Lines.{has_status, is_complete, is_incomplete, is_open, is_refused, is_theory, totals_of};
ghost use Rattle.pvs_report.specs.Printed.{line_shown, lines_shown};

use crate::line::Line;

/// The totals of a report. Its last line has the last four.
#[derive(Clone, Copy, Debug, PartialEq, Eq)]
pub struct Totals {
    /// Accepted theories.
    pub theories: u64,

    /// Their lemmas.
    pub lemmas: u64,

    /// Their type-correctness conditions.
    pub conditions: u64,

    /// Lemmas and conditions that are complete.
    pub complete: u64,

    /// Lemmas and conditions that are proved, but rest on one that is open.
    pub incomplete: u64,

    /// Lemmas and conditions that are open.
    pub unproved: u64,

    /// Units, theories and proofs that are refused.
    pub refused: u64,
}

fn count_theories(lines: &[Line<'_>]) -> usize
    ensures { result ≡ count_by (λ l. is_theory (line_shown l)) lines.now }
{
    lines.iter().filter(|l| l.is_theory()).count()
}

fn count_with_status(lines: &[Line<'_>]) -> usize
    ensures { result ≡ count_by (λ l. has_status (line_shown l)) lines.now }
{
    lines.iter().filter(|l| l.has_status()).count()
}

fn count_complete(lines: &[Line<'_>]) -> usize
    ensures { result ≡ count_by (λ l. is_complete (line_shown l)) lines.now }
{
    lines.iter().filter(|l| l.is_complete()).count()
}

fn count_incomplete(lines: &[Line<'_>]) -> usize
    ensures { result ≡ count_by (λ l. is_incomplete (line_shown l)) lines.now }
{
    lines.iter().filter(|l| l.is_incomplete()).count()
}

fn count_open(lines: &[Line<'_>]) -> usize
    ensures { result ≡ count_by (λ l. is_open (line_shown l)) lines.now }
{
    lines.iter().filter(|l| l.is_open()).count()
}

fn count_refused(lines: &[Line<'_>]) -> usize
    ensures { result ≡ count_by (λ l. is_refused (line_shown l)) lines.now }
{
    lines.iter().filter(|l| l.is_refused()).count()
}

/// The totals of the lines of theories that have no type-correctness conditions. This takes no
/// memory.
#[tactic(auto, using(crate::proofs::LineLaws::totals_from_counts))]
pub fn count_lines(lines: &[Line<'_>]) -> Totals
    ensures { result ≡ totals_of (lines_shown lines.now) }
{
    Totals {
        theories: count_theories(lines) as u64,
        lemmas: count_with_status(lines) as u64,
        conditions: 0,
        complete: count_complete(lines) as u64,
        incomplete: count_incomplete(lines) as u64,
        unproved: count_open(lines) as u64,
        refused: count_refused(lines) as u64,
    }
}
