//! The lines of a report up to the last.

ghost use Rattle.std.specs.Prelude.{◌≡◌};
ghost use Rattle.pvs_report.specs.Lines.{has_status, is_complete, is_incomplete, is_open, is_refused, is_theory};
ghost use Rattle.pvs_report.specs.Printed.{line_shown};

use pvs_base::Fault;

/// What a line says of a formula.
#[derive(Clone, Copy)]
pub enum LineWord<'a> {
    AxiomWord,
    AssumptionWord,
    CompleteWord,

    /// The formula rests on an open one, which has these names: of its theory, and its own.
    IncompleteWord(&'a [u8], &'a [u8]),
    OpenWord,
}

/// What a refusal is of.
#[derive(Clone, Copy, Debug, PartialEq, Eq)]
pub enum What {
    UnitOf,
    TheoryOf,
    ProofOf,
}

/// A name in a refusal. Names are bytes of a text.
#[derive(Clone, Copy)]
pub enum LineName<'a> {
    /// The name of a unit or a theory.
    Simple(&'a [u8]),

    /// The name of a proof: that of its theory, a dot, and that of its formula.
    Qualified(&'a [u8], &'a [u8]),
}

/// A line of a report. Names are bytes of a text.
#[derive(Clone, Copy)]
pub enum Line<'a> {
    /// An accepted theory.
    TheoryLine(&'a [u8]),

    /// A refused unit, theory or proof, with the place and the cause.
    RefusedLine {
        what: What,
        name: LineName<'a>,
        fault: Fault,
    },

    /// A formula of an accepted theory.
    FormulaLine {
        theory: &'a [u8],
        formula: &'a [u8],
        word: LineWord<'a>,
    },
}

impl<'a> Line<'a> {
    /// Whether the line is of an accepted theory. This takes no memory.
    pub fn is_theory(&self) -> bool
        ensures { result ≡ is_theory (line_shown self.now) }
    {
        matches!(self, Line::TheoryLine(_))
    }

    /// Whether the line is of a complete formula. This takes no memory.
    pub fn is_complete(&self) -> bool
        ensures { result ≡ is_complete (line_shown self.now) }
    {
        matches!(
            self,
            Line::FormulaLine {
                word: LineWord::CompleteWord,
                ..
            }
        )
    }

    /// Whether the line is of an incomplete formula. This takes no memory.
    pub fn is_incomplete(&self) -> bool
        ensures { result ≡ is_incomplete (line_shown self.now) }
    {
        matches!(
            self,
            Line::FormulaLine {
                word: LineWord::IncompleteWord(_, _),
                ..
            }
        )
    }

    /// Whether the line is of an open formula. This takes no memory.
    pub fn is_open(&self) -> bool
        ensures { result ≡ is_open (line_shown self.now) }
    {
        matches!(
            self,
            Line::FormulaLine {
                word: LineWord::OpenWord,
                ..
            }
        )
    }

    /// Whether the line is of a refusal. This takes no memory.
    pub fn is_refused(&self) -> bool
        ensures { result ≡ is_refused (line_shown self.now) }
    {
        matches!(self, Line::RefusedLine { .. })
    }

    /// Whether the line is of a formula that has a status: complete, incomplete or open. This takes
    /// no memory.
    pub fn has_status(&self) -> bool
        ensures { result ≡ has_status (line_shown self.now) }
    {
        self.is_complete() || self.is_incomplete() || self.is_open()
    }
}
