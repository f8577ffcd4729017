//! Where reading an expression may begin.

use crate::terminal::Connective;

/// A part of an expression that is read as one.
#[derive(Clone, Copy, Debug, PartialEq, Eq)]
pub enum Start {
    /// Operands with connectives between them that bind no more weakly than this one.
    Chain(Connective),

    /// What stands between connectives.
    Operand,

    /// What follows the first THEN of an IF and its expression.
    Otherwise,
}
