//! The tree of a script.

use pvs_base::Pos;
use pvs_syntax::{Expr, Word};
use sqlite_items::Items;

/// A proof script: steps, each on the premise that the one before leaves, and then a script for
/// each premise that the last step leaves. There is at least one step.
#[derive(Drop)]
pub struct ScriptTree {
    pub steps: Items<StepExpr>,
    pub trees: Items<ScriptTree>,
}

/// A step of a proof: the word of its rule, the arguments, and the place of its opening
/// parenthesis.
#[derive(Drop)]
pub struct StepExpr {
    pub word: Word,
    pub arguments: Items<Argument>,
    pub pos: Pos,
}

/// An argument of a step.
#[derive(Drop)]
pub enum Argument {
    /// A number with or without a minus sign, and the place of its first token. A number of more
    /// than nine digits is read as 0, which no formula has.
    Signed(i64, Pos),

    /// The expression of a quoted text, and the place of the text: that of its first quote.
    QuotedExpr(Expr, Pos),

    Plain(Word),
}
