//! The tree of a script.

use pvs_base::Pos;
use sqlite_items::Items;

/// A rule with its arguments.
#[derive(Clone, Copy, Debug, PartialEq, Eq)]
pub enum Rule {
    Axiom,

    /// The number of the formula: -1, -2, .. for antecedents and 1, 2, .. for consequents.
    If(i64),
}

/// A step of a proof, and the place of its opening parenthesis.
#[derive(Clone, Copy, Debug, PartialEq, Eq)]
pub struct Step {
    pub rule: Rule,
    pub pos: Pos,
}

/// A proof script: steps, each on the premise that the one before leaves, and then a script for
/// each premise that the last step leaves.
#[derive(Drop)]
pub struct Script {
    pub steps: Items<Step>,
    pub trees: Items<Script>,
}
