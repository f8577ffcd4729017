//! What is read of a script so far.

use crate::tree::{ScriptTree, StepExpr};
use pvs_base::Pos;
use sqlite_items::Items;

/// A script as far as its first tokens say.
#[derive(Drop)]
pub enum State {
    /// There are no tokens yet.
    Start,
    /// Trees are open.
    Inside(Nest),
    /// The tokens are a script.
    Whole(ScriptTree),
}

/// Trees that are open, each inside the one before it.
#[derive(Drop)]
pub struct Nest {
    /// All but the innermost one.
    pub outer: Items<OpenTree>,
    pub tree: OpenTree,
    pub prefix: Prefix,
}

/// A tree whose closing parenthesis is still to come: its steps and its trees so far.
#[derive(Drop)]
pub struct OpenTree {
    pub steps: Items<StepExpr>,
    pub trees: Items<ScriptTree>,
}

/// The tokens after the last whole part of the innermost tree, which begin a step or a tree.
#[derive(Drop)]
pub enum Prefix {
    Nothing,
    /// A parenthesis at this place.
    Opened(Pos),
    /// A step without its closing parenthesis.
    Step(StepExpr),
    /// A step without its closing parenthesis, and a minus sign at this place.
    Minus(StepExpr, Pos),
}
