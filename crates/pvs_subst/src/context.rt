//! Contexts, and conditions in them.

use pvs_terms::Id;
use sqlite_items::Items;

/// One item of a context: a bound variable with its type, or a hypothesis.
#[derive(Clone, Copy, Debug, PartialEq, Eq)]
pub enum Assumed {
    /// A variable of this type.
    Bind(Id),
    /// A formula that is assumed.
    Hyp(Id),
}

/// What is bound and assumed at a place, the innermost first. Each item stands in the context of
/// those after it, so that its index 0 is the variable of the first `Bind` after it.
#[derive(Debug, Drop)]
pub struct Context {
    pub items: Items<Assumed>,
}

/// A formula that is to hold in a context.
#[derive(Debug, Drop)]
pub struct Condition {
    pub context: Context,
    pub goal: Id,
}
