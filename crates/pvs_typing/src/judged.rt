//! What typing answers.

use pvs_subst::Condition;
use pvs_terms::{Id, RefId};

/// What typing answers where it accepts: the type, what is owed, and what is used.
#[derive(Debug, Drop)]
pub struct Judged {
    /// The type of the term.
    pub ty: Id,

    /// The conditions that are to hold, in the order in which the rules ask for them.
    pub conditions: Vec<Condition>,

    /// The references of the names that occur, within actuals too.
    pub uses: Vec<RefId>,
}
