//! What is left to do of a coercion.

use pvs_subst::{Condition, Context};
use pvs_terms::Id;

/// The types above one type, itself first. A coercion lists those of the type that it starts from once.
#[derive(Debug, Drop)]
pub(crate) struct Above {
    pub of: Id,
    pub types: Vec<Id>,
}

/// A step of a coercion that is left to take.
#[derive(Debug, Drop)]
pub(crate) enum Task {
    /// To coerce a term from one type to another.
    Coerce {
        context: Context,
        term: Id,
        from: Id,
        to: Id,
    },

    /// To owe that a term satisfies the predicate of a subtype.
    Satisfy {
        context: Context,
        predicate: Id,
        term: Id,
    },

    /// To coerce the second component of a tuple of so many components, whose first is known.
    Second {
        context: Context,
        components: u32,
        term: Id,
        first: Id,
        from: Id,
        to: Id,
    },

    /// To coerce the application of a function to a variable of the domain.
    Apply {
        context: Context,
        domain: Id,
        term: Id,
        from: Id,
        to: Id,
    },
}

/// What follows a step.
#[derive(Debug, Drop)]
pub(crate) enum Next {
    /// Nothing.
    Done,

    /// A condition is owed.
    Owe(Condition),

    /// These tasks, in their order.
    One(Task),
    Two(Task, Task),
    Three(Task, Task, Task),
}
