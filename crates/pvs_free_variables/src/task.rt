//! What is left to do.

ghost use Rattle.std.specs.Prelude.{◌≡◌, [], ◌∷◌, IfSome, IfNone, OnOk};
ghost use Rattle.pvs_free_variables.specs.code.Tasks.{next_first};

use pvs_phrases::Part;
use pvs_syntax::Binding;
use sqlite_items::Items;
use std::alloc::{AllocError, Global};

/// One thing that is left to do.
#[derive(Clone, Copy)]
pub(crate) enum Task<'a> {
    /// The occurrences in a term.
    Term(Part<'a>),

    /// The occurrences in a type.
    Type(Part<'a>),

    /// The occurrences in the types of the bindings after so many. The scope of each name begins
    /// after its type.
    Bindings {
        bindings: &'a Items<Binding>,
        from: usize,

        /// Whether the type of the first of them has been searched.
        is_searched: bool,
    },

    /// The scope of a name begins.
    Enter(&'a [u8]),

    /// The scope of the names of these bindings begins.
    EnterAll(&'a Items<Binding>),

    /// The scope of so many names ends.
    Leave(usize),
}

/// What is left to do.
#[derive(Drop)]
pub(crate) struct Tasks<'a> {
    pub(crate) stack: Vec<Task<'a>>,
}

impl<'a> Tasks<'a> {
    /// Nothing.
    pub(crate) fn new(alloc: Global) -> Tasks<'a>
        ensures { next_first result ≡ [] }
    {
        Tasks {
            stack: Vec::new(alloc),
        }
    }

    /// Adds what is to be done first.
    pub(crate) fn push(&mut self, task: Task<'a>) -> Result<(), AllocError>
        ensures { OnOk result (next_first self.new ≡ task.entry ∷ next_first self.old) }
    {
        self.stack.push(task)?;
        Ok(())
    }

    /// Takes what is to be done first.
    pub(crate) fn pop(&mut self) -> Option<Task<'a>>
        ensures some { IfSome result (λ t. next_first self.old ≡ t ∷ next_first self.new) }
        ensures none { IfNone result (next_first self.old ≡ []) }
    {
        self.stack.pop()
    }
}
