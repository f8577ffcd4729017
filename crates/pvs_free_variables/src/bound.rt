//! The names that binders have at a place.

ghost use Rattle.std.specs.Prelude.{◌≡◌, [], ◌∷◌, ◌++◌, drop, OnOk, OnErr};
ghost use Rattle.pvs_elab.specs.Desugar.{names};
ghost use Rattle.pvs_elab.specs.Formula.{is_in};
ghost use Rattle.pvs_phrases.specs.Parts.{bounds};

use crate::counts::Counts;
use pvs_lexer::spelling;
use pvs_syntax::Binding;
use sqlite_items::Items;
use std::alloc::{AllocError, Global};
use std::marker::Model;

/// The names that binders have at a place. Contracts see the list of them, the innermost first.
#[derive(Drop)]
pub(crate) struct Bound<'a> {
    names: Vec<&'a [u8]>,
    counts: Counts<'a>,
}

impl<'a> Model for Bound<'a> {
    ghost use Rattle.std.specs.Prelude.{◌≡◌, List, ℕ};
    ghost use Rattle.pvs_terms.specs.Tree.{Text};
    ghost use Rattle.pvs_free_variables.specs.code.Binders.{innermost_first};
    ghost use Rattle.pvs_free_variables.specs.code.Counts.{count_of, times};

    ghost Value = { List (List ℕ) };

    ghost view = { λ b. innermost_first b.names.items };

    ghost invariant = { λ b. (x : Text) → count_of b.counts x ≡ times x (innermost_first b.names.items) };
}

impl<'a> Bound<'a> {
    /// No name.
    pub(crate) fn new(alloc: Global) -> Bound<'a>
        ensures { result ≡ [] }
    {
        Bound {
            names: Vec::new(alloc),
            counts: Counts::new(alloc),
        }
    }

    /// Whether a binder has this name. This takes no memory.
    pub(crate) fn contains(&self, name: &[u8]) -> bool
        ensures { result ≡ is_in name.now self.now }
    {
        self.counts.count(name) > 0
    }

    /// Enters the scope of a name. After a refusal the names are as before.
    pub(crate) fn enter(&mut self, name: &'a [u8]) -> Result<(), AllocError>
        ensures ok { OnOk result (self.new ≡ name.now ∷ self.old) }
        ensures err { OnErr result (self.new ≡ self.old) }
    {
        self.counts.add(name)?;
        match self.names.push(name) {
            Ok(()) => Ok(()),
            Err(_) => {
                self.counts.remove(name);
                Err(AllocError)
            }
        }
    }

    /// Enters the scope of these variables.
    pub(crate) fn enter_all(
        &mut self,
        text: &'a [u8],
        bindings: &'a Items<Binding>,
    ) -> Result<(), AllocError>
        ensures { OnOk result (self.new ≡ names (bounds text.now bindings.now) ++ self.old) }
    {
        let mut left = bindings.len();
        while left > 0 {
            left -= 1;
            let word = bindings.as_slice()[left].word;
            self.enter(spelling(text, word.start, word.end))?;
        }
        Ok(())
    }

    /// Leaves the scope of the innermost name.
    fn leave_one(&mut self)
        ensures { self.new ≡ drop 1 self.old }
    {
        if let Some(name) = self.names.pop() {
            self.counts.remove(name);
        }
    }

    /// Leaves the scopes of so many names.
    pub(crate) fn leave(&mut self, count: usize)
        ensures { self.new ≡ drop count self.old }
    {
        for _ in 0..count {
            self.leave_one();
        }
    }
}
