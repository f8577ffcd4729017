//! Names by their texts.

ghost use Rattle.std.specs.Prelude.{◌≡◌, ℕ, List, [], Some, OnOk, cond, bytes_eq};
ghost use Rattle.pvs_scope.specs.code.Tables.{name_of};

use indexmap::IndexMap;
use pvs_terms::Name;
use std::alloc::{AllocError, Global};
use std::marker::Model;

/// Names by their texts. Contracts see the list of texts with their names.
#[derive(Drop)]
pub(crate) struct Texts {
    names: IndexMap<Vec<u8>, Name>,
}

impl Model for Texts {
    ghost use Rattle.std.specs.Prelude.{List, ℕ, map};

    ghost Value = { List (List ℕ × ℕ) };

    ghost view = { λ t. map (λ e. (e.0.items, e.1)) t.names.entries };
}

impl Texts {
    /// No name.
    pub(crate) fn new(alloc: Global) -> Texts
        ensures { result ≡ [] }
    {
        Texts {
            names: IndexMap::new(alloc),
        }
    }

    /// The name of this text, None where there is none. This takes no memory.
    pub(crate) fn get(&self, text: &[u8]) -> Option<Name>
        ensures { result ≡ name_of self.now text.now }
    {
        match self.names.get(text) {
            Some(name) => Some(*name),
            None => None,
        }
    }

    /// Sets the name of this text.
    pub(crate) fn insert(
        &mut self,
        alloc: Global,
        text: &[u8],
        name: Name,
    ) -> Result<(), AllocError>
        ensures { OnOk result ((x : List ℕ) → name_of self.new x ≡ cond (bytes_eq text.now x) (Some name) (name_of self.old x)) }
    {
        let owned = Vec::from_slice(alloc, text)?;
        self.names.insert(owned, name)?;
        Ok(())
    }
}
