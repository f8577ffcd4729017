//! The types of VARs.

ghost use Rattle.std.specs.Prelude.{◌≡◌, ℕ, [], Some, OnOk, cond, eqb};
ghost use Rattle.pvs_scope.specs.code.Tables.{type_of};

use indexmap::IndexMap;
use pvs_terms::{Id, RefId};
use std::alloc::{AllocError, Global};
use std::marker::Model;

/// The types of VARs by their references. Contracts see the list of references with their types.
#[derive(Drop)]
pub(crate) struct Variables {
    types: IndexMap<RefId, Id>,
}

impl Model for Variables {
    ghost use Rattle.std.specs.Prelude.{List, ℕ};

    ghost Value = { List (ℕ × ℕ) };

    ghost view = { λ v. v.types.entries };
}

impl Variables {
    /// No VAR.
    pub(crate) fn new(alloc: Global) -> Variables
        ensures { result ≡ [] }
    {
        Variables {
            types: IndexMap::new(alloc),
        }
    }

    /// The type of the VAR of this reference, None where it is none. This takes no memory.
    pub(crate) fn get(&self, reference: RefId) -> Option<Id>
        ensures { result ≡ type_of self.now reference }
    {
        match self.types.get(&reference) {
            Some(ty) => Some(*ty),
            None => None,
        }
    }

    /// Sets the type of the VAR of this reference.
    pub(crate) fn insert(&mut self, reference: RefId, ty: Id) -> Result<(), AllocError>
        ensures { OnOk result ((r : ℕ) → type_of self.new r ≡ cond (eqb reference r) (Some ty) (type_of self.old r)) }
    {
        self.types.insert(reference, ty)?;
        Ok(())
    }
}
