//! The visible instances of a place.

ghost use Rattle.std.specs.Prelude.{◌≡◌, ◌||◌, ◌∷◌, ◌++◌, ℕ, List, [], eqb, OnOk};
ghost use Rattle.pvs_names.specs.code.Visible.{Seen, sees_theory, sees_instance, IndexesInstances, IsImportOf};
ghost use Rattle.pvs_terms.specs.Stored.{Stored};
ghost use Rattle.pvs_sig.specs.Signature.{Import};

use indexmap::IndexSet;
use pvs_terms::{Name, RefId};
use std::alloc::{AllocError, Global};
use std::marker::Model;

/// The visible instances of a place, and of which theories they are. An instance is kept by the
/// reference of the entry with number 0.
#[derive(Drop)]
pub struct VisibleInstances {
    theories: IndexSet<Name>,
    instances: IndexSet<RefId>,
}

impl Model for VisibleInstances {
    ghost use Rattle.pvs_names.specs.code.Visible.{Seen};

    ghost Value = { Seen };

    ghost view = { λ v. record { theories = v.theories.keys; instances = v.instances.keys } };
}

impl VisibleInstances {
    /// No instance is visible.
    pub fn new(alloc: Global) -> VisibleInstances
        ensures theories { result.theories ≡ [] }
        ensures instances { result.instances ≡ [] }
    {
        VisibleInstances {
            theories: IndexSet::new(alloc),
            instances: IndexSet::new(alloc),
        }
    }

    /// Whether an instance of this theory is visible. This takes no memory.
    pub fn has_theory(&self, theory: Name) -> bool
        ensures { result ≡ sees_theory self.now theory }
    {
        self.theories.contains(&theory)
    }

    /// Whether this instance is visible. This takes no memory.
    pub fn has_instance(&self, first: RefId) -> bool
        ensures { result ≡ sees_instance self.now first }
    {
        self.instances.contains(&first)
    }

    /// Notes that an instance of a theory is visible.
    fn note(&mut self, theory: Name, first: RefId) -> Result<(), AllocError>
        ensures theories { OnOk result ((n : ℕ) → sees_theory self.new n ≡ (sees_theory self.old n || eqb theory n)) }
        ensures instances { OnOk result ((r : ℕ) → sees_instance self.new r ≡ (sees_instance self.old r || eqb first r)) }
    {
        self.theories.insert(theory)?;
        self.instances.insert(first)?;
        Ok(())
    }

    /// Adds an instance of a theory.
    pub fn add(&mut self, theory: Name, first: RefId) -> Result<(), AllocError>
        ensures theories { OnOk result ((n : ℕ) → sees_theory self.new n ≡ (sees_theory self.old n || eqb theory n)) }
        ensures instances { OnOk result ((r : ℕ) → sees_instance self.new r ≡ (sees_instance self.old r || eqb first r)) }
        ensures listed { OnOk result ((s : Stored) (xs : List Import) (x : Import) → IsImportOf s theory first x → IndexesInstances s self.old xs → IndexesInstances s self.new (xs ++ x ∷ [])) }
    {
        self.note(theory, first)?;
        Ok(())
    }
}
