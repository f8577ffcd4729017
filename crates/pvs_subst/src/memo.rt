//! What one call has made of parts so far.

ghost use Rattle.std.specs.Prelude.{◌≡◌, [], Some, cond, OnOk};

use indexmap::IndexMap;
use pvs_terms::Id;
use std::alloc::{AllocError, Global};
use std::marker::Model;

/// A part of a tree: its number, and how many binders stand above it.
#[derive(Clone, Copy, PartialEq, Eq, Hash)]
struct Part {
    id: Id,
    depth: u64,
}

/// What was made of parts. Contracts see the list of both.
#[derive(Drop)]
pub(crate) struct Memo {
    entries: IndexMap<Part, Id>,
}

impl Model for Memo {
    ghost use Rattle.std.specs.Prelude.{List, ℕ};
    ghost use Rattle.pvs_subst.specs.declared.memo.Part.{Part};

    ghost Value = { List (Part × ℕ) };

    ghost view = { λ m. m.entries.entries };
}

impl Memo {
    ghost use Rattle.pvs_subst.specs.declared.memo.Part.{Part};
    ghost use Rattle.pvs_subst.specs.code.Memo.{part_eq, made_of};

    pub(crate) fn new(alloc: Global) -> Memo
        ensures { result ≡ [] }
    {
        Memo {
            entries: IndexMap::new(alloc),
        }
    }

    /// What was made of the part of this number and depth, where it was met before.
    pub(crate) fn get(&self, id: Id, depth: u64) -> Option<Id>
        ensures { result ≡ made_of self.now (record { id = id; depth = depth }) }
    {
        let part = Part { id, depth };
        match self.entries.get(&part) {
            Some(made) => Some(*made),
            None => None,
        }
    }

    /// Notes what was made of the part of this number and depth.
    pub(crate) fn put(&mut self, id: Id, depth: u64, made: Id) -> Result<(), AllocError>
        ensures { OnOk result ((p : Part) → made_of self.new p ≡ cond (part_eq (record { id = id; depth = depth }) p) (Some made) (made_of self.old p)) }
    {
        self.entries.insert(Part { id, depth }, made)?;
        Ok(())
    }
}
