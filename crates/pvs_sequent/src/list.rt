//! Lists of numbers of nodes that grow at their beginning.

ghost use Rattle.std.specs.Prelude.{◌≡◌, ◌<◌, List, ℕ, [], ◌∷◌, length, remove, reverse, slice_get, IfOk, OnOk, OnErr, Some};

use pvs_terms::Id;
use std::alloc::{AllocError, Global};
use std::marker::Model;

/// A list of numbers of nodes.
///
/// A number is added as the first one at the cost of a push. One is taken out at the cost of the
/// numbers before it.
#[derive(Drop)]
pub struct IdList {
    /// The last number first.
    reversed: Vec<Id>,
}

impl Model for IdList {
    ghost Value = { List ℕ };

    ghost view = { λ a. reverse a.reversed.items };
}

impl IdList {
    /// The empty list.
    pub fn new(alloc: Global) -> IdList
        ensures { result ≡ [] }
    {
        IdList {
            reversed: Vec::new(alloc),
        }
    }

    /// How many numbers there are.
    pub fn len(&self) -> usize
        ensures { result ≡ length self.now }
    {
        self.reversed.len()
    }

    /// The number at an index, counted from 0, or None past the end.
    pub fn get(&self, at: usize) -> Option<Id>
        ensures { result ≡ slice_get self.now at }
    {
        if at < self.reversed.len() {
            Some(self.reversed[self.reversed.len() - 1 - at])
        } else {
            None
        }
    }

    /// The numbers, the last one first.
    pub fn last_first(&self) -> &[Id]
        ensures { reverse result.now ≡ self.now }
    {
        &self.reversed
    }

    /// Adds a number as the first one.
    pub fn push_first(&mut self, id: Id) -> Result<(), AllocError>
        ensures ok { OnOk result (self.new ≡ id ∷ self.old) }
        ensures err { OnErr result (self.new ≡ self.old) }
    {
        self.reversed.push(id)?;
        Ok(())
    }

    /// Takes out the number at an index, counted from 0.
    pub fn remove(&mut self, at: usize) -> Id
        requires { at < length self.old }
        ensures number { slice_get self.old at ≡ Some result }
        ensures rest { self.new ≡ remove self.old at }
    {
        self.reversed.remove(self.reversed.len() - 1 - at)
    }

    /// A copy.
    pub fn copy(&self, alloc: Global) -> Result<IdList, AllocError>
        ensures { IfOk result (λ x. x ≡ self.now) }
    {
        Ok(IdList {
            reversed: Vec::from_slice(alloc, &self.reversed)?,
        })
    }
}
