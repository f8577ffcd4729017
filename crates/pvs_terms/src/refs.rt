//! References by number, each once.

ghost use Rattle.std.specs.Prelude.{◌≡◌, ◌<◌, ℕ, [], ◌∷◌, ◌++◌, length, slice_get, slice_index_or, Some, None, IfOk, OnOk, OnErr, IfSome, IfNone};
ghost use Rattle.std.specs.Map.{keys_of};

use crate::measure::Measure;
use crate::node::{Id, RefKind};
use indexmap::IndexMap;
use smallvec::SmallVec;
use std::alloc::{AllocFailed, Global};
use std::marker::Model;

/// What a reference is: its kind and the numbers of its actuals.
#[derive(Drop, PartialEq, Eq, Hash)]
pub(crate) struct RefKey {
    pub(crate) kind: RefKind,
    pub(crate) actuals: SmallVec<Id, 4>,
}

/// References in the order in which they came, each once, with their measures. Contracts see the
/// list of both.
#[derive(Drop)]
pub(crate) struct Refs {
    entries: IndexMap<RefKey, Measure>,
}

impl Model for Refs {
    ghost use Rattle.std.specs.Prelude.{List, map};
    ghost use Rattle.pvs_terms.specs.code.Refs.{RefEntry, entry_of};

    ghost Value = { List RefEntry };

    ghost view = { λ r. map entry_of r.entries.entries };
}

impl Refs {
    ghost use Rattle.pvs_terms.specs.code.Refs.{given_of};

    pub(crate) fn new(alloc: Global) -> Refs
        ensures { result ≡ [] }
    {
        Refs {
            entries: IndexMap::new(alloc),
        }
    }

    /// The number of a reference.
    pub(crate) fn find(&self, key: &RefKey) -> Option<u64>
        ensures some { IfSome result (λ i. slice_get (keys_of self.now) i ≡ Some (given_of key.now)) }
        ensures none { IfNone result ((i : ℕ) → slice_get (keys_of self.now) i ≡ Some (given_of key.now) → ⊥) }
    {
        match self.entries.get_index_of(key) {
            Some(at) => Some(at as u64),
            None => None,
        }
    }

    /// The reference of a number, and its measure.
    pub(crate) fn entry(&self, number: u64) -> (&RefKey, Measure)
        requires { number < length self.now }
        ensures { (given_of result.0.now, result.1) ≡ slice_index_or self.now number (given_of result.0.now, result.1) }
    {
        let at = number as usize;
        (
            &self.entries.keys().as_slice()[at],
            self.entries.values().as_slice()[at],
        )
    }

    /// Adds a reference that is not there. The answer is its number.
    pub(crate) fn push(
        &mut self,
        key: RefKey,
        measure: Measure,
    ) -> Result<u64, AllocFailed<(RefKey, Measure)>>
        requires { (i : ℕ) → slice_get (keys_of self.old) i ≡ Some (given_of key) → ⊥ }
        ensures ok { OnOk result (self.new ≡ self.old ++ (given_of key, measure) ∷ []) }
        ensures number { IfOk result (λ i. i ≡ length self.old) }
        ensures err { OnErr result (self.new ≡ self.old) }
    {
        let number = self.entries.len() as u64;
        self.entries.insert(key, measure)?;
        Ok(number)
    }
}
