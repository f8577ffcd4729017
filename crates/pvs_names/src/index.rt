//! What names stand for, by section, kind and name.

ghost use Rattle.std.specs.Prelude.{◌≡◌, [], Some, None, IfOk, OnOk, cond};
ghost use Rattle.pvs_names.specs.code.Index.{found_of, key_eq, one_or_several, Notes};
ghost use Rattle.pvs_names.specs.declared.key.Key.{Key};

use crate::key::{Key, Section};
use indexmap::IndexMap;
use pvs_terms::RefId;
use std::alloc::{AllocError, Global};
use std::marker::Model;

/// What has a name: one reference, or several.
#[derive(Clone, Copy, Debug, PartialEq, Eq)]
pub enum Found {
    One(RefId),
    Several,
}

/// What has each name of a scope. Contracts see the list of keys with what was found.
#[derive(Drop)]
pub struct NameIndex {
    entries: IndexMap<Key, Found>,
}

impl Model for NameIndex {
    ghost use Rattle.std.specs.Prelude.{List};
    ghost use Rattle.pvs_names.specs.declared.key.Key.{Key};
    ghost use Rattle.pvs_names.specs.declared.index.Found.{Found};

    ghost Value = { List (Key × Found) };

    ghost view = { λ i. i.entries.entries };
}

/// What has a name, once a further reference has it.
fn with_one_more(found: Option<Found>, reference: RefId) -> Found
    ensures { result ≡ one_or_several found reference }
{
    match found {
        None => Found::One(reference),
        Some(_) => Found::Several,
    }
}

impl NameIndex {
    /// The index of no names.
    pub fn new(alloc: Global) -> NameIndex
        ensures { result ≡ [] }
    {
        NameIndex {
            entries: IndexMap::new(alloc),
        }
    }

    /// What has this name, None where nothing has it. This takes no memory.
    pub fn get(&self, key: &Key) -> Option<Found>
        ensures { result ≡ found_of self.now key.now }
    {
        match self.entries.get(key) {
            Some(found) => Some(*found),
            None => None,
        }
    }

    /// Sets what has this name.
    fn set(&mut self, key: Key, found: Found) -> Result<(), AllocError>
        ensures { OnOk result ((k : Key) → found_of self.new k ≡ cond (key_eq key k) (Some found) (found_of self.old k)) }
    {
        // The proof of the insertion needs the type within a key by name.
        let _section: Option<Section> = None;
        self.entries.insert(key, found)?;
        Ok(())
    }

    /// Notes that a further reference has this name.
    pub fn note(&mut self, key: &Key, reference: RefId) -> Result<(), AllocError>
        ensures { OnOk result (Notes self.old self.new key.now reference) }
    {
        let found = with_one_more(self.get(key), reference);
        self.set(*key, found)
    }
}
