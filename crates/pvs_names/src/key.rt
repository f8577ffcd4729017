//! What an index of names is asked for.

use crate::kind::NameKind;
use pvs_terms::{Name, RefId};

/// Among which references of a scope a name is looked up.
#[derive(Clone, Copy, Debug, PartialEq, Eq, Hash)]
pub enum Section {
    /// Own entries and formals.
    Own,
    /// Own entries.
    OwnEntries,
    /// Entries of all instances.
    Imported,
    /// Entries of the instances of a theory.
    OfTheory(Name),
    /// Entries of one instance of a theory: the one whose entry with number 0 has this number.
    OfInstance(RefId),
}

/// A name of a kind, and where it is looked up.
#[derive(Clone, Copy, Debug, PartialEq, Eq, Hash)]
pub struct Key {
    pub section: Section,
    pub kind: NameKind,
    pub name: Name,
}
