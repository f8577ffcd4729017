//! The members of a scope, added to an index of names one by one.

ghost use Rattle.std.specs.Prelude.{◌≡◌, [], ◌∷◌, ◌++◌, List, OnOk};
ghost use Rattle.pvs_terms.specs.Stored.{Stored};
ghost use Rattle.pvs_names.specs.Members.{Member};
ghost use Rattle.pvs_names.specs.code.Index.{Notes, Indexes, IsMemberOf, IsFormal, IsOwnEntry, IsEntryOf};

use crate::index::NameIndex;
use crate::key::{Key, Section};
use crate::kind::NameKind;
use pvs_terms::{Name, RefId};
use std::alloc::AllocError;

/// Notes that a further reference has a name in a section.
fn note_in(
    index: &mut NameIndex,
    section: Section,
    kind: NameKind,
    name: Name,
    reference: RefId,
) -> Result<(), AllocError>
    ensures { OnOk result (Notes index.old index.new (record { section = section; kind = kind; name = name }) reference) }
{
    let key = Key {
        section,
        kind,
        name,
    };
    index.note(&key, reference)
}

/// Adds an own formal to the members of a scope.
pub fn add_formal(
    index: &mut NameIndex,
    kind: NameKind,
    name: Name,
    reference: RefId,
) -> Result<(), AllocError>
    ensures { OnOk result ((s : Stored) (ms : List Member) (m : Member) → IsMemberOf s kind name reference m → IsFormal m.reference → Indexes s index.old ms → Indexes s index.new (ms ++ m ∷ [])) }
{
    note_in(index, Section::Own, kind, name, reference)?;
    Ok(())
}

/// Adds an own entry to the members of a scope.
pub fn add_entry(
    index: &mut NameIndex,
    kind: NameKind,
    name: Name,
    reference: RefId,
) -> Result<(), AllocError>
    ensures { OnOk result ((s : Stored) (ms : List Member) (m : Member) → IsMemberOf s kind name reference m → IsOwnEntry m.reference → Indexes s index.old ms → Indexes s index.new (ms ++ m ∷ [])) }
{
    note_in(index, Section::Own, kind, name, reference)?;
    note_in(index, Section::OwnEntries, kind, name, reference)?;
    Ok(())
}

/// Adds an entry of an instance to the members of a scope. `first` is the reference of the entry
/// with number 0 in the same instance.
pub fn add_instance(
    index: &mut NameIndex,
    kind: NameKind,
    name: Name,
    reference: RefId,
    theory: Name,
    first: RefId,
) -> Result<(), AllocError>
    ensures { OnOk result ((s : Stored) (ms : List Member) (m : Member) → IsMemberOf s kind name reference m → IsEntryOf s theory first reference → Indexes s index.old ms → Indexes s index.new (ms ++ m ∷ [])) }
{
    note_in(index, Section::Imported, kind, name, reference)?;
    note_in(index, Section::OfTheory(theory), kind, name, reference)?;
    note_in(index, Section::OfInstance(first), kind, name, reference)?;
    Ok(())
}
