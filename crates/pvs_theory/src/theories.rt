//! Which theories of a unit are accepted.

ghost use Rattle.std.specs.Prelude.{◌≡◌, ℕ, List, ◌++◌, IfOk, OnOk};
ghost use Rattle.pvs_terms.specs.Stored.{Extends};
ghost use Rattle.pvs_syntax.specs.declared.unit.Item as spec_item;
ghost use Rattle.pvs_theory.specs.code.Index.{HasNames};
ghost use Rattle.pvs_syntax.specs.Words.{spelling};
ghost use Rattle.pvs_theory.specs.code.Fault.{GivesElab};
ghost use Rattle.pvs_theory.specs.code.Shown.{AreEntriesOf, AreParts, IsPart, entries_shown};
ghost use Rattle.pvs_theory.specs.Theories.{duplicate, part_of, parts_of, theory_name, theory_names, theory_part, accepted_entries};

use crate::distinct::first_repeated;
use crate::entries::{Entry, entries, out_of_profile};
use crate::fault::ElabFault;
use crate::forms::is_built_theory;
use crate::index::{Index, add_name};
use crate::names::spelling_of;
use pvs_base::{Code, Fault};
use pvs_syntax::{Item, Proof, Theory, Word};
use pvs_terms::Store;
use std::alloc::{AllocError, Global};

/// A part of a unit.
#[derive(Drop)]
pub enum Part<'u> {
    /// A theory, by its name, with its entries.
    Accepted(Word, Vec<Entry>),

    /// A theory with its first fault.
    Rejected(Word, Fault),

    /// A proof.
    Proving(&'u Proof),
}

/// The fault of a name that is declared again.
fn duplicate(word: Word) -> Fault
    ensures { result ≡ duplicate word }
{
    Fault {
        pos: word.pos,
        code: Code::Duplicate,
    }
}

/// The entries of a theory, or its first fault, given whether an earlier theory has its name.
///
/// These are the faults, in their order: OutOfProfile at the theory's name, where a form is not
/// built; Duplicate there, where an earlier theory has the name; Duplicate at a name that is
/// declared again; the first fault of the declarations, in their order.
fn accepted_entries(
    alloc: Global,
    store: &mut Store,
    text: &[u8],
    again: bool,
    theory: &Theory,
) -> Result<Vec<Entry>, ElabFault>
    ensures entries { GivesElab (λ v. AreEntriesOf store.new v.items) (λ v. entries_shown store.new text.now v.items) result (accepted_entries text.now again theory.now) }
    ensures kept { Extends store.old store.new }
{
    if !is_built_theory(text, theory) {
        return Err(ElabFault::At(out_of_profile(theory.name.pos)));
    }
    if again {
        return Err(ElabFault::At(duplicate(theory.name)));
    }
    let decls = theory.decls.as_slice();
    match first_repeated(alloc, text, decls)? {
        Some(word) => Err(ElabFault::At(duplicate(word))),
        None => entries(alloc, store, text, theory.name.pos, decls),
    }
}

/// The part that a theory is, given whether an earlier one has its name.
fn theory_part<'u>(
    alloc: Global,
    store: &mut Store,
    text: &[u8],
    again: bool,
    theory: &Theory,
) -> Result<Part<'u>, AllocError>
    ensures part { IfOk result (IsPart store.new text.now (theory_part (spelling text.now theory.now.name) (accepted_entries text.now again theory.now))) }
    ensures kept { Extends store.old store.new }
{
    match accepted_entries(alloc, store, text, again, theory) {
        Ok(entries) => Ok(Part::Accepted(theory.name, entries)),
        Err(ElabFault::At(fault)) => Ok(Part::Rejected(theory.name, fault)),
        Err(ElabFault::Memory) => Err(AllocError),
    }
}

/// The part that an item is, where earlier theories have these names. The name of a theory is
/// added.
fn next_part<'u, 'a>(
    alloc: Global,
    store: &mut Store,
    text: &'a [u8],
    names: &mut Index<'a, ()>,
    item: &'u Item,
) -> Result<Part<'u>, AllocError>
    ensures part { (earlier : List spec_item.Item) → HasNames names.old (theory_names text.now earlier) → IfOk result (IsPart store.new text.now (part_of text.now earlier item.now)) }
    ensures names { OnOk result ((seen : List (List ℕ)) → HasNames names.old seen → HasNames names.new (seen ++ theory_name text.now item.now)) }
    ensures kept { Extends store.old store.new }
{
    match item {
        Item::Theory(theory) => {
            let is_new = add_name(names, spelling_of(text, &theory.name))?;
            theory_part(alloc, store, text, !is_new, theory)
        }
        Item::Proof(proof) => Ok(Part::Proving(proof)),
    }
}

/// The parts of a unit with these items.
pub fn parts<'u>(
    alloc: Global,
    store: &mut Store,
    text: &[u8],
    items: &'u [Item],
) -> Result<Vec<Part<'u>>, AllocError>
    ensures parts { IfOk result (λ v. AreParts store.new text.now (parts_of text.now items.now) v.items) }
    ensures kept { Extends store.old store.new }
{
    let mut names = Index::new(alloc);
    let mut parts = Vec::new(alloc);
    for item in items {
        parts.push(next_part(alloc, store, text, &mut names, item)?)?;
    }
    Ok(parts)
}
