//! The theories that stand, by name.

ghost use Rattle.std.specs.Prelude.{◌≡◌, ◌<◌, ◌-◌, ◌^◌, ℕ, [], ◌∷◌, ◌++◌, length, remove, slice_get, Some, None, IfSome, IfNone, IfOk, OnOk, OnErr};
ghost use Rattle.std.specs.Map.{keys_of};
ghost use Rattle.pvs_instantiate.specs.code.Changes.{AddsFormal, AddsEntry, AddsImport, IsSameTheory};
ghost use Rattle.pvs_instantiate.specs.code.Growing.{Adds};

use crate::growth::Growth;
use indexmap::IndexMap;
use pvs_sig::{Class, Entry, FormalSig, Import, Signature};
use pvs_terms::{Id, Name};
use std::alloc::{AllocError, Global};
use std::marker::Model;

/// A theory that stands: its signature and its stamp.
#[derive(Drop)]
pub struct Theory {
    pub(crate) signature: Signature,
    pub(crate) stamp: u64,
}

/// Theories by name, in an order in which each mentions only those before it. Contracts see the
/// list of them with their names.
#[derive(Drop)]
pub(crate) struct Theories {
    entries: IndexMap<Name, Theory>,
}

impl Model for Theories {
    ghost use Rattle.std.specs.Prelude.{List, ℕ};
    ghost use Rattle.pvs_instantiate.specs.declared.theories.Theory.{Theory};

    ghost Value = { List (ℕ × Theory) };

    ghost view = { λ t. t.entries.entries };
}

/// Adds a formal at the end.
fn add_formal(theory: &mut Theory, formal: FormalSig) -> Result<(), AllocError>
    ensures ok { OnOk result (AddsFormal formal theory.old theory.new) }
    ensures err { OnErr result (IsSameTheory theory.old theory.new) }
{
    let FormalSig { name, nonempty, ty } = formal;
    theory
        .signature
        .formals
        .push(FormalSig { name, nonempty, ty })?;
    Ok(())
}

/// Adds an entry at the end.
fn add_entry(theory: &mut Theory, entry: Entry) -> Result<(), AllocError>
    ensures ok { OnOk result (AddsEntry entry theory.old theory.new) }
    ensures err { OnErr result (IsSameTheory theory.old theory.new) }
{
    // The proof of the push needs the types within an entry by name.
    let (_id, _class): (Option<Id>, Option<Class>) = (None, None);
    let Entry { name, kind } = entry;
    theory.signature.entries.push(Entry { name, kind })?;
    Ok(())
}

/// Adds an importing at the end.
fn add_import(theory: &mut Theory, import: Import) -> Result<(), AllocError>
    ensures ok { OnOk result (AddsImport import theory.old theory.new) }
    ensures err { OnErr result (IsSameTheory theory.old theory.new) }
{
    theory.signature.imports.push(import)?;
    Ok(())
}

/// Adds it at the end.
fn add(theory: &mut Theory, growth: Growth) -> Result<(), AllocError>
    ensures ok { OnOk result (Adds growth theory.old theory.new) }
    ensures err { OnErr result (IsSameTheory theory.old theory.new) }
{
    match growth {
        Growth::Formal(formal) => add_formal(theory, formal),
        Growth::Entry(entry) => add_entry(theory, entry),
        Growth::Import(import) => add_import(theory, import),
    }
}

impl Theories {
    ghost use Rattle.std.specs.Map.{values_of};
    ghost use Rattle.pvs_instantiate.specs.code.Places.{IsMoved, IsSet};
    ghost use Rattle.pvs_instantiate.specs.Standing.{numbered};
    ghost use Rattle.pvs_instantiate.specs.declared.theories.Theory.{Theory};

    pub(crate) fn new(alloc: Global) -> Theories
        ensures { result ≡ [] }
    {
        Theories {
            entries: IndexMap::new(alloc),
        }
    }

    /// Where the theory of this name stands.
    pub(crate) fn find(&self, name: Name) -> Option<usize>
        ensures some { IfSome result (λ i. slice_get (keys_of self.now) i ≡ Some name) }
        ensures none { IfNone result ((i : ℕ) → slice_get (keys_of self.now) i ≡ Some name → ⊥) }
    {
        match self.entries.get_index_of(&name) {
            Some(at) => Some(at),
            None => None,
        }
    }

    /// The theory at a place.
    pub(crate) fn theory(&self, at: usize) -> &Theory
        requires { at < length self.now }
        ensures { slice_get (values_of self.now) at ≡ Some result.now }
    {
        &self.entries.values().as_slice()[at]
    }

    /// Adds a theory under a name that is not there. It is the last one.
    pub(crate) fn push(&mut self, name: Name, theory: Theory) -> Result<(), AllocError>
        requires { (i : ℕ) → slice_get (keys_of self.old) i ≡ Some name → ⊥ }
        ensures ok { OnOk result (self.new ≡ self.old ++ (name, theory) ∷ []) }
        ensures err { OnErr result (self.new ≡ self.old) }
    {
        self.entries.insert(name, theory)?;
        Ok(())
    }

    /// Takes out the theory at a place.
    pub(crate) fn remove(&mut self, at: usize) -> Theory
        requires { at < length self.old }
        ensures theory { slice_get (values_of self.old) at ≡ Some result }
        ensures rest { self.new ≡ remove self.old at }
    {
        match self.entries.shift_remove_index(at) {
            Some((_, theory)) => theory,
            None => unreachable!(),
        }
    }

    /// Makes the theory at a place the last one.
    fn move_last(&mut self, at: usize)
        requires { at < length self.old }
        ensures { (e : ℕ × Theory) → slice_get self.old at ≡ Some e → self.new ≡ remove self.old at ++ e ∷ [] }
    {
        let last = self.entries.len() - 1;
        self.entries.move_index(at, last);
    }

    /// Adds at the end of the theory at a place, which becomes the last theory.
    pub(crate) fn grow(&mut self, at: usize, growth: Growth) -> Result<(), AllocError>
        requires { at < length self.old }
        ensures ok { OnOk result (IsMoved (Adds growth) self.old self.new at) }
        ensures err { OnErr result (IsSet IsSameTheory self.old self.new at) }
    {
        add(&mut self.entries[at], growth)?;
        self.move_last(at);
        Ok(())
    }

    /// Numbers the theories from 1 on. The answer is the last number.
    pub(crate) fn renumber(&mut self) -> u64
        ensures numbered { self.new ≡ numbered 0 (length self.old) self.old }
        ensures last { result ≡ length self.old }
        ensures small { result < 2 ^ 63 }
    {
        let count = self.entries.len();
        for i in 0..count {
            let theory = &mut self.entries[i];
            theory.stamp = i as u64 + 1;
        }
        count as u64
    }
}
