//! The index of the names that the next entry of a theory sees.

ghost use Rattle.std.specs.Prelude.{◌≡◌, ℕ, OnOk};
ghost use Rattle.pvs_terms.specs.Tree as tree;
ghost use Rattle.pvs_terms.specs.Stored.{Stored, IsName, StandsRef, text_at};
ghost use Rattle.pvs_sig.specs.Signature.{Signature};
ghost use Rattle.pvs_sig.specs.SignatureAt.{FormalIn, EntryIn, formal_sig_at, entry_at};
ghost use Rattle.pvs_sig.specs.Development.{Development};
ghost use Rattle.pvs_instantiate.specs.InstancesView.{Leaves};
ghost use Rattle.pvs_instantiate.specs.Grown.{with_formal, with_entry};
ghost use Rattle.pvs_names.specs.code.Index.{IsDistinct};
ghost use Rattle.pvs_scope.specs.NamesAt.{NamesAt, IsUnread};
ghost use Rattle.pvs_scope.specs.code.Tables.{name_of, type_of};
ghost use Rattle.pvs_scope.specs.code.Adding as spec;

use crate::references::{distinct, entry_reference, formal_reference};
use crate::texts::Texts;
use crate::variables::Variables;
use pvs_cache::Judgements;
use pvs_instantiate::Instances;
use pvs_names::{NameIndex, NameKind, add_entry, add_formal};
use pvs_sig::{Entry, EntryKind, FormalSig};
use pvs_terms::{Id, Name, RefId, Store};
use std::alloc::{AllocError, Global};

/// What names stand for at the next place of a theory that is being read: an index that grows with
/// the theory's signature.
#[derive(Drop)]
pub struct PlaceNames {
    pub(crate) formals: u32,
    pub(crate) entries: u32,
    pub(crate) texts: Texts,
    pub(crate) visible: NameIndex,
    pub(crate) variables: Variables,
}

/// As what the name of an entry is looked up.
fn entry_name_kind(kind: &EntryKind) -> NameKind
    ensures { result ≡ spec.entry_name_kind kind.now }
{
    match kind {
        EntryKind::TypeSig { .. } => NameKind::TypeName,
        EntryKind::ConstSig { .. } => NameKind::Constant,
        EntryKind::VarSig { .. } => NameKind::Constant,
        EntryKind::FormulaSig { .. } => NameKind::FormulaName,
    }
}

/// As what the name of a formal is looked up.
fn formal_name_kind(ty: &Option<Id>) -> NameKind
    ensures { result ≡ spec.formal_name_kind ty.now }
{
    match ty {
        None => NameKind::TypeName,
        Some(_) => NameKind::Constant,
    }
}

/// Notes the type of a VAR; nothing where the entry is none.
fn note_variable(
    variables: &mut Variables,
    kind: &EntryKind,
    reference: RefId,
) -> Result<(), AllocError>
    ensures { OnOk result ((q : ℕ) → type_of variables.new q ≡ spec.with_variable (spec.variable_type kind.now) reference (type_of variables.old) q) }
{
    match kind {
        EntryKind::VarSig { ty } => variables.insert(reference, *ty),
        _ => Ok(()),
    }
}

/// Notes the text of a name.
fn note_text(texts: &mut Texts, store: &Store, name: Name) -> Result<(), AllocError>
    requires { IsName store.now name }
    ensures { OnOk result (spec.AddsText (text_at store.now name) name (name_of texts.old) (name_of texts.new)) }
{
    texts.insert(store.allocator(), store.text(name).as_bytes(), name)
}

impl PlaceNames {
    /// The index at the beginning of a theory, which has no formals and no importings yet.
    pub fn new(alloc: Global) -> PlaceNames
        ensures { (s : Stored) (d : Development) (g : Signature) → IsUnread g → NamesAt s result d g }
    {
        PlaceNames {
            formals: 0,
            entries: 0,
            texts: Texts::new(alloc),
            visible: NameIndex::new(alloc),
            variables: Variables::new(alloc),
        }
    }

    /// Notes an entry that has this reference.
    fn note_entry(
        &mut self,
        store: &Store,
        entry: &Entry,
        reference: RefId,
    ) -> Result<(), AllocError>
        requires { IsName store.now entry.now.name }
        ensures { OnOk result (spec.AddsEntry (text_at store.now entry.now.name) entry.now.name entry.now.kind reference self.old self.new) }
    {
        if self.entries == u32::MAX {
            return Err(AllocError);
        }
        note_text(&mut self.texts, store, entry.name)?;
        let kind = entry_name_kind(&entry.kind);
        add_entry(&mut self.visible, kind, entry.name, reference)?;
        note_variable(&mut self.variables, &entry.kind, reference)?;
        self.entries += 1;
        Ok(())
    }

    /// Notes a formal that has this reference.
    fn note_formal(
        &mut self,
        store: &Store,
        formal: &FormalSig,
        reference: RefId,
    ) -> Result<(), AllocError>
        requires { IsName store.now formal.now.name }
        ensures { OnOk result (spec.AddsFormal (text_at store.now formal.now.name) formal.now.name (spec.formal_name_kind formal.now.ty) reference self.old self.new) }
    {
        if self.formals == u32::MAX {
            return Err(AllocError);
        }
        note_text(&mut self.texts, store, formal.name)?;
        let kind = formal_name_kind(&formal.ty);
        add_formal(&mut self.visible, kind, formal.name, reference)?;
        self.formals += 1;
        Ok(())
    }

    /// Adds an entry at the end of the theory. After a refusal nothing is known of the index.
    pub fn add_entry<J: Judgements>(
        &mut self,
        instances: &mut Instances<J>,
        entry: &Entry,
    ) -> Result<(), AllocError>
        requires { EntryIn instances.old.store entry.now }
        ensures added { OnOk result ((d : Development) (g : Signature) → NamesAt instances.old.store self.old d g → NamesAt instances.new.store self.new d (with_entry (entry_at instances.old.store entry.now) g)) }
        ensures kept { Leaves instances.old instances.new }
    {
        let reference = entry_reference(instances, self.entries)?;
        distinct(instances);
        self.note_entry(instances.store(), entry, reference)?;
        Ok(())
    }

    /// Adds a formal at the end of the theory's formals. After a refusal nothing is known of the
    /// index.
    pub fn add_formal<J: Judgements>(
        &mut self,
        instances: &mut Instances<J>,
        formal: &FormalSig,
    ) -> Result<(), AllocError>
        requires { FormalIn instances.old.store formal.now }
        ensures added { OnOk result ((d : Development) (g : Signature) → NamesAt instances.old.store self.old d g → NamesAt instances.new.store self.new d (with_formal (formal_sig_at instances.old.store formal.now) g)) }
        ensures kept { Leaves instances.old instances.new }
    {
        let reference = formal_reference(instances, self.formals)?;
        distinct(instances);
        self.note_formal(instances.store(), formal, reference)?;
        Ok(())
    }
}
