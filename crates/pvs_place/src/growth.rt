//! How a theory that is being read grows.

ghost use Rattle.std.specs.Prelude.{◌≡◌, IfOk};
ghost use Rattle.pvs_terms.specs.Stored.{Extends, IsName, IsNode, tree_at};
ghost use Rattle.pvs_terms.specs.Sorts.{IsSorted};
ghost use Rattle.pvs_sig.specs.SignatureAt.{EntryKindIn, OptionIn, entry_at};
ghost use Rattle.pvs_instantiate.specs.InstancesView.{development};
ghost use Rattle.pvs_place.specs.NextEntry.{IsNextKind};
ghost use Rattle.pvs_place.specs.Place.{known_in, with_next};
ghost use Rattle.pvs_place.specs.code.Sorted.{IsSortedKind, IsSortedOption};

use crate::place::Place;
use pvs_cache::Judgements;
use pvs_sig::{Entry, EntryKind};
use pvs_terms::{Id, Store};
use std::alloc::AllocError;

/// Each node of a tree of the store has parts of the sorts that it needs. It does nothing.
fn sorted_tree(store: &Store, id: Id)
    requires { IsNode store.now id }
    ensures { IsSorted (tree_at store.now id) }
{
    let _node = store.view(id);
}

/// The same of a tree that there may be.
fn sorted_option(store: &Store, id: &Option<Id>)
    requires { OptionIn store.now id.now }
    ensures { IsSortedOption store.now id.now }
{
    if let Some(id) = id {
        sorted_tree(store, *id);
    }
}

/// The same of the trees of an entry.
fn sorted_kind(store: &Store, kind: &EntryKind)
    requires { EntryKindIn store.now kind.now }
    ensures { IsSortedKind store.now kind.now }
{
    match kind {
        EntryKind::TypeSig { body, .. } => sorted_option(store, body),
        EntryKind::ConstSig { ty, body } => {
            sorted_tree(store, *ty);
            sorted_option(store, body);
        }
        EntryKind::VarSig { ty } => sorted_tree(store, *ty),
        EntryKind::FormulaSig { body, .. } => sorted_tree(store, *body),
    }
}

impl<J: Judgements> Place<J> {
    /// The place after an entry that is added at the end of the theory.
    ///
    /// The trees of the entry are known at this place, and have no free variables. Where memory runs
    /// out, all theories are dropped.
    pub fn with_entry(self, entry: Entry) -> Result<Place<J>, AllocError>
        requires name { IsName self.store entry.name }
        requires kind { IsNextKind (known_in self.store (development self)) entry.kind }
        ensures theories { IfOk result (λ p. development p ≡ with_next (entry_at self.store entry) (development self)) }
        ensures store { IfOk result (λ p. Extends self.store p.store) }
    {
        let Place {
            instances,
            theory,
            names,
        } = self;
        let mut standing = instances;
        let mut visible = names;
        standing.soundness();
        sorted_kind(standing.store(), &entry.kind);
        visible.add_entry(&mut standing, &entry)?;
        standing.grow_entry(theory, entry)?;
        Ok(Place {
            instances: standing,
            theory,
            names: visible,
        })
    }
}
