//! The theories that stand, over one store, with a cache of trees of their instances.

ghost use Rattle.std.specs.Prelude.{◌≡◌, ℕ, [], ◌∷◌, IfOk, OnErr, OnOk, IfSome, IfNone, Err};

use crate::theories::Theories;
use pvs_cache::Judgements;
use pvs_sig::Signature;
use pvs_subst::SubstFault;
use pvs_terms::{Id, MakeFault, Name, Node, RefId, RefKind, Store};
use std::alloc::{AllocError, Global};
use std::marker::Model;

/// The theories that stand, over one store, with a cache of trees of their instances.
#[derive(Drop)]
pub struct Instances<J: Judgements> {
    pub(crate) store: Store,
    pub(crate) theories: Theories,
    pub(crate) last_stamp: u64,
    pub(crate) cache: J,
}

impl<J: Judgements> Model for Instances<J> {
    ghost use Rattle.pvs_instantiate.specs.InstancesView.{InstancesView};

    ghost Value = { InstancesView };

    ghost use Rattle.pvs_instantiate.specs.Soundness.{IsSound};

    ghost view = { λ s. record { store = s.store; entries = s.theories; last_stamp = s.last_stamp; kept = J.kept s.cache } };

    ghost invariant = { λ s. IsSound (record { store = s.store; entries = s.theories; last_stamp = s.last_stamp; kept = J.kept s.cache }) };
}

impl<J: Judgements> Instances<J> {
    ghost use Rattle.pvs_instantiate.specs.InstancesView.{development, stamps, Leaves};
    ghost use Rattle.pvs_instantiate.specs.Soundness.{IsSound};
    ghost use Rattle.std.specs.Prelude.{Some, None, slice_get};
    ghost use Rattle.std.specs.Map.{keys_of};
    ghost use Rattle.pvs_terms.specs.Stored.{StandsName, StandsRef, Stands, IsName, IsNode, AreNodes, KindIn, MayHave, PartsIn, text_at, tree_at, trees_at, node_tree, given_ref, Extends};
    ghost use Rattle.pvs_terms.specs.Tree.{AreClosed, IsWithinLimits, Const};
    ghost use Rattle.pvs_terms.specs.Sorts.{HasSorts, IsTerm};
    ghost use Rattle.pvs_subst.specs.Replace.{lift, put_in};
    ghost use Rattle.pvs_subst.specs.Instance.{instantiate, HasActuals};
    ghost use Rattle.pvs_sig.specs.SignatureAt.{SignatureIn, signature_at};
    ghost use Rattle.pvs_sig.specs.Development.{theory_named};

    /// No theory stands, and nothing is kept.
    pub fn new(alloc: Global, cache: J) -> Result<Instances<J>, AllocError>
        ensures theories { IfOk result (λ x. development x ≡ []) }
        ensures kept { IfOk result (λ x. x.kept ≡ []) }
    {
        let mut cache = cache;
        cache.forget();
        Ok(Instances {
            store: Store::new(alloc)?,
            theories: Theories::new(alloc),
            last_stamp: 0,
            cache,
        })
    }

    /// The allocator that memory is taken from. This takes no memory.
    pub fn allocator(&self) -> Global {
        self.store.allocator()
    }

    /// The name of this text.
    pub fn name(&mut self, text: &str) -> Result<Name, AllocError>
        ensures ok { IfOk result (StandsName self.new.store text.now) }

        // Equal texts have equal names.
        ensures only { IfOk result (λ n. (m : ℕ) → IsName self.new.store m → text_at self.new.store m ≡ text.now → m ≡ n) }
        ensures kept { Leaves self.old self.new }
    {
        self.store.name(text)
    }

    /// The number of a reference, which stands for it in the store. Only an instance has actuals,
    /// and they are closed. TooLarge comes exactly where a node on it would pass a limit.
    pub fn reference(&mut self, kind: RefKind, actuals: &[Id]) -> Result<RefId, MakeFault>
        requires named { KindIn self.old.store kind }
        requires may_have { MayHave kind actuals.now }
        requires actuals { AreNodes self.old.store actuals.now }
        requires closed { AreClosed (trees_at self.old.store actuals.now) }
        ensures ok { IfOk result (StandsRef self.new.store (given_ref self.old.store kind actuals.now)) }
        ensures large { result ≡ Err MakeFault.TooLarge → ¬ IsWithinLimits (Const (given_ref self.old.store kind actuals.now)) }
        ensures kept { Leaves self.old self.new }
    {
        self.store.reference(kind, actuals)
    }

    /// The number of a node, which stands for its tree. TooLarge comes exactly where the tree passes
    /// a limit.
    pub fn make(&mut self, node: Node) -> Result<Id, MakeFault>
        requires parts { PartsIn self.old.store node }
        requires sorted { HasSorts (node_tree self.old.store node) }
        ensures ok { IfOk result (Stands self.new.store (node_tree self.old.store node)) }
        ensures large { result ≡ Err MakeFault.TooLarge → ¬ IsWithinLimits (node_tree self.old.store node) }
        ensures kept { Leaves self.old self.new }
    {
        self.store.make(node)
    }

    /// Raises each free index that is at least `from` by `by`. TooLarge comes exactly where the
    /// result passes a limit.
    pub fn lift(&mut self, id: Id, by: u32, from: u32) -> Result<Id, SubstFault>
        requires { IsNode self.old.store id }
        ensures ok { IfOk result (Stands self.new.store (lift (tree_at self.old.store id) by from)) }
        ensures large { result ≡ Err SubstFault.TooLarge → ¬ IsWithinLimits (lift (tree_at self.old.store id) by from) }
        ensures kept { Leaves self.old self.new }
    {
        pvs_subst::lift(&mut self.store, id, by, from)
    }

    /// The body with the term `arg` in the place of its index 0. TooLarge comes exactly where the
    /// result passes a limit.
    pub fn put_in(&mut self, body: Id, arg: Id) -> Result<Id, SubstFault>
        requires body { IsNode self.old.store body }
        requires arg { IsNode self.old.store arg }
        requires term { IsTerm (tree_at self.old.store arg) }
        ensures ok { IfOk result (Stands self.new.store (put_in (tree_at self.old.store body) (tree_at self.old.store arg))) }
        ensures large { result ≡ Err SubstFault.TooLarge → ¬ IsWithinLimits (put_in (tree_at self.old.store body) (tree_at self.old.store arg)) }
        ensures kept { Leaves self.old self.new }
    {
        pvs_subst::put_in(&mut self.store, body, arg)
    }

    /// The tree in the instance of the theory with these actuals. TooLarge comes exactly where the
    /// result passes a limit.
    pub fn instantiate_node(
        &mut self,
        id: Id,
        theory: Name,
        actuals: &[Id],
    ) -> Result<Id, SubstFault>
        requires node { IsNode self.old.store id }
        requires theory { IsName self.old.store theory }
        requires actuals { AreNodes self.old.store actuals.now }
        requires closed { AreClosed (trees_at self.old.store actuals.now) }
        requires formals { HasActuals (trees_at self.old.store actuals.now) (tree_at self.old.store id) }
        ensures ok { IfOk result (Stands self.new.store (instantiate (tree_at self.old.store id) (text_at self.old.store theory) (trees_at self.old.store actuals.now))) }
        ensures large { result ≡ Err SubstFault.TooLarge → ¬ IsWithinLimits (instantiate (tree_at self.old.store id) (text_at self.old.store theory) (trees_at self.old.store actuals.now)) }
        ensures kept { Leaves self.old self.new }
    {
        pvs_subst::instantiate_node(&mut self.store, id, theory, actuals)
    }

    /// The store, for reading. This takes no memory.
    pub fn store(&self) -> &Store
        ensures { result.now ≡ self.now.store }
    {
        &self.store
    }

    /// The theories that stand are a development, no stamp is that of two theories, and each pair
    /// that is kept with the stamp of a theory that stands is the defined value of its key. It does
    /// nothing.
    pub fn soundness(&self)
        ensures { IsSound self.now }
    {
        let _store = &self.store;
    }

    /// Where the theory of this name stands.
    pub(crate) fn find(&self, theory: Name) -> Option<usize>
        requires { IsName self.now.store theory }
        ensures some { IfSome result (λ i. slice_get (keys_of self.now.entries) i ≡ Some theory) }
        ensures none { IfNone result (theory_named (development self.now) (text_at self.now.store theory) ≡ None) }
    {
        self.store.one_name_per_text();
        match self.theories.find(theory) {
            Some(at) => Some(at),
            None => None,
        }
    }

    /// The signature of the theory of this name, `None` exactly where it does not stand. This takes
    /// no memory.
    pub fn signature(&self, theory: Name) -> Option<&Signature>
        requires { IsName self.now.store theory }
        ensures some { IfSome result (λ g. SignatureIn self.now.store g.now × (theory_named (development self.now) (text_at self.now.store theory) ≡ Some (signature_at self.now.store g.now))) }
        ensures none { IfNone result (theory_named (development self.now) (text_at self.now.store theory) ≡ None) }
    {
        match self.find(theory) {
            Some(at) => {
                let found = self.theories.theory(at);
                Some(&found.signature)
            }
            None => None,
        }
    }
}
