//! What typing needs of the theories that stand.

use pvs_subst::SubstFault;
use pvs_terms::{Id, MakeFault, Name, Node, RefId, Store};

/// The theories that stand, over one store: what their references are, in the terms of a theory.
pub trait Theories {
    ghost use Rattle.std.specs.Prelude.{◌≡◌, ℕ, true, IfOk, Ok, Err};
    ghost use Rattle.pvs_base.specs.declared.code.Code.TheVariants as code;
    ghost use Rattle.pvs_terms.specs.Tree.{Ref, IsWithinLimits};
    ghost use Rattle.pvs_terms.specs.Stored.{IsNode, IsName, IsRef, tree_at, ref_at, node_tree, PartsIn, Stands};
    ghost use Rattle.pvs_terms.specs.Sorts.{HasSorts, IsTerm};
    ghost use Rattle.pvs_terms.specs.declared.shape.Sort.TheVariants.{OfType, OfTerm};
    ghost use Rattle.pvs_subst.specs.Replace.{lift, put_in};
    ghost use Rattle.pvs_types.specs.Forms.{body};
    ghost use Rattle.pvs_typing.specs.Answers.{IsOptionOf, IsTooLarge, IsType, tree_option};
    ghost use Rattle.pvs_typing.specs.State.{State, IsTypeOf, Grows};

    /// What the store holds and, in the terms of the theory of a name, which references are declared and
    /// what is looked up.
    ghost state: { Self → State };

    /// The store. This takes no memory.
    fn store(&self) -> &Store
        ensures { result.now ≡ (state self.now).stored };

    /// The number of a node, as `Store::make` gives it.
    fn make(&mut self, node: Node) -> Result<Id, MakeFault>
        requires parts { PartsIn (state self.old).stored node }
        requires sorted { HasSorts (node_tree (state self.old).stored node) }
        ensures ok { IfOk result (Stands (state self.new).stored (node_tree (state self.old).stored node)) }
        ensures large { result ≡ Err MakeFault.TooLarge → ¬ IsWithinLimits (node_tree (state self.old).stored node) }
        ensures kept { (n : ℕ) → IsName (state self.old).stored n → Grows (state self.old) (state self.new) n };

    /// Raises each free index that is at least `from` by `by`.
    fn lift(&mut self, id: Id, by: u32, from: u32) -> Result<Id, SubstFault>
        requires { IsNode (state self.old).stored id }
        ensures ok { IfOk result (Stands (state self.new).stored (lift (tree_at (state self.old).stored id) by from)) }
        ensures large { result ≡ Err SubstFault.TooLarge → ¬ IsWithinLimits (lift (tree_at (state self.old).stored id) by from) }
        ensures kept { (n : ℕ) → IsName (state self.old).stored n → Grows (state self.old) (state self.new) n };

    /// The body with the term `arg` in the place of its index 0, and its other free indices lowered.
    fn put_in(&mut self, body: Id, arg: Id) -> Result<Id, SubstFault>
        requires body { IsNode (state self.old).stored body }
        requires arg { IsNode (state self.old).stored arg }
        requires term { IsTerm (tree_at (state self.old).stored arg) }
        ensures ok { IfOk result (Stands (state self.new).stored (put_in (tree_at (state self.old).stored body) (tree_at (state self.old).stored arg))) }
        ensures large { result ≡ Err SubstFault.TooLarge → ¬ IsWithinLimits (put_in (tree_at (state self.old).stored body) (tree_at (state self.old).stored arg)) }
        ensures kept { (n : ℕ) → IsName (state self.old).stored n → Grows (state self.old) (state self.new) n };

    /// The type of a constant, in the terms of the theory. TooLarge exactly where the type passes a
    /// limit.
    fn type_of(&mut self, theory: Name, r: RefId) -> Result<Id, SubstFault>
        requires theory { IsName (state self.old).stored theory }
        requires reference { IsRef (state self.old).stored r }
        requires declared { (state self.old).declares theory OfTerm (ref_at (state self.old).stored r) }
        ensures ok { IfOk result (IsType (state self.new).stored ((state self.old).lookups theory).type_of (ref_at (state self.old).stored r)) }
        ensures known { IfOk result (IsTypeOf (state self.new) theory) }
        ensures large { result ≡ Err SubstFault.TooLarge → IsTooLarge (((state self.old).lookups theory).type_of (ref_at (state self.old).stored r)) }
        ensures kept { Grows (state self.old) (state self.new) theory };

    /// The body of a defined type, in the terms of the theory; None exactly where the type has none.
    /// TooLarge exactly where the body passes a limit.
    fn body_of(&mut self, theory: Name, r: RefId) -> Result<Option<Id>, SubstFault>
        requires theory { IsName (state self.old).stored theory }
        requires reference { IsRef (state self.old).stored r }
        requires declared { (state self.old).declares theory OfType (ref_at (state self.old).stored r) }
        ensures ok { IfOk result (λ o. body ((state self.old).lookups theory) (ref_at (state self.old).stored r) ≡ Ok (tree_option (state self.new).stored o)) }
        ensures known { IfOk result (IsOptionOf (state self.new) theory) }
        ensures large { result ≡ Err SubstFault.TooLarge → body ((state self.old).lookups theory) (ref_at (state self.old).stored r) ≡ Err code.TooLarge }
        ensures kept { Grows (state self.old) (state self.new) theory };

    /// A type's name that is declared in the terms of a theory is a type there. The call does nothing:
    /// its contract states it.
    fn declared_types(&self, theory: Name)
        requires { IsName (state self.now).stored theory }
        ensures { (r : Ref) → (state self.now).declares theory OfType r → ((state self.now).lookups theory).is_type r ≡ true };
}
