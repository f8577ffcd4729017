//! What elaboration asks of the crates below: typing and names, at a place of a theory.

use crate::here::Here;
use pvs_base::Code;
use pvs_subst::SubstFault;
use pvs_terms::{Id, MakeFault, Node, RefId, Store};
use pvs_typing::TypeFault;

/// A place of a theory: typing there, and what names stand for.
pub trait Scope {
    ghost use Rattle.std.specs.Prelude.{◌≡◌, ◌≤◌, ◌-◌, IfOk, IfErr, Ok, Err};
    ghost use Rattle.pvs_terms.specs.Tree.{IsWithinLimits};
    ghost use Rattle.pvs_terms.specs.Stored.{node_tree, tree_at, ref_at};
    ghost use Rattle.pvs_terms.specs.Sorts.{sort_of};
    ghost use Rattle.pvs_terms.specs.declared.shape.Sort.TheVariants.{OfType, OfTerm};
    ghost use Rattle.pvs_subst.specs.Replace.{lift, put_in};
    ghost use Rattle.pvs_subst.specs.Contexts.{context_at};
    ghost use Rattle.pvs_types.specs.Coerce.{coerce};
    ghost use Rattle.pvs_types.specs.Forms.{head, up, most};
    ghost use Rattle.pvs_types.specs.Typing.{infer, check, well_formed, is_forall, typing};
    ghost use Rattle.pvs_typing.specs.Answers.{Gives, IsFault, IsRefusal};
    ghost use Rattle.pvs_typing.specs.Nodes.{HasKnownParts};
    ghost use Rattle.pvs_typing.specs.Growth.{AreKnown, all_at};
    ghost use Rattle.pvs_elaboration.specs.Names.{IsVariable};
    ghost use Rattle.pvs_elaboration.specs.Known.{Known, Grows, IsHere, IsTypeOf, IsTermOf, IsDeclared, Accepts};

    ghost known: { Self → Known };

    /// The store. This takes no memory.
    fn store(&self) -> &Store
        ensures { result.now ≡ (known self.now).stored };

    /// The number of a node.
    fn make(&mut self, node: Node) -> Result<Id, MakeFault>
        requires { HasKnownParts (known self.old).stored (known self.old).declares node }
        ensures ok { IfOk result (Gives (known self.new).stored (known self.new).declares (sort_of (node_tree (known self.old).stored node)) (node_tree (known self.old).stored node)) }
        ensures large { result ≡ Err MakeFault.TooLarge → ¬ IsWithinLimits (node_tree (known self.old).stored node) }
        ensures kept { Grows (known self.old) (known self.new) };

    /// The node of a type. Its parts are known as well. This takes no memory.
    fn type_view(&self, id: Id) -> Node
        requires { IsTypeOf (known self.now) id }
        ensures tree { tree_at (known self.now).stored id ≡ node_tree (known self.now).stored result }
        ensures parts { HasKnownParts (known self.now).stored (known self.now).declares result };

    /// A term under more variables.
    fn lift(&mut self, id: Id, by: u32) -> Result<Id, SubstFault>
        requires { IsTermOf (known self.old) id }
        ensures ok { IfOk result (Gives (known self.new).stored (known self.new).declares OfTerm (lift (tree_at (known self.old).stored id) by 0)) }
        ensures large { result ≡ Err SubstFault.TooLarge → ¬ IsWithinLimits (lift (tree_at (known self.old).stored id) by 0) }
        ensures kept { Grows (known self.old) (known self.new) };

    /// A type under more variables.
    fn lift_type(&mut self, id: Id, by: u32) -> Result<Id, SubstFault>
        requires { IsTypeOf (known self.old) id }
        ensures ok { IfOk result (Gives (known self.new).stored (known self.new).declares OfType (lift (tree_at (known self.old).stored id) by 0)) }
        ensures large { result ≡ Err SubstFault.TooLarge → ¬ IsWithinLimits (lift (tree_at (known self.old).stored id) by 0) }
        ensures kept { Grows (known self.old) (known self.new) };

    /// A type with a term in the place of its index 0.
    fn put_in(&mut self, body: Id, arg: Id) -> Result<Id, SubstFault>
        requires body { IsTypeOf (known self.old) body }
        requires arg { IsTermOf (known self.old) arg }
        ensures ok { IfOk result (Gives (known self.new).stored (known self.new).declares OfType (put_in (tree_at (known self.old).stored body) (tree_at (known self.old).stored arg))) }
        ensures large { result ≡ Err SubstFault.TooLarge → ¬ IsWithinLimits (put_in (tree_at (known self.old).stored body) (tree_at (known self.old).stored arg)) }
        ensures kept { Grows (known self.old) (known self.new) };

    /// The head of a type.
    fn head(&mut self, here: &Here, ty: Id) -> Result<Id, TypeFault>
        requires here { IsHere (known self.old) here.now }
        requires ty { IsTypeOf (known self.old) ty }
        ensures ok { IfOk result (λ i. IsTypeOf (known self.new) i × (head (known self.old).lookups (tree_at (known self.old).stored ty) ≡ Ok (tree_at (known self.new).stored i))) }
        ensures refused { IfErr result (IsRefusal (head (known self.old).lookups (tree_at (known self.old).stored ty))) }
        ensures kept { Grows (known self.old) (known self.new) };

    /// The types above a type, itself first.
    fn up(&mut self, here: &Here, ty: Id) -> Result<Vec<Id>, TypeFault>
        requires here { IsHere (known self.old) here.now }
        requires ty { IsTypeOf (known self.old) ty }
        ensures ok { IfOk result (λ v. AreKnown (known self.new).stored (known self.new).declares OfType v.items × (up (known self.old).lookups (tree_at (known self.old).stored ty) ≡ Ok (all_at (known self.new).stored v.items))) }
        ensures refused { IfErr result (IsRefusal (up (known self.old).lookups (tree_at (known self.old).stored ty))) }
        ensures kept { Grows (known self.old) (known self.new) };

    /// The most general type of those that a type is a subtype of.
    fn most(&mut self, here: &Here, ty: Id) -> Result<Id, TypeFault>
        requires here { IsHere (known self.old) here.now }
        requires ty { IsTypeOf (known self.old) ty }
        ensures ok { IfOk result (λ i. IsTypeOf (known self.new) i × (most (known self.old).lookups (tree_at (known self.old).stored ty) ≡ Ok (tree_at (known self.new).stored i))) }
        ensures refused { IfErr result (IsRefusal (most (known self.old).lookups (tree_at (known self.old).stored ty))) }
        ensures kept { Grows (known self.old) (known self.new) };

    /// Whether a term of one type is of another.
    fn coerce(&mut self, here: &Here, term: Id, from: Id, to: Id) -> Result<(), TypeFault>
        requires here { IsHere (known self.old) here.now }
        requires term { IsTermOf (known self.old) term }
        requires from { IsTypeOf (known self.old) from }
        requires to { IsTypeOf (known self.old) to }
        ensures ok { IfOk result (λ u. Accepts (coerce (known self.old).lookups (context_at (known self.old).stored here.now.context.items) (tree_at (known self.old).stored term) (tree_at (known self.old).stored from) (tree_at (known self.old).stored to)) tt) }
        ensures refused { IfErr result (IsFault (coerce (known self.old).lookups (context_at (known self.old).stored here.now.context.items) (tree_at (known self.old).stored term) (tree_at (known self.old).stored from) (tree_at (known self.old).stored to))) }
        ensures kept { Grows (known self.old) (known self.new) };

    /// The type of a term.
    fn infer(&mut self, here: &Here, term: Id) -> Result<Id, TypeFault>
        requires here { IsHere (known self.old) here.now }
        requires term { IsTermOf (known self.old) term }
        ensures ok { IfOk result (λ i. IsTypeOf (known self.new) i × Accepts (infer (known self.old).lookups (context_at (known self.old).stored here.now.context.items) (tree_at (known self.old).stored term)) (tree_at (known self.new).stored i)) }
        ensures refused { IfErr result (IsFault (infer (known self.old).lookups (context_at (known self.old).stored here.now.context.items) (tree_at (known self.old).stored term))) }
        ensures kept { Grows (known self.old) (known self.new) };

    /// Whether a term is of a type.
    fn check(&mut self, here: &Here, term: Id, ty: Id) -> Result<(), TypeFault>
        requires here { IsHere (known self.old) here.now }
        requires term { IsTermOf (known self.old) term }
        requires ty { IsTypeOf (known self.old) ty }
        ensures ok { IfOk result (λ u. Accepts (check (known self.old).lookups (context_at (known self.old).stored here.now.context.items) (tree_at (known self.old).stored term) (tree_at (known self.old).stored ty)) tt) }
        ensures refused { IfErr result (IsFault (check (known self.old).lookups (context_at (known self.old).stored here.now.context.items) (tree_at (known self.old).stored term) (tree_at (known self.old).stored ty))) }
        ensures kept { Grows (known self.old) (known self.new) };

    /// Whether a type is well formed.
    fn well_formed(&mut self, here: &Here, ty: Id) -> Result<(), TypeFault>
        requires here { IsHere (known self.old) here.now }
        requires ty { IsTypeOf (known self.old) ty }
        ensures ok { IfOk result (λ u. Accepts (well_formed (known self.old).lookups (context_at (known self.old).stored here.now.context.items) (tree_at (known self.old).stored ty)) tt) }
        ensures refused { IfErr result (IsFault (well_formed (known self.old).lookups (context_at (known self.old).stored here.now.context.items) (tree_at (known self.old).stored ty))) }
        ensures kept { Grows (known self.old) (known self.new) };

    /// Whether these are the sides of a universal formula. This takes no memory.
    fn is_forall(&self, left: Id, right: Id) -> bool
        requires left { IsTermOf (known self.now) left }
        requires right { IsTermOf (known self.now) right }
        ensures { result ≡ is_forall (tree_at (known self.now).stored left) (tree_at (known self.now).stored right) };

    /// Whether a term is the predicate of a universal formula.
    fn predicate(&mut self, here: &Here, term: Id) -> Result<(), TypeFault>
        requires here { IsHere (known self.old) here.now }
        requires term { IsTermOf (known self.old) term }
        ensures ok { IfOk result (λ u. Accepts ((typing (known self.old).lookups (tree_at (known self.old).stored term)).predicate (context_at (known self.old).stored here.now.context.items)) tt) }
        ensures refused { IfErr result (IsFault ((typing (known self.old).lookups (tree_at (known self.old).stored term)).predicate (context_at (known self.old).stored here.now.context.items))) }
        ensures kept { Grows (known self.old) (known self.new) };

    /// The constant or formal of this name. This takes no memory.
    fn constant_named(&self, name: &[u8]) -> Result<RefId, Code>
        ensures ok { IfOk result (λ r. IsDeclared (known self.now) OfTerm r × ((known self.now).names.constant_named name.now ≡ Ok (ref_at (known self.now).stored r))) }
        ensures refused { IfErr result (λ c. (known self.now).names.constant_named name.now ≡ Err c) };

    /// The type of this name. This takes no memory.
    fn type_named(&self, name: &[u8]) -> Result<RefId, Code>
        ensures ok { IfOk result (λ r. IsDeclared (known self.now) OfType r × ((known self.now).names.type_named name.now ≡ Ok (ref_at (known self.now).stored r))) }
        ensures refused { IfErr result (λ c. (known self.now).names.type_named name.now ≡ Err c) };

    /// The type of the VAR of this name. This takes no memory.
    fn variable_named(&self, name: &[u8]) -> Result<Id, Code>
        ensures ok { IfOk result (λ i. IsTypeOf (known self.now) i × IsVariable (known self.now).stored (known self.now).names name.now i) }
        ensures refused { IfErr result (λ c. (known self.now).names.variable_named name.now ≡ Err c) };
}
