//! What is owed for a type to have a member.

ghost use Rattle.std.specs.Prelude.{◌≡◌, [], IfOk, IfErr};
ghost use Rattle.pvs_terms.specs.declared.shape.Sort.TheVariants.{OfTerm};
ghost use Rattle.pvs_terms.specs.Sorts.{sort_of};
ghost use Rattle.pvs_terms.specs.Stored.{node_tree, tree_at};
ghost use Rattle.pvs_types.specs.Outcome.{Accepted};
ghost use Rattle.pvs_types.specs.Typing.{negation};
ghost use Rattle.pvs_instantiate.specs.InstancesView.{development};
ghost use Rattle.pvs_typing.specs.Answers.{IsFault};
ghost use Rattle.pvs_typing.specs.Nodes.{HasKnownParts};
ghost use Rattle.pvs_elab.specs.Declaration.{existence, existential};
ghost use Rattle.pvs_elab.specs.Elab.{universal};
ghost use Rattle.pvs_elaboration.specs.Known.{Grows, IsHere, IsTermOf, IsTypeOf};
ghost use Rattle.pvs_place.specs.Existence.{IsExistence, conditions_of};
ghost use Rattle.pvs_place.specs.Place.{IsDeclaredIn, known_in, lookups_in};
ghost use Rattle.pvs_place.specs.code.Existence.{MakesTerm};

use crate::place::Place;
use pvs_cache::Judgements;
use pvs_elaboration::{Here, Scope};
use pvs_terms::{Id, Node};
use pvs_typing::TypeFault;

impl<J: Judgements> Place<J> {
    /// The number of a term whose parts are known.
    fn make_term(&mut self, node: Node) -> Result<Id, TypeFault>
        requires parts { HasKnownParts self.old.store (IsDeclaredIn (development self.old)) node }
        requires term { sort_of (node_tree self.old.store node) ≡ OfTerm }
        ensures { MakesTerm (known_in self.old.store (development self.old)) (known_in self.new.store (development self.new)) (node_tree self.old.store node) result }
    {
        let made = Scope::make(self, node)?;
        Ok(made)
    }

    /// The negation of a formula.
    fn negation(&mut self, here: &Here, formula: Id) -> Result<Id, TypeFault>
        requires here { IsHere (known_in self.old.store (development self.old)) here.now }
        requires formula { IsTermOf (known_in self.old.store (development self.old)) formula }
        ensures { MakesTerm (known_in self.old.store (development self.old)) (known_in self.new.store (development self.new)) (negation (tree_at self.old.store formula)) result }
    {
        self.make_term(Node::If(formula, here.no, here.yes))
    }

    /// The formula that each member of a type has a property.
    fn universal(&mut self, here: &Here, ty: Id, property: Id) -> Result<Id, TypeFault>
        requires here { IsHere (known_in self.old.store (development self.old)) here.now }
        requires ty { IsTypeOf (known_in self.old.store (development self.old)) ty }
        requires property { IsTermOf (known_in self.old.store (development self.old)) property }
        ensures { MakesTerm (known_in self.old.store (development self.old)) (known_in self.new.store (development self.new)) (universal (tree_at self.old.store ty) (tree_at self.old.store property)) result }
    {
        let predicate = self.make_term(Node::Lam(ty, property))?;
        let always = self.make_term(Node::Lam(ty, here.yes))?;
        let equation = self.make_term(Node::Eq(predicate, always))?;
        Ok(equation)
    }

    /// The formula that a type has a member.
    fn existential(&mut self, here: &Here, ty: Id) -> Result<Id, TypeFault>
        requires here { IsHere (known_in self.old.store (development self.old)) here.now }
        requires ty { IsTypeOf (known_in self.old.store (development self.old)) ty }
        ensures { MakesTerm (known_in self.old.store (development self.old)) (known_in self.new.store (development self.new)) (existential (tree_at self.old.store ty)) result }
    {
        let never = self.negation(here, here.yes)?;
        let empty = self.universal(here, ty, never)?;
        let inhabited = self.negation(here, empty)?;
        Ok(inhabited)
    }

    /// What is owed for a type to have a member: nothing where it is known to be nonempty, and else one
    /// condition under no hypothesis. Its goal is answered, `EXISTS (x: A): TRUE` as the tree of
    /// `NOT FORALL (x: A): NOT TRUE` (the PVS Language Reference, constant declarations).
    ///
    /// Refused with TooLarge exactly where a body that is asked for or the goal passes a limit of trees.
    pub fn existence(&mut self, here: &Here, ty: Id) -> Result<Option<Id>, TypeFault>
        requires here { IsHere (known_in self.old.store (development self.old)) here.now }
        requires ty { IsTypeOf (known_in self.old.store (development self.old)) ty }
        ensures ok { IfOk result (λ o. existence (lookups_in (development self.old)) (tree_at self.old.store ty) ≡ Accepted tt (conditions_of self.new.store o) []) }
        ensures goal { IfOk result (IsExistence (lookups_in (development self.old)) (known_in self.new.store (development self.new)) (tree_at self.old.store ty)) }
        ensures refused { IfErr result (IsFault (existence (lookups_in (development self.old)) (tree_at self.old.store ty))) }
        ensures kept { Grows (known_in self.old.store (development self.old)) (known_in self.new.store (development self.new)) }
    {
        if self.is_known_nonempty(ty)? {
            return Ok(None);
        }
        let goal = self.existential(here, ty)?;
        Ok(Some(goal))
    }
}
