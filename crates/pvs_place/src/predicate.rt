//! Whether a term is the predicate of a universal formula.

ghost use Rattle.std.specs.Prelude.{◌≡◌, ◌∷◌, IfOk, IfErr};
ghost use Rattle.pvs_terms.specs.Tree.{TBool};
ghost use Rattle.pvs_terms.specs.Stored.{tree_at};
ghost use Rattle.pvs_subst.specs.Contexts.{Variable, context_at};
ghost use Rattle.pvs_types.specs.Typing.{check, predicate_check, typing};
ghost use Rattle.pvs_instantiate.specs.InstancesView.{development};
ghost use Rattle.pvs_typing.specs.Answers.{IsFault};
ghost use Rattle.pvs_elaboration.specs.Known.{Accepts, Grows, IsHere, IsTermOf, IsTypeOf};
ghost use Rattle.pvs_place.specs.Place.{known_in, lookups_in};

use crate::place::Place;
use pvs_cache::Judgements;
use pvs_elaboration::Here;
use pvs_subst::{Assumed, Context};
use pvs_terms::Id;
use pvs_typing::TypeFault;
use sqlite_items::Items;
use std::alloc::{AllocError, Global};

/// The context under a variable of this type.
fn under_variable(alloc: Global, context: &Context, ty: Id) -> Result<Context, AllocError>
    ensures { IfOk result (λ c. c.items ≡ Assumed.Bind ty ∷ context.now.items) }
{
    let mut items = Items::new(alloc);
    items.push(Assumed::Bind(ty))?;
    let outer = Items::from_slice(alloc, context.items.as_slice())?;
    items.append(outer)?;
    Ok(Context { items })
}

impl<J: Judgements> Place<J> {
    /// Whether a term is a formula under a variable of this type.
    fn check_formula(&mut self, here: &Here, ty: Id, formula: Id) -> Result<(), TypeFault>
        requires here { IsHere (known_in self.old.store (development self.old)) here.now }
        requires ty { IsTypeOf (known_in self.old.store (development self.old)) ty }
        requires formula { IsTermOf (known_in self.old.store (development self.old)) formula }
        ensures ok { IfOk result (λ u. Accepts (check (lookups_in (development self.old)) (Variable (tree_at self.old.store ty) ∷ context_at self.old.store here.now.context.items) (tree_at self.old.store formula) TBool) tt) }
        ensures refused { IfErr result (IsFault (check (lookups_in (development self.old)) (Variable (tree_at self.old.store ty) ∷ context_at self.old.store here.now.context.items) (tree_at self.old.store formula) TBool)) }
        ensures kept { Grows (known_in self.old.store (development self.old)) (known_in self.new.store (development self.new)) }
    {
        let alloc = self.instances.allocator();
        let context = under_variable(alloc, &here.context, ty)?;
        let theory = self.theory;
        match pvs_typing::check(self, theory, &context, formula, here.truth) {
            Ok(_) => Ok(()),
            Err(fault) => Err(fault),
        }
    }

    /// Whether a type is well formed, and a term is a formula under a variable of this type.
    pub(crate) fn check_predicate(
        &mut self,
        here: &Here,
        ty: Id,
        formula: Id,
    ) -> Result<(), TypeFault>
        requires here { IsHere (known_in self.old.store (development self.old)) here.now }
        requires ty { IsTypeOf (known_in self.old.store (development self.old)) ty }
        requires formula { IsTermOf (known_in self.old.store (development self.old)) formula }
        ensures ok { IfOk result (λ u. Accepts (predicate_check (tree_at self.old.store ty) (typing (lookups_in (development self.old)) (tree_at self.old.store ty)) (typing (lookups_in (development self.old)) (tree_at self.old.store formula)) (context_at self.old.store here.now.context.items)) tt) }
        ensures refused { IfErr result (IsFault (predicate_check (tree_at self.old.store ty) (typing (lookups_in (development self.old)) (tree_at self.old.store ty)) (typing (lookups_in (development self.old)) (tree_at self.old.store formula)) (context_at self.old.store here.now.context.items))) }
        ensures kept { Grows (known_in self.old.store (development self.old)) (known_in self.new.store (development self.new)) }
    {
        let theory = self.theory;
        pvs_typing::well_formed(self, theory, &here.context, ty)?;
        self.check_formula(here, ty, formula)
    }
}
