//! The conditions that typing owes at a place.

ghost use Rattle.std.specs.Prelude.{IfOk, IfErr};
ghost use Rattle.pvs_terms.specs.Stored.{tree_at};
ghost use Rattle.pvs_subst.specs.Contexts.{context_at};
ghost use Rattle.pvs_types.specs.Typing.{check, well_formed};
ghost use Rattle.pvs_instantiate.specs.InstancesView.{development};
ghost use Rattle.pvs_typing.specs.Answers.{IsFault};
ghost use Rattle.pvs_typing.specs.Growth.{IsKnownContext};
ghost use Rattle.pvs_elaboration.specs.Known.{Grows, IsTermOf, IsTypeOf};
ghost use Rattle.pvs_place.specs.Existence.{OwesThese};
ghost use Rattle.pvs_place.specs.Place.{IsDeclaredIn, known_in, lookups_in};

use crate::place::Place;
use pvs_cache::Judgements;
use pvs_subst::{Condition, Context};
use pvs_terms::Id;
use pvs_typing::{Judged, TypeFault};

impl<J: Judgements> Place<J> {
    /// The conditions under which a type is well formed in a context, in order.
    ///
    /// Refused as `well_formed` of `pvs_typing` is.
    pub fn type_conditions(
        &mut self,
        context: &Context,
        ty: Id,
    ) -> Result<Vec<Condition>, TypeFault>
        requires context { IsKnownContext self.old.store (IsDeclaredIn (development self.old)) context.now.items }
        requires ty { IsTypeOf (known_in self.old.store (development self.old)) ty }
        ensures ok { IfOk result (λ cs. OwesThese (known_in self.new.store (development self.new)) (well_formed (lookups_in (development self.old)) (context_at self.old.store context.now.items) (tree_at self.old.store ty)) cs.items) }
        ensures refused { IfErr result (IsFault (well_formed (lookups_in (development self.old)) (context_at self.old.store context.now.items) (tree_at self.old.store ty))) }
        ensures kept { Grows (known_in self.old.store (development self.old)) (known_in self.new.store (development self.new)) }
    {
        self.ordered();
        let theory = self.theory;
        let Judged { conditions, .. } = pvs_typing::well_formed(self, theory, context, ty)?;
        Ok(conditions)
    }

    /// The conditions under which a term is of a type in a context, in order.
    ///
    /// Refused as `check` of `pvs_typing` is.
    pub fn term_conditions(
        &mut self,
        context: &Context,
        term: Id,
        ty: Id,
    ) -> Result<Vec<Condition>, TypeFault>
        requires context { IsKnownContext self.old.store (IsDeclaredIn (development self.old)) context.now.items }
        requires term { IsTermOf (known_in self.old.store (development self.old)) term }
        requires ty { IsTypeOf (known_in self.old.store (development self.old)) ty }
        ensures ok { IfOk result (λ cs. OwesThese (known_in self.new.store (development self.new)) (check (lookups_in (development self.old)) (context_at self.old.store context.now.items) (tree_at self.old.store term) (tree_at self.old.store ty)) cs.items) }
        ensures refused { IfErr result (IsFault (check (lookups_in (development self.old)) (context_at self.old.store context.now.items) (tree_at self.old.store term) (tree_at self.old.store ty))) }
        ensures kept { Grows (known_in self.old.store (development self.old)) (known_in self.new.store (development self.new)) }
    {
        self.ordered();
        let theory = self.theory;
        let Judged { conditions, .. } = pvs_typing::check(self, theory, context, term, ty)?;
        Ok(conditions)
    }
}
