//! The premises of a step.

ghost use Rattle.std.specs.Prelude.{◌≡◌, [], ◌∷◌, ◌++◌, OnErr, OnOk};
ghost use Rattle.pvs_sequent.specs.Premises.{still_open};
ghost use Rattle.pvs_sequent.specs.Numbers.{AreSequents, IsSequent, StandForAll, sequent_at, sequents_at};

use crate::sequent::Sequent;
use pvs_terms::Store;
use std::alloc::AllocError;

/// Adds a premise at the end, unless the rule axiom closes it.
pub fn push_open(
    store: &Store,
    premises: &mut Vec<Sequent>,
    premise: Sequent,
) -> Result<(), AllocError>
    requires premises { AreSequents store.now premises.old.items }
    requires premise { IsSequent store.now premise }
    ensures { OnOk result (StandForAll store.now (sequents_at store.now premises.old.items ++ still_open (sequent_at store.now premise ∷ [])) premises.new.items) }
{
    if !premise.is_closed(store) {
        premises.push(premise)?;
    }
    Ok(())
}
