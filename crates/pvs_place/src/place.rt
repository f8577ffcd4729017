//! The next place of a theory that is being read.

ghost use Rattle.std.specs.Prelude.{◌≡◌, ◌∷◌, None, IfOk};
ghost use Rattle.pvs_terms.specs.Stored.{IsName, text_at};
ghost use Rattle.pvs_sig.specs.Development.{theory_named};
ghost use Rattle.pvs_instantiate.specs.InstancesView.{development};
ghost use Rattle.pvs_instantiate.specs.code.Importing.{IsEmptyOf};
ghost use Rattle.pvs_place.specs.Place.{empty_theory};

use pvs_cache::Judgements;
use pvs_instantiate::Instances;
use pvs_scope::PlaceNames;
use pvs_sig::Signature;
use pvs_terms::Name;
use std::alloc::{AllocError, Global};
use std::marker::Model;

/// The next place of a theory that is being read: the theories that stand, of which this one is the
/// latest, and what names stand for there. Contracts see the theories.
#[derive(Drop)]
pub struct Place<J: Judgements> {
    pub(crate) instances: Instances<J>,
    pub(crate) theory: Name,
    pub(crate) names: PlaceNames,
}

impl<J: Judgements> Model for Place<J> {
    ghost use Rattle.pvs_instantiate.specs.InstancesView.{InstancesView};

    ghost Value = { InstancesView };

    ghost use Rattle.pvs_place.specs.Place.{IsPlace};

    ghost view = { λ p. p.instances };

    ghost invariant = { λ p. IsPlace p.instances p.theory p.names };
}

/// The signature of this name, with nothing in it.
fn empty_signature(alloc: Global, name: Name) -> Signature
    ensures { IsEmptyOf result name }
{
    Signature {
        name,
        formals: Vec::new(alloc),
        entries: Vec::new(alloc),
        imports: Vec::new(alloc),
    }
}

impl<J: Judgements> Place<J> {
    /// The place at the beginning of a theory of this name, after the theories that stand.
    pub fn new(instances: Instances<J>, theory: Name) -> Result<Place<J>, AllocError>
        requires theory { IsName instances.store theory }
        requires new { theory_named (development instances) (text_at instances.store theory) ≡ None }
        ensures theories { IfOk result (λ p. development p ≡ empty_theory (text_at instances.store theory) ∷ development instances) }
        ensures store { IfOk result (λ p. p.store ≡ instances.store) }
    {
        let mut standing = instances;
        let alloc = standing.allocator();
        let signature = empty_signature(alloc, theory);
        standing.add(signature)?;
        Ok(Place {
            instances: standing,
            theory,
            names: PlaceNames::new(alloc),
        })
    }

    /// The theories that stand, with the one that was read.
    pub fn into_instances(self) -> Instances<J>
        ensures { result ≡ self }
    {
        let Place { instances, .. } = self;
        instances
    }
}
