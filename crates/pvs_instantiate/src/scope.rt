//! What is visible at a place of a theory.

ghost use Rattle.std.specs.Prelude.{◌≡◌, [], map, IfOk, Err};
ghost use Rattle.pvs_terms.specs.Stored.{IsName, text_at};
ghost use Rattle.pvs_sig.specs.SignatureAt.{import_at};
ghost use Rattle.pvs_instantiate.specs.InstancesView.{development};
ghost use Rattle.pvs_instantiate.specs.Visible.{visible, HasNoImports};
ghost use Rattle.pvs_instantiate.specs.declared.fault.InstFault.{InstFault};

use crate::fault::InstFault;
use crate::instances::Instances;
use pvs_cache::Judgements;
use pvs_sig::Import;
use pvs_terms::Name;

/// What is visible at a place of a theory: `place` is the number of an entry, and each visible
/// instance has the place of the importing that brings it first.
#[derive(Debug, Drop)]
pub struct Scope {
    pub theory: Name,
    pub place: u32,
    pub instances: Vec<Import>,
}

impl<J: Judgements> Instances<J> {
    /// The instances that are visible at a place of the theory, which has no importings.
    pub fn scope_of(&mut self, theory: Name, place: u32) -> Result<Scope, InstFault>
        requires theory { IsName self.old.store theory }
        requires imports { HasNoImports (development self.old) (text_at self.old.store theory) }
        ensures theory { IfOk result (λ x. x.theory ≡ theory) }
        ensures place { IfOk result (λ x. x.place ≡ place) }
        ensures instances { IfOk result (λ x. map (import_at self.new.store) x.instances.items ≡ visible (development self.old) (text_at self.old.store theory) place) }
        ensures large { result ≡ Err InstFault.TooLarge → ⊥ }
        ensures many { result ≡ Err InstFault.TooManyInstances → ⊥ }
        ensures kept { self.new ≡ self.old }
    {
        Ok(Scope {
            theory,
            place,
            instances: Vec::new(self.allocator()),
        })
    }
}
