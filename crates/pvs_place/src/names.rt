//! What names stand for at a place, with what is known of it.

ghost use Rattle.std.specs.Prelude.{◌≡◌, IfOk, IfErr, Ok, Err};
ghost use Rattle.pvs_terms.specs.declared.shape.Sort.TheVariants.{OfType, OfTerm};
ghost use Rattle.pvs_terms.specs.Stored.{ref_at};
ghost use Rattle.pvs_instantiate.specs.InstancesView.{development};
ghost use Rattle.pvs_elaboration.specs.Known.{IsDeclared, IsTypeOf};
ghost use Rattle.pvs_elaboration.specs.Names.{IsVariable};
ghost use Rattle.pvs_place.specs.Place.{IsTypedVariable, known_in, names_in};

use crate::place::Place;
use pvs_base::Code;
use pvs_cache::Judgements;
use pvs_terms::{Id, RefId};

impl<J: Judgements> Place<J> {
    /// The constant or formal of a name.
    pub(crate) fn constant(&self, name: &[u8]) -> Result<RefId, Code>
        ensures ok { IfOk result (λ r. IsDeclared (known_in self.now.store (development self.now)) OfTerm r × ((names_in (development self.now)).constant_named name.now ≡ Ok (ref_at self.now.store r))) }
        ensures refused { IfErr result (λ c. (names_in (development self.now)).constant_named name.now ≡ Err c) }
    {
        self.instances.soundness();
        self.names.constant_named(name)
    }

    /// The type of a name.
    pub(crate) fn declared_type(&self, name: &[u8]) -> Result<RefId, Code>
        ensures ok { IfOk result (λ r. IsDeclared (known_in self.now.store (development self.now)) OfType r × ((names_in (development self.now)).type_named name.now ≡ Ok (ref_at self.now.store r))) }
        ensures refused { IfErr result (λ c. (names_in (development self.now)).type_named name.now ≡ Err c) }
    {
        self.instances.soundness();
        self.names.type_named(name)
    }

    /// The VAR of a name, with its type.
    fn variable(&self, name: &[u8]) -> Result<(RefId, Id), Code>
        ensures ok { IfOk result (λ v. IsTypedVariable self.now name.now v) }
        ensures refused { IfErr result (λ c. (names_in (development self.now)).variable_named name.now ≡ Err c) }
    {
        self.instances.soundness();
        self.names.variable_named(name)
    }

    /// The type of the VAR of a name.
    pub(crate) fn variable_type(&self, name: &[u8]) -> Result<Id, Code>
        ensures ok { IfOk result (λ i. IsTypeOf (known_in self.now.store (development self.now)) i × IsVariable self.now.store (names_in (development self.now)) name.now i) }
        ensures refused { IfErr result (λ c. (names_in (development self.now)).variable_named name.now ≡ Err c) }
    {
        match self.variable(name) {
            Ok(found) => {
                let ty = found.1;
                let _node = self.instances.store().view(ty);
                Ok(ty)
            }
            Err(code) => Err(code),
        }
    }
}
