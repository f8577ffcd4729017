//! Typing over `Instances`: the theories that stand are a development.

ghost use Rattle.std.specs.Prelude.{ℕ};
ghost use Rattle.pvs_terms.specs.Stored.{text_at};
ghost use Rattle.pvs_sig.specs.Lookups.{IsOrdered};
ghost use Rattle.pvs_instantiate.specs.InstancesView.{development};
ghost use Rattle.pvs_typing.specs.Development.{lookups_from, state_of};

use crate::theories::Theories;
use pvs_cache::Judgements;
use pvs_instantiate::{InstFault, Instances};
use pvs_subst::SubstFault;
use pvs_terms::{Id, MakeFault, Name, Node, RefId, Store};

/// What is looked up in the terms of a theory that stands is ordered: the body of a defined type is
/// smaller than its name. Nothing is looked up where no theory stands. The call does nothing: its
/// contract states it.
pub fn development_laws<J: Judgements>(instances: &Instances<J>)
    ensures ordered { (n : ℕ) → IsOrdered (lookups_from (development instances.now) (text_at instances.now.store n)) }
{
    instances.soundness();
}

/// The theories that stand. What is looked up in the terms of one is what its references are in the
/// development, and what is declared there is what its trees may mention.
impl<J: Judgements> Theories for Instances<J> {
    ghost state = { λ v. state_of v.store (development v) };

    fn store(&self) -> &Store {
        self.store()
    }

    fn make(&mut self, node: Node) -> Result<Id, MakeFault> {
        self.make(node)
    }

    fn lift(&mut self, id: Id, by: u32, from: u32) -> Result<Id, SubstFault> {
        self.lift(id, by, from)
    }

    fn put_in(&mut self, body: Id, arg: Id) -> Result<Id, SubstFault> {
        self.put_in(body, arg)
    }

    fn type_of(&mut self, theory: Name, r: RefId) -> Result<Id, SubstFault> {
        self.soundness();
        match self.type_of(theory, r) {
            Ok(id) => Ok(id),
            Err(InstFault::TooLarge) => Err(SubstFault::TooLarge),
            Err(InstFault::TooManyInstances) => unreachable!(),
            Err(InstFault::Memory) => Err(SubstFault::Memory),
        }
    }

    fn body_of(&mut self, theory: Name, r: RefId) -> Result<Option<Id>, SubstFault> {
        self.soundness();
        match self.body_of(theory, r) {
            Ok(body) => Ok(body),
            Err(InstFault::TooLarge) => Err(SubstFault::TooLarge),
            Err(InstFault::TooManyInstances) => unreachable!(),
            Err(InstFault::Memory) => Err(SubstFault::Memory),
        }
    }

    fn declared_types(&self, _theory: Name) {}
}
