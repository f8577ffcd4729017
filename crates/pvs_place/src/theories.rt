//! Typing in the terms of a theory that is being read.

ghost use Rattle.std.specs.Prelude.{◌≡◌, Ok, Err, IfOk};
ghost use Rattle.pvs_base.specs.declared.code.Code.TheVariants as code;
ghost use Rattle.pvs_terms.specs.declared.shape.Sort.TheVariants.{OfType, OfTerm};
ghost use Rattle.pvs_terms.specs.Stored.{IsRef, ref_at};
ghost use Rattle.pvs_types.specs.Forms.{body};
ghost use Rattle.pvs_typing.specs.Answers.{IsOptionKnown, IsTooLarge, IsType, tree_option};
ghost use Rattle.pvs_typing.specs.Growth.{IsKnown};
ghost use Rattle.pvs_instantiate.specs.InstancesView.{Leaves, development};
ghost use Rattle.pvs_place.specs.Place.{IsDeclaredIn, IsLatest, lookups_in, state_in};

use crate::place::Place;
use pvs_cache::Judgements;
use pvs_instantiate::{InstFault, Instances};
use pvs_subst::SubstFault;
use pvs_terms::{Id, MakeFault, Name, Node, RefId, Store};
use pvs_typing::Theories;

/// The type of a constant, in the terms of the latest theory.
fn constant_type<J: Judgements>(
    instances: &mut Instances<J>,
    theory: Name,
    r: RefId,
) -> Result<Id, SubstFault>
    requires latest { IsLatest instances.old theory }
    requires reference { IsRef instances.old.store r }
    requires declared { IsDeclaredIn (development instances.old) OfTerm (ref_at instances.old.store r) }
    ensures ok { IfOk result (IsType instances.new.store (lookups_in (development instances.old)).type_of (ref_at instances.old.store r)) }
    ensures known { IfOk result (IsKnown instances.new.store (IsDeclaredIn (development instances.new)) OfType) }
    ensures large { result ≡ Err SubstFault.TooLarge → IsTooLarge ((lookups_in (development instances.old)).type_of (ref_at instances.old.store r)) }
    ensures kept { Leaves instances.old instances.new }
{
    instances.soundness();
    match instances.type_of(theory, r) {
        Ok(id) => Ok(id),
        Err(InstFault::TooLarge) => Err(SubstFault::TooLarge),
        Err(InstFault::TooManyInstances) => unreachable!(),
        Err(InstFault::Memory) => Err(SubstFault::Memory),
    }
}

/// The body of a defined type, in the terms of the latest theory.
fn type_body<J: Judgements>(
    instances: &mut Instances<J>,
    theory: Name,
    r: RefId,
) -> Result<Option<Id>, SubstFault>
    requires latest { IsLatest instances.old theory }
    requires reference { IsRef instances.old.store r }
    requires declared { IsDeclaredIn (development instances.old) OfType (ref_at instances.old.store r) }
    ensures ok { IfOk result (λ o. body (lookups_in (development instances.old)) (ref_at instances.old.store r) ≡ Ok (tree_option instances.new.store o)) }
    ensures known { IfOk result (IsOptionKnown instances.new.store (IsDeclaredIn (development instances.new))) }
    ensures large { result ≡ Err SubstFault.TooLarge → body (lookups_in (development instances.old)) (ref_at instances.old.store r) ≡ Err code.TooLarge }
    ensures kept { Leaves instances.old instances.new }
{
    instances.soundness();
    match instances.body_of(theory, r) {
        Ok(body) => Ok(body),
        Err(InstFault::TooLarge) => Err(SubstFault::TooLarge),
        Err(InstFault::TooManyInstances) => unreachable!(),
        Err(InstFault::Memory) => Err(SubstFault::Memory),
    }
}

/// What is looked up is what the references of the theory are, after the theories before it. It is
/// the same in the terms of any name, since a place is of one theory alone.
impl<J: Judgements> Theories for Place<J> {
    ghost state = { λ v. state_in v.store (development v) };

    fn store(&self) -> &Store {
        self.instances.store()
    }

    fn make(&mut self, node: Node) -> Result<Id, MakeFault> {
        self.instances.make(node)
    }

    fn lift(&mut self, id: Id, by: u32, from: u32) -> Result<Id, SubstFault> {
        self.instances.lift(id, by, from)
    }

    fn put_in(&mut self, body: Id, arg: Id) -> Result<Id, SubstFault> {
        self.instances.put_in(body, arg)
    }

    fn type_of(&mut self, _theory: Name, r: RefId) -> Result<Id, SubstFault> {
        constant_type(&mut self.instances, self.theory, r)
    }

    fn body_of(&mut self, _theory: Name, r: RefId) -> Result<Option<Id>, SubstFault> {
        type_body(&mut self.instances, self.theory, r)
    }

    fn declared_types(&self, _theory: Name) {
        self.instances.soundness();
    }
}
