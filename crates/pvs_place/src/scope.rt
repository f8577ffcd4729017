//! Elaboration at the next place of a theory that is being read.

ghost use Rattle.pvs_instantiate.specs.InstancesView.{development};
ghost use Rattle.pvs_place.specs.Place.{known_in};

use crate::place::Place;
use pvs_base::Code;
use pvs_cache::Judgements;
use pvs_elaboration::{Here, Scope};
use pvs_subst::SubstFault;
use pvs_terms::{Id, MakeFault, Node, RefId, Store};
use pvs_typing::TypeFault;

impl<J: Judgements> Scope for Place<J> {
    ghost known = { λ v. known_in v.store (development v) };

    fn store(&self) -> &Store {
        self.instances.store()
    }

    fn make(&mut self, node: Node) -> Result<Id, MakeFault> {
        self.instances.make(node)
    }

    fn type_view(&self, id: Id) -> Node {
        self.instances.store().view(id)
    }

    fn lift(&mut self, id: Id, by: u32) -> Result<Id, SubstFault> {
        self.instances.lift(id, by, 0)
    }

    fn lift_type(&mut self, id: Id, by: u32) -> Result<Id, SubstFault> {
        self.instances.lift(id, by, 0)
    }

    fn put_in(&mut self, body: Id, arg: Id) -> Result<Id, SubstFault> {
        self.instances.put_in(body, arg)
    }

    fn head(&mut self, here: &Here, ty: Id) -> Result<Id, TypeFault> {
        let theory = self.theory;
        pvs_typing::head(self, theory, &here.context, ty)
    }

    fn up(&mut self, here: &Here, ty: Id) -> Result<Vec<Id>, TypeFault> {
        let theory = self.theory;
        pvs_typing::up(self, theory, &here.context, ty)
    }

    fn most(&mut self, here: &Here, ty: Id) -> Result<Id, TypeFault> {
        let theory = self.theory;
        pvs_typing::most(self, theory, &here.context, ty)
    }

    fn coerce(&mut self, here: &Here, term: Id, from: Id, to: Id) -> Result<(), TypeFault> {
        let theory = self.theory;
        match pvs_typing::coerce(self, theory, &here.context, term, from, to) {
            Ok(_) => Ok(()),
            Err(fault) => Err(fault),
        }
    }

    fn infer(&mut self, here: &Here, term: Id) -> Result<Id, TypeFault> {
        let theory = self.theory;
        match pvs_typing::infer(self, theory, &here.context, term) {
            Ok(judged) => Ok(judged.ty),
            Err(fault) => Err(fault),
        }
    }

    #[tactic(auto, using(crate::proofs::OutcomeLaws::judged_accepts))]
    fn check(&mut self, here: &Here, term: Id, ty: Id) -> Result<(), TypeFault> {
        let theory = self.theory;
        match pvs_typing::check(self, theory, &here.context, term, ty) {
            Ok(_) => Ok(()),
            Err(fault) => Err(fault),
        }
    }

    #[tactic(auto, using(crate::proofs::OutcomeLaws::judged_accepts))]
    fn well_formed(&mut self, here: &Here, ty: Id) -> Result<(), TypeFault> {
        let theory = self.theory;
        match pvs_typing::well_formed(self, theory, &here.context, ty) {
            Ok(_) => Ok(()),
            Err(fault) => Err(fault),
        }
    }

    fn is_forall(&self, left: Id, right: Id) -> bool {
        pvs_typing::is_forall(self, self.theory, left, right)
    }

    fn predicate(&mut self, here: &Here, term: Id) -> Result<(), TypeFault> {
        match self.instances.store().view(term) {
            Node::Lam(ty, formula) => self.check_predicate(here, ty, formula),
            _ => Err(TypeFault::Refused(Code::Unknown)),
        }
    }

    fn constant_named(&self, name: &[u8]) -> Result<RefId, Code> {
        self.constant(name)
    }

    fn type_named(&self, name: &[u8]) -> Result<RefId, Code> {
        self.declared_type(name)
    }

    fn variable_named(&self, name: &[u8]) -> Result<Id, Code> {
        self.variable_type(name)
    }
}
