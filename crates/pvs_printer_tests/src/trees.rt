//! Trees that tests make part by part, and their texts.

ghost use Rattle.std.specs.Prelude.{◌≡◌, true, IfOk};
ghost use Rattle.pvs_terms.specs.declared.shape.Sort.TheVariants.{OfType, OfTerm};
ghost use Rattle.pvs_terms.specs.Tree.{IsClosed};
ghost use Rattle.pvs_terms.specs.Stored.{Extends, IsName, IsNode, tree_at};
ghost use Rattle.pvs_instantiate.specs.InstancesView.{development};
ghost use Rattle.pvs_printer_tests.specs.Known.{AllOf, IsMakeable, IsOf, IsSequentOf};

use crate::fault::TreeFault;
use crate::theory::add_theory;
use pvs_cache::NoCache;
use pvs_instantiate::Instances;
use pvs_printer::{print_term, print_type};
use pvs_sequent::{Sequent, Side};
use pvs_term_lines::{put_sequent, put_term_line};
use pvs_terms::{Id, Name, Node, RefKind, Sort, Store};
use std::alloc::Global;

/// Trees over the theory `groups [T: TYPE]`, which has the constant `p`. A call takes only what was
/// made before.
#[derive(Drop)]
pub struct Trees {
    instances: Instances<NoCache>,
    theory: Name,
    types: Vec<Id>,
    terms: Vec<Id>,
    ghost named: { IsName instances.store theory },
    ghost types_known: { AllOf instances.store OfType types.items },
    ghost terms_known: { AllOf instances.store OfTerm terms.items },
}

/// Whether a number is among these. The latest come first.
fn is_among(store: &Store, sort: Sort, ids: &[Id], id: Id) -> bool
    requires { AllOf store.now sort ids.now }
    ensures { result ≡ true → IsOf store.now sort id }
{
    let mut left = ids.len();
    while left > 0 {
        left -= 1;
        if ids[left] == id {
            return true;
        }
    }
    false
}

/// The theory's type formal.
fn formal_type(instances: &mut Instances<NoCache>) -> Result<Id, TreeFault>
    ensures ok { IfOk result (IsOf instances.new.store OfType) }
    ensures kept { Extends instances.old.store instances.new.store }
{
    let r = instances.reference(RefKind::Formal(0), &[])?;
    let made = instances.make(Node::TName(r))?;
    Ok(made)
}

/// The theory's constant.
fn constant(instances: &mut Instances<NoCache>) -> Result<Id, TreeFault>
    ensures ok { IfOk result (IsOf instances.new.store OfTerm) }
    ensures kept { Extends instances.old.store instances.new.store }
{
    let r = instances.reference(RefKind::Own(0), &[])?;
    let made = instances.make(Node::Const(r))?;
    Ok(made)
}

/// The constant of the instance without actuals.
fn plain_instance(instances: &mut Instances<NoCache>, theory: Name) -> Result<Id, TreeFault>
    requires { IsName instances.old.store theory }
    ensures ok { IfOk result (IsOf instances.new.store OfTerm) }
    ensures kept { Extends instances.old.store instances.new.store }
{
    let r = instances.reference(RefKind::Inst(theory, 0), &[])?;
    let made = instances.make(Node::Const(r))?;
    Ok(made)
}

/// The constant of the instance with two actuals.
fn instance(
    instances: &mut Instances<NoCache>,
    theory: Name,
    first: Id,
    second: Id,
) -> Result<Id, TreeFault>
    requires theory { IsName instances.old.store theory }
    requires first { IsNode instances.old.store first }
    requires first_closed { IsClosed (tree_at instances.old.store first) }
    requires second { IsNode instances.old.store second }
    requires second_closed { IsClosed (tree_at instances.old.store second) }
    ensures ok { IfOk result (IsOf instances.new.store OfTerm) }
    ensures kept { Extends instances.old.store instances.new.store }
{
    let r = instances.reference(RefKind::Inst(theory, 0), &[first, second])?;
    let made = instances.make(Node::Const(r))?;
    Ok(made)
}

/// The sequent with an antecedent and a consequent.
fn sequent(alloc: Global, store: &Store, a: Id, b: Id) -> Result<Sequent, TreeFault>
    requires antecedent { IsNode store.now a }
    requires consequent { IsNode store.now b }
    ensures { IfOk result (IsSequentOf store.now a b) }
{
    let mut sequent = Sequent::goal(alloc, store, b)?;
    sequent.push_first(store, Side::Antecedents, a)?;
    Ok(sequent)
}

fn trees_over(alloc: Global, instances: Instances<NoCache>, theory: Name) -> Trees
    requires { IsName instances.store theory }
{
    Trees {
        instances,
        theory,
        types: Vec::new(alloc),
        terms: Vec::new(alloc),
    }
}

impl Trees {
    /// No tree.
    pub fn new(alloc: Global) -> Result<Trees, TreeFault> {
        let mut instances = Instances::new(alloc, NoCache)?;
        let theory = add_theory(&mut instances)?;
        Ok(trees_over(alloc, instances, theory))
    }

    fn is_type(&self, ty: Id) -> bool
        ensures { result ≡ true → IsOf self.now.instances.store OfType ty }
    {
        is_among(self.instances.store(), Sort::OfType, &self.types, ty)
    }

    fn is_term(&self, term: Id) -> bool
        ensures { result ≡ true → IsOf self.now.instances.store OfTerm term }
    {
        is_among(self.instances.store(), Sort::OfTerm, &self.terms, term)
    }

    /// Whether the node is one of a type over what was made before.
    fn makes_type(&self, node: &Node) -> bool
        ensures { result ≡ true → IsMakeable self.now.instances.store OfType node.now }
    {
        match *node {
            Node::TBool => true,
            Node::TSub(a, p) => self.is_type(a) && self.is_term(p),
            Node::TFun(a, b) => self.is_type(a) && self.is_type(b),
            Node::TPair(k, a, b) => k >= 2 && self.is_type(a) && self.is_type(b),
            _ => false,
        }
    }

    fn makes_term(&self, node: &Node) -> bool
        ensures { result ≡ true → IsMakeable self.now.instances.store OfTerm node.now }
    {
        match *node {
            Node::True => true,
            Node::False => true,
            Node::Var(_) => true,
            Node::Lam(a, b) => self.is_type(a) && self.is_term(b),
            Node::App(f, a) => self.is_term(f) && self.is_term(a),
            Node::Tup(k, a, b) => k >= 2 && self.is_term(a) && self.is_term(b),
            Node::Fst(k, a) => k >= 2 && self.is_term(a),
            Node::Snd(k, a) => k >= 2 && self.is_term(a),
            Node::If(c, a, b) => self.is_term(c) && self.is_term(a) && self.is_term(b),
            Node::Eq(a, b) => self.is_term(a) && self.is_term(b),
            _ => false,
        }
    }

    /// A type over what was made before.
    pub fn ty(&mut self, node: Node) -> Result<Id, TreeFault> {
        if !self.makes_type(&node) {
            return Err(TreeFault::NotMade);
        }
        let made = self.instances.make(node)?;
        self.types.push(made)?;
        Ok(made)
    }

    /// A term over what was made before.
    pub fn term(&mut self, node: Node) -> Result<Id, TreeFault> {
        if !self.makes_term(&node) {
            return Err(TreeFault::NotMade);
        }
        let made = self.instances.make(node)?;
        self.terms.push(made)?;
        Ok(made)
    }

    /// The type formal `T`.
    pub fn formal_type(&mut self) -> Result<Id, TreeFault> {
        let ty = formal_type(&mut self.instances)?;
        self.types.push(ty)?;
        Ok(ty)
    }

    /// The constant `p`.
    pub fn constant(&mut self) -> Result<Id, TreeFault> {
        let term = constant(&mut self.instances)?;
        self.terms.push(term)?;
        Ok(term)
    }

    /// `groups.p`.
    pub fn plain_instance(&mut self) -> Result<Id, TreeFault> {
        let term = plain_instance(&mut self.instances, self.theory)?;
        self.terms.push(term)?;
        Ok(term)
    }

    /// `groups[a, b].p`, of a type and a term that are closed.
    pub fn instance(&mut self, a: Id, b: Id) -> Result<Id, TreeFault> {
        if !self.is_type(a) || !self.is_term(b) {
            return Err(TreeFault::NotMade);
        }
        if self.instances.store().free_below(a) > 0 || self.instances.store().free_below(b) > 0 {
            return Err(TreeFault::NotMade);
        }
        let term = instance(&mut self.instances, self.theory, a, b)?;
        self.terms.push(term)?;
        Ok(term)
    }

    /// The text of a term, for a sequent with so many variables.
    pub fn term_text(&self, id: Id, variables: u32) -> Result<Vec<u8>, TreeFault> {
        if !self.is_term(id) {
            return Err(TreeFault::NotMade);
        }
        let mut out = Vec::new(self.instances.allocator());
        print_term(&self.instances, self.theory, id, variables, &mut out)?;
        Ok(out)
    }

    /// The text of a type, for a sequent with so many variables.
    pub fn type_text(&self, id: Id, variables: u32) -> Result<Vec<u8>, TreeFault> {
        if !self.is_type(id) {
            return Err(TreeFault::NotMade);
        }
        let mut out = Vec::new(self.instances.allocator());
        print_type(&self.instances, self.theory, id, variables, &mut out)?;
        Ok(out)
    }

    /// The line of a condition.
    pub fn condition_line(&self, id: Id) -> Result<Vec<u8>, TreeFault> {
        if !self.is_term(id) {
            return Err(TreeFault::NotMade);
        }
        let mut out = Vec::new(self.instances.allocator());
        put_term_line(&self.instances, self.theory, id, &mut out)?;
        Ok(out)
    }

    /// The lines of the sequent with an antecedent and a consequent.
    pub fn sequent_lines(&self, a: Id, b: Id) -> Result<Vec<u8>, TreeFault> {
        if !self.is_term(a) || !self.is_term(b) {
            return Err(TreeFault::NotMade);
        }
        let alloc = self.instances.allocator();
        let made = sequent(alloc, self.instances.store(), a, b)?;
        let mut out = Vec::new(alloc);
        put_sequent(&self.instances, self.theory, &made, &mut out)?;
        Ok(out)
    }
}
