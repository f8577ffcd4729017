//! Trees that tests make, part by part.

ghost use Rattle.std.specs.Prelude.{◌≡◌, true, IfOk};
ghost use Rattle.pvs_terms.specs.declared.shape.Sort.TheVariants.{OfType, OfTerm};
ghost use Rattle.pvs_typing.specs.Growth.{IsKnown, IsKnownContext, IsKnownItem};
ghost use Rattle.pvs_typing_tests.specs.Example.{AllOf, IsDeclared, IsExample, IsMakeable};
ghost use Rattle.pvs_terms.specs.Tree.{TBool, TSub, Var};
ghost use Rattle.pvs_terms.specs.Sorts.{IsType};
ghost use Rattle.pvs_terms.specs.Stored.{Extends, IsName, IsNode, IsRef, Stands, tree_at};

use crate::example::Example;
use pvs_base::Code;
use pvs_subst::{Assumed, Context};
use pvs_terms::{Id, Name, Node, RefId, RefKind, Sort, Store};
use pvs_typing::{Judged, Theories, TypeFault, check, coerce, head, infer, most, up, well_formed};
use sqlite_items::Items;
use std::alloc::Global;

/// Theories with what was made in their store. A call takes only what was made before.
#[derive(Drop)]
pub struct Trees {
    example: Example,
    theory: Name,
    types: Vec<Id>,
    terms: Vec<Id>,
    ghost named: { IsName example.store theory },
    ghost types_known: { AllOf example.store OfType types.items },
    ghost terms_known: { AllOf example.store OfTerm terms.items },
}

/// The answer to a test that takes a part which was not made before. Typing never gives this code.
fn not_made() -> TypeFault {
    TypeFault::Refused(Code::Unexpected)
}

/// Whether a number is among these. The latest come first.
fn is_among(store: &Store, sort: Sort, ids: &[Id], id: Id) -> bool
    requires { AllOf store.now sort ids.now }
    ensures { result ≡ true → IsKnown store.now IsDeclared sort id }
{
    let mut left = ids.len();
    while left > 0 {
        left -= 1;
        if ids[left] == id {
            return true;
        }
    }
    false
}

/// A subtype of the truth values: those that are TRUE.
fn subtype(store: &mut Store) -> Result<Id, TypeFault>
    ensures ok { IfOk result (Stands store.new (TSub TBool (Var 0))) }
    ensures kept { Extends store.old store.new }
{
    let truth = store.make(Node::TBool)?;
    let variable = store.make(Node::Var(0))?;
    let made = store.make(Node::TSub(truth, variable))?;
    Ok(made)
}

/// The name of a type.
fn named(store: &mut Store) -> Result<(RefId, Id), TypeFault>
    ensures reference { IfOk result (λ p. IsRef store.new p.0) }
    ensures node { IfOk result (λ p. IsNode store.new p.1) }
    ensures sort { IfOk result (λ p. IsType (tree_at store.new p.1)) }
    ensures kept { Extends store.old store.new }
{
    let defined = store.reference(RefKind::Own(0), &[])?;
    let made = store.make(Node::TName(defined))?;
    Ok((defined, made))
}

/// The name of a type, its reference and its body.
fn fill(store: &mut Store) -> Result<(Id, RefId, Id), TypeFault>
    ensures ok { IfOk result (λ p. IsExample store.new p.0 p.1 p.2) }
    ensures kept { Extends store.old store.new }
{
    let body = subtype(store)?;
    let name = named(store)?;
    Ok((name.1, name.0, body))
}

fn trees_over(alloc: Global, store: Store, theory: Name, parts: (Id, RefId, Id)) -> Trees
    requires theory { IsName store theory }
    requires parts { IsExample store parts.0 parts.1 parts.2 }
{
    Trees {
        example: Example::over(store, parts.0, parts.1, parts.2),
        theory,
        types: Vec::new(alloc),
        terms: Vec::new(alloc),
    }
}

impl Trees {
    /// No tree but those of the defined type.
    pub fn new(alloc: Global) -> Result<Trees, TypeFault> {
        let mut store = Store::new(alloc)?;
        let theory = store.name("theory")?;
        let parts = fill(&mut store)?;
        Ok(trees_over(alloc, store, theory, parts))
    }

    /// The name of the defined type, whose body is a subtype of the truth values.
    pub fn defined_type(&mut self) -> Result<Id, TypeFault> {
        let ty = self.example.defined_type();
        self.types.push(ty)?;
        Ok(ty)
    }

    /// The name of the theory's own type of this number. That of the defined type is 0, and each other
    /// one is defined as the one before it.
    pub fn own_type(&mut self, number: u32) -> Result<Id, TypeFault> {
        let ty = self.example.own_type(number)?;
        self.types.push(ty)?;
        Ok(ty)
    }

    /// The name of a type formal, which has no body.
    pub fn formal_type(&mut self, number: u32) -> Result<Id, TypeFault> {
        let ty = self.example.formal_type(number)?;
        self.types.push(ty)?;
        Ok(ty)
    }

    /// The constant of this number, of the defined type.
    pub fn constant(&mut self, number: u32) -> Result<Id, TypeFault> {
        let term = self.example.constant(number)?;
        self.terms.push(term)?;
        Ok(term)
    }

    fn is_type(&self, ty: Id) -> bool
        ensures { result ≡ true → IsKnown self.now.example.store IsDeclared OfType ty }
    {
        is_among(self.example.store(), Sort::OfType, &self.types, ty)
    }

    fn is_term(&self, term: Id) -> bool
        ensures { result ≡ true → IsKnown self.now.example.store IsDeclared OfTerm term }
    {
        is_among(self.example.store(), Sort::OfTerm, &self.terms, term)
    }

    /// Whether the node is one of a type over what was made before.
    fn makes_type(&self, node: &Node) -> bool
        ensures { result ≡ true → IsMakeable self.now.example.store OfType node.now }
    {
        match *node {
            Node::TBool => true,
            Node::TSub(a, p) => self.is_type(a) && self.is_term(p),
            Node::TFun(a, b) => self.is_type(a) && self.is_type(b),
            Node::TPair(k, a, b) => k >= 2 && self.is_type(a) && self.is_type(b),
            _ => false,
        }
    }

    fn makes_term(&self, node: &Node) -> bool
        ensures { result ≡ true → IsMakeable self.now.example.store OfTerm node.now }
    {
        match *node {
            Node::True => true,
            Node::False => true,
            Node::Var(_) => true,
            Node::Lam(a, b) => self.is_type(a) && self.is_term(b),
            Node::App(f, a) => self.is_term(f) && self.is_term(a),
            Node::Tup(k, a, b) => k >= 2 && self.is_term(a) && self.is_term(b),
            Node::Fst(k, a) => k >= 2 && self.is_term(a),
            Node::Snd(k, a) => k >= 2 && self.is_term(a),
            Node::If(c, a, b) => self.is_term(c) && self.is_term(a) && self.is_term(b),
            Node::Eq(a, b) => self.is_term(a) && self.is_term(b),
            _ => false,
        }
    }

    pub fn ty(&mut self, node: Node) -> Result<Id, TypeFault> {
        if !self.makes_type(&node) {
            return Err(not_made());
        }
        let made = self.example.make(node)?;
        self.types.push(made)?;
        Ok(made)
    }

    pub fn term(&mut self, node: Node) -> Result<Id, TypeFault> {
        if !self.makes_term(&node) {
            return Err(not_made());
        }
        let made = self.example.make(node)?;
        self.terms.push(made)?;
        Ok(made)
    }

    fn is_item(&self, item: &Assumed) -> bool
        ensures { result ≡ true → IsKnownItem self.now.example.store IsDeclared item.now }
    {
        match *item {
            Assumed::Bind(ty) => self.is_type(ty),
            Assumed::Hyp(term) => self.is_term(term),
        }
    }

    /// The context of this one item.
    fn context(&self, item: &Assumed) -> Result<Context, TypeFault>
        ensures known { IfOk result (λ g. IsKnownContext self.now.example.store IsDeclared g.items) }
    {
        if !self.is_item(item) {
            return Err(not_made());
        }
        let mut items = Items::new(self.example.store().allocator());
        items.push(*item)?;
        Ok(Context { items })
    }

    /// The type of a term in the context of this one item.
    pub fn infer(&mut self, item: Assumed, term: Id) -> Result<Judged, TypeFault> {
        let context = self.context(&item)?;
        if !self.is_term(term) {
            return Err(not_made());
        }
        infer(&mut self.example, self.theory, &context, term)
    }

    /// What it takes for a term to be of a type, in the context of this one item.
    pub fn check(&mut self, item: Assumed, term: Id, ty: Id) -> Result<Judged, TypeFault> {
        let context = self.context(&item)?;
        if !self.is_term(term) || !self.is_type(ty) {
            return Err(not_made());
        }
        check(&mut self.example, self.theory, &context, term, ty)
    }

    /// What makes a type well formed, in the context of this one item.
    pub fn well_formed(&mut self, item: Assumed, ty: Id) -> Result<Judged, TypeFault> {
        let context = self.context(&item)?;
        if !self.is_type(ty) {
            return Err(not_made());
        }
        well_formed(&mut self.example, self.theory, &context, ty)
    }

    /// What it takes for a term of one type to be of another, in the context of this one item.
    pub fn coerce(
        &mut self,
        item: Assumed,
        term: Id,
        from: Id,
        to: Id,
    ) -> Result<Judged, TypeFault> {
        let context = self.context(&item)?;
        if !self.is_term(term) || !self.is_type(from) || !self.is_type(to) {
            return Err(not_made());
        }
        coerce(&mut self.example, self.theory, &context, term, from, to)
    }

    /// The head of a type.
    pub fn head(&mut self, item: Assumed, ty: Id) -> Result<Id, TypeFault> {
        let context = self.context(&item)?;
        if !self.is_type(ty) {
            return Err(not_made());
        }
        head(&mut self.example, self.theory, &context, ty)
    }

    /// The types above a type.
    pub fn up(&mut self, item: Assumed, ty: Id) -> Result<Vec<Id>, TypeFault> {
        let context = self.context(&item)?;
        if !self.is_type(ty) {
            return Err(not_made());
        }
        up(&mut self.example, self.theory, &context, ty)
    }

    /// The most general form of a type.
    pub fn most(&mut self, item: Assumed, ty: Id) -> Result<Id, TypeFault> {
        let context = self.context(&item)?;
        if !self.is_type(ty) {
            return Err(not_made());
        }
        most(&mut self.example, self.theory, &context, ty)
    }
}
