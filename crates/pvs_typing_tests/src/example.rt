//! Theories for tests.

ghost use Rattle.std.specs.Prelude.{◌≡◌, Err, IfOk};
ghost use Rattle.pvs_terms.specs.Tree.{Own, TName};
ghost use Rattle.pvs_terms.specs.Sorts.{IsType};
ghost use Rattle.pvs_typing.specs.Answers.{tree_option, IsOptionKnown};
ghost use Rattle.pvs_terms.specs.Stored.{Extends, IsNode, IsRef, ref_at, Stands, tree_at};
ghost use Rattle.pvs_terms.specs.declared.shape.Sort.TheVariants.{OfType, OfTerm};
ghost use Rattle.pvs_typing_tests.specs.Example.{example_state, IsDeclared, IsExample, IsOf, previous};

use pvs_subst::{SubstFault, lift, put_in};
use pvs_terms::{Id, MakeFault, Name, Node, RefId, RefKind, Store};
use pvs_typing::Theories;

/// Theories in which each constant has the same type. One type's name has a body that is a subtype of
/// the truth values, and each of the theory's own types after the first is defined as the one before it.
#[derive(Drop)]
pub struct Example {
    store: Store,
    constant_type: Id,
    defined: RefId,
    body: Id,
    ghost sound: { IsExample store constant_type defined body },
}

impl Example {
    pub(crate) fn over(store: Store, constant_type: Id, defined: RefId, body: Id) -> Example
        requires { IsExample store constant_type defined body }
        ensures { result.store ≡ store }
    {
        Example {
            store,
            constant_type,
            defined,
            body,
        }
    }

    /// The name of the defined type, which is the type of the constants.
    pub(crate) fn defined_type(&self) -> Id
        ensures node { IsNode self.now.store result }
        ensures sort { IsType (tree_at self.now.store result) }
    {
        self.constant_type
    }

    /// The name of the theory's own type of this number. That of the defined type is 0.
    pub(crate) fn own_type(&mut self, number: u32) -> Result<Id, MakeFault>
        ensures ok { IfOk result (IsOf self.new.store OfType) }
        ensures kept { Extends self.old.store self.new.store }
    {
        let r = self.store.reference(RefKind::Own(number), &[])?;
        self.store.make(Node::TName(r))
    }

    /// The name of a type formal, which has no body.
    pub(crate) fn formal_type(&mut self, number: u32) -> Result<Id, MakeFault>
        ensures ok { IfOk result (IsOf self.new.store OfType) }
        ensures kept { Extends self.old.store self.new.store }
    {
        let r = self.store.reference(RefKind::Formal(number), &[])?;
        self.store.make(Node::TName(r))
    }

    /// The constant of this number.
    pub(crate) fn constant(&mut self, number: u32) -> Result<Id, MakeFault>
        ensures ok { IfOk result (IsOf self.new.store OfTerm) }
        ensures kept { Extends self.old.store self.new.store }
    {
        let r = self.store.reference(RefKind::Own(number), &[])?;
        self.store.make(Node::Const(r))
    }
}

/// The name of the theory's own type of this number.
fn own_name(store: &mut Store, number: u32) -> Result<Id, SubstFault>
    ensures ok { IfOk result (Stands store.new (TName (Own number))) }
    ensures fits { ¬ (result ≡ Err SubstFault.TooLarge) }
    ensures kept { Extends store.old store.new }
{
    let r = store.reference(RefKind::Own(number), &[])?;
    let made = store.make(Node::TName(r))?;
    Ok(made)
}

/// The body of a type that is defined as the one before it.
fn previous(store: &mut Store, r: RefId) -> Result<Option<Id>, SubstFault>
    requires { IsRef store.old r }
    ensures ok { IfOk result (λ o. tree_option store.new o ≡ previous (ref_at store.old r)) }
    ensures known { IfOk result (IsOptionKnown store.new IsDeclared) }
    ensures fits { ¬ (result ≡ Err SubstFault.TooLarge) }
    ensures kept { Extends store.old store.new }
{
    match store.kind(r) {
        RefKind::Own(0) => Ok(None),
        RefKind::Own(number) => {
            let made = own_name(store, number - 1)?;
            Ok(Some(made))
        }
        _ => Ok(None),
    }
}

impl Theories for Example {
    ghost state = { λ e. example_state e.store e.constant_type e.defined e.body };

    fn store(&self) -> &Store {
        &self.store
    }

    fn make(&mut self, node: Node) -> Result<Id, MakeFault> {
        self.store.make(node)
    }

    fn lift(&mut self, id: Id, by: u32, from: u32) -> Result<Id, SubstFault> {
        lift(&mut self.store, id, by, from)
    }

    fn put_in(&mut self, body: Id, arg: Id) -> Result<Id, SubstFault> {
        put_in(&mut self.store, body, arg)
    }

    fn type_of(&mut self, _theory: Name, _r: RefId) -> Result<Id, SubstFault> {
        let _node = self.store.view(self.constant_type);
        Ok(self.constant_type)
    }

    fn body_of(&mut self, _theory: Name, r: RefId) -> Result<Option<Id>, SubstFault> {
        let _node = self.store.view(self.body);
        if self.store.same_reference(r, self.defined) {
            Ok(Some(self.body))
        } else {
            previous(&mut self.store, r)
        }
    }

    fn declared_types(&self, _theory: Name) {}
}
