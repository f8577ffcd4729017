//! Each public call once with its answer, and the limits.
//!
//! A test makes the store, and a function that borrows it has the calls with `?` and the assertions: each early return of a function
//! that owns a store drops it, and each drop takes seconds to prove.

ghost use Rattle.std.specs.Prelude.{◌≡◌, ◌<◌, length, IfOk};
ghost use Rattle.pvs_terms.specs.Sorts.{IsTerm};
ghost use Rattle.pvs_terms.specs.Stored.{IsNode, tree_at, Extends};

use crate::{Id, MakeFault, Node, RefKind, Store};
use std::alloc::AllocError;
use std::process::Abort;
use std::test::Fail;

#[test]
fn equal_texts_have_equal_names(rt: HostRuntime) -> Result<(), Fail> {
    let mut store = Store::new(rt.alloc())?;
    names_equal_texts_alike(&rt, &mut store)
}

fn names_equal_texts_alike(rt: &impl Abort, store: &mut Store) -> Result<(), Fail> {
    let set = store.name("set")?;
    let again = store.name("set")?;
    assert!(rt; set == again);
    assert!(rt; store.same_name(set, again));
    let bag = store.name("bag")?;
    assert!(rt; !store.same_name(again, bag));
    assert_eq!(rt; store.text(bag), "bag");
    let _alloc = store.allocator();
    store.one_name_per_text();
    Ok(())
}

#[test]
fn equal_references_have_equal_numbers(rt: HostRuntime) -> Result<(), Fail> {
    let mut store = Store::new(rt.alloc())?;
    numbers_equal_references_alike(&rt, &mut store)
}

fn numbers_equal_references_alike(rt: &impl Abort, store: &mut Store) -> Result<(), Fail> {
    let boolean = store.make(Node::TBool)?;
    let set = store.name("set")?;
    let entry = store.reference(RefKind::Inst(set, 3), &[boolean])?;
    assert!(rt; store.kind(entry) == RefKind::Inst(set, 3));
    assert_eq!(rt; store.actuals(entry).len(), 1);
    let again = store.reference(RefKind::Inst(set, 3), &[boolean])?;
    assert!(rt; entry == again);
    assert!(rt; store.same_reference(entry, again));
    let own = store.reference(RefKind::Own(3), &[])?;
    assert!(rt; !store.same_reference(again, own));
    store.one_reference();
    Ok(())
}

#[test]
fn numbers_stand_for_what_was_made(rt: HostRuntime) -> Result<(), Fail> {
    let mut store = Store::new(rt.alloc())?;
    numbers_what_was_made(&rt, &mut store)
}

fn numbers_what_was_made(rt: &impl Abort, store: &mut Store) -> Result<(), Fail> {
    let own = store.reference(RefKind::Own(7), &[])?;
    let constant = store.make(Node::Const(own))?;
    assert!(rt; store.is_local(constant));
    let variable = store.make(Node::Var(1))?;
    assert!(rt; store.same(variable, variable));
    assert!(rt; !store.same(constant, variable));
    store.one_node_per_tree();
    let applied = store.make(Node::App(constant, variable))?;
    assert_eq!(rt; store.free_below(applied), 2);
    let boolean = store.make(Node::TBool)?;
    let function = store.make(Node::Lam(boolean, applied))?;
    assert!(rt; store.view(function) == Node::Lam(boolean, applied));
    assert_eq!(rt; store.depth(function), 3);
    assert_eq!(rt; store.size(function), 5);
    assert_eq!(rt; store.free_below(function), 1);
    Ok(())
}

/// The conjunction of a formula with itself.
fn doubled(store: &mut Store, formula: Id) -> Result<Id, MakeFault>
    requires node { IsNode store.old formula }
    requires term { IsTerm (tree_at store.old formula) }
    ensures ok { IfOk result (IsNode store.new) }
    ensures term { IfOk result (λ id. IsTerm (tree_at store.new id)) }
    ensures kept { Extends store.old store.new }
{
    let falsity = store.make(Node::False)?;
    let both = store.make(Node::If(formula, formula, falsity))?;
    Ok(both)
}

#[test]
fn a_chain_of_conjunctions_ends_at_its_size(rt: HostRuntime) -> Result<(), Fail> {
    let mut store = Store::new(rt.alloc())?;
    doubles_to_the_largest_size(&rt, &mut store)
}

fn doubles_to_the_largest_size(rt: &impl Abort, store: &mut Store) -> Result<(), Fail> {
    let own = store.reference(RefKind::Own(0), &[])?;
    let mut formula = store.make(Node::Const(own))?;
    let mut size = 1;
    for _ in 0..18 {
        assert_eq!(rt; store.size(formula), size);
        formula = doubled(store, formula)?;
        size = (2 * size + 2) % (1 << 40);
    }
    assert_eq!(rt; store.size(formula), 786_430);
    assert!(rt; doubled(store, formula) == Err(MakeFault::TooLarge));
    Ok(())
}

#[test]
fn a_chain_of_projections_ends_at_its_depth(rt: HostRuntime) -> Result<(), Fail> {
    let mut store = Store::new(rt.alloc())?;
    projects_to_the_greatest_depth(&rt, &mut store)
}

fn projects_to_the_greatest_depth(rt: &impl Abort, store: &mut Store) -> Result<(), Fail> {
    let mut part = store.make(Node::Var(0))?;
    for _ in 1..1000 {
        part = store.make(Node::Snd(2, part))?;
    }
    assert_eq!(rt; store.depth(part), 1000);
    assert!(rt; store.make(Node::Snd(2, part)) == Err(MakeFault::TooLarge));
    Ok(())
}

#[test]
fn variables_end_at_their_index(rt: HostRuntime) -> Result<(), Fail> {
    let mut store = Store::new(rt.alloc())?;
    makes_variables_to_the_last_index(&rt, &mut store)
}

fn makes_variables_to_the_last_index(rt: &impl Abort, store: &mut Store) -> Result<(), Fail> {
    let last = store.make(Node::Var(1_000_000))?;
    assert_eq!(rt; store.free_below(last), 1_000_001);
    assert!(rt; store.make(Node::Var(1_000_001)) == Err(MakeFault::TooLarge));
    Ok(())
}
