//! Each public call once with its answer, the limits, and parts that stay as they are.
//!
//! A test makes the store, and a function that borrows it has the calls with `?` and the assertions: each early return of a function
//! that owns a store drops it, and each drop takes seconds to prove.

ghost use Rattle.std.specs.Prelude.{◌≡◌, ◌<◌, length, IfOk};
ghost use Rattle.pvs_terms.specs.Tree as tree;
ghost use Rattle.pvs_terms.specs.Sorts.{IsTerm};
ghost use Rattle.pvs_terms.specs.Stored.{IsNode, tree_at, Stands, Extends};

use crate::{Assumed, Condition, Context, SubstFault, instantiate_node, lift, put_in};
use pvs_terms::{Id, MakeFault, Node, RefKind, Store};
use sqlite_items::Items;
use std::alloc::{AllocError, Global};
use std::process::Abort;
use std::test::Fail;

#[test]
fn lifting_goes_under_binders(rt: HostRuntime) -> Result<(), Fail> {
    let mut store = Store::new(rt.alloc())?;
    lifts_under_binders(&rt, &mut store)
}

fn lifts_under_binders(rt: &impl Abort, store: &mut Store) -> Result<(), Fail> {
    let function = comparison(store, 1)?;
    let lifted = comparison(store, 4)?;
    assert!(rt; lift(store, function, 3, 0)? == lifted);
    assert!(rt; lift(store, lifted, 3, 4)? == lifted);
    Ok(())
}

/// An equation of the variable of the nearest binder with another variable.
fn equation(store: &mut Store, index: u32) -> Result<Id, MakeFault>
    ensures ok { IfOk result (IsNode store.new) }
    ensures term { IfOk result (λ id. IsTerm (tree_at store.new id)) }
    ensures kept { Extends store.old store.new }
{
    let bound = store.make(Node::Var(0))?;
    let free = store.make(Node::Var(index))?;
    let made = store.make(Node::Eq(bound, free))?;
    Ok(made)
}

/// The function that compares its argument with a variable, whose index is that under the binder.
fn comparison(store: &mut Store, index: u32) -> Result<Id, MakeFault>
    ensures ok { IfOk result (IsNode store.new) }
    ensures kept { Extends store.old store.new }
{
    let boolean = store.make(Node::TBool)?;
    let body = equation(store, index)?;
    let made = store.make(Node::Lam(boolean, body))?;
    Ok(made)
}

#[test]
fn lifting_ends_at_the_index(rt: HostRuntime) -> Result<(), Fail> {
    let mut store = Store::new(rt.alloc())?;
    lifts_to_the_last_index(&rt, &mut store)
}

fn lifts_to_the_last_index(rt: &impl Abort, store: &mut Store) -> Result<(), Fail> {
    let variable = store.make(Node::Var(999_999))?;
    let last = lift(store, variable, 1, 0)?;
    assert!(rt; store.view(last) == Node::Var(1_000_000));
    assert!(rt; lift(store, last, 1, 0) == Err(SubstFault::TooLarge));
    Ok(())
}

#[test]
fn putting_in_lowers_the_others(rt: HostRuntime) -> Result<(), Fail> {
    let mut store = Store::new(rt.alloc())?;
    lowers_the_others(&rt, &mut store)
}

fn lowers_the_others(rt: &impl Abort, store: &mut Store) -> Result<(), Fail> {
    let first = store.make(Node::Var(0))?;
    let second = store.make(Node::Var(1))?;
    let body = store.make(Node::Eq(first, second))?;
    let truth = store.make(Node::True)?;
    let result = put_in(store, body, truth)?;
    if let Node::Eq(left, right) = store.view(result) {
        assert!(rt; store.view(left) == Node::True);
        assert!(rt; store.view(right) == Node::Var(0));
    } else {
        assert!(rt; false);
    }
    Ok(())
}

/// The first formal of a theory, as a term.
fn formal(store: &mut Store) -> Result<Id, MakeFault>
    ensures ok { IfOk result (Stands store.new (tree.Const (tree.Formal 0))) }
    ensures kept { Extends store.old store.new }
{
    let r = store.reference(RefKind::Formal(0), &[])?;
    let made = store.make(Node::Const(r))?;
    Ok(made)
}

#[test]
fn formals_become_actuals(rt: HostRuntime) -> Result<(), Fail> {
    let mut store = Store::new(rt.alloc())?;
    replaces_a_formal(&rt, &mut store)
}

fn replaces_a_formal(rt: &impl Abort, store: &mut Store) -> Result<(), Fail> {
    let theory = store.name("sets")?;
    let truth = store.make(Node::True)?;
    let constant = formal(store)?;
    let result = instantiate_node(store, constant, theory, &[truth])?;
    assert!(rt; result == truth);
    Ok(())
}

/// The conjunction of a formula with itself.
fn doubled(store: &mut Store, formula: Id) -> Result<Id, MakeFault>
    requires node { IsNode store.old formula }
    requires term { IsTerm (tree_at store.old formula) }
    ensures ok { IfOk result (IsNode store.new) }
    ensures term { IfOk result (λ id. IsTerm (tree_at store.new id)) }
    ensures kept { Extends store.old store.new }
{
    let falsity = store.make(Node::False)?;
    let both = store.make(Node::If(formula, formula, falsity))?;
    Ok(both)
}

/// A formula of 786,430 nodes.
fn chain(store: &mut Store) -> Result<Id, MakeFault>
    ensures node { IfOk result (IsNode store.new) }
    ensures term { IfOk result (λ id. IsTerm (tree_at store.new id)) }
{
    let mut formula = store.make(Node::True)?;
    for _ in 0..18 {
        formula = doubled(store, formula)?;
    }
    Ok(formula)
}

#[test]
fn what_holds_no_index_stays(rt: HostRuntime) -> Result<(), Fail> {
    let mut store = Store::new(rt.alloc())?;
    keeps_what_holds_no_index(&rt, &mut store)
}

fn keeps_what_holds_no_index(rt: &impl Abort, store: &mut Store) -> Result<(), Fail> {
    let formula = chain(store)?;
    let variable = store.make(Node::Var(0))?;
    let body = store.make(Node::Eq(formula, variable))?;
    let result = put_in(store, body, variable)?;
    if let Node::Eq(left, _) = store.view(result) {
        assert!(rt; left == formula);
    } else {
        assert!(rt; false);
    }
    Ok(())
}

#[test]
fn conditions_hold_their_context(rt: HostRuntime) -> Result<(), Fail> {
    let mut store = Store::new(rt.alloc())?;
    holds_its_context(&rt, &mut store)
}

fn holds_its_context(rt: &impl Abort, store: &mut Store) -> Result<(), Fail> {
    let boolean = store.make(Node::TBool)?;
    let goal = store.make(Node::Var(0))?;
    let items = Items::from_slice(
        store.allocator(),
        &[Assumed::Hyp(goal), Assumed::Bind(boolean)],
    )?;
    let condition = Condition {
        context: Context { items },
        goal,
    };
    assert!(rt; condition.context.items.len() == 2);
    assert!(rt; condition.goal == goal);
    Ok(())
}
