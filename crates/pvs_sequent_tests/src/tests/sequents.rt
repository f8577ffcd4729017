//! Each public call of `pvs_sequent` once with its answer, and cases of sequents that are closed.

ghost use Rattle.pvs_terms.specs.Stored.{IsNode};
ghost use Rattle.pvs_sequent.specs.Numbers.{IsSequent};

use crate::letters::formula;
use crate::written::{is_written, sequent_of};
use pvs_sequent::{IdList, Place, RuleFault, Sequent, Side, place_of, push_open, side_of};
use pvs_terms::{Id, MakeFault, Store};
use std::alloc::{AllocError, Global};
use std::process::Abort;
use std::test::Fail;

#[test]
fn numbers_name_places(rt: HostRuntime) -> Result<(), Fail> {
    assert!(rt; place_of(0) == Place::Nowhere);
    assert!(rt; place_of(1) == Place::Consequent(0));
    assert!(rt; place_of(-1) == Place::Antecedent(0));
    assert!(rt; place_of(-9223372036854775808) == Place::Antecedent(9223372036854775807));
    assert!(rt; side_of(place_of(-3)) == Side::Antecedents);
    assert!(rt; side_of(place_of(3)) == Side::Consequents);
    assert!(rt; side_of(Place::Nowhere) == Side::Consequents);
    assert!(rt; RuleFault::from(AllocError) == RuleFault::Memory);
    Ok(())
}

/// A sequent, its last consequent, and whether the rule axiom closes it.
const CASES: [(&str, u8, bool); 12] = [
    ("pq|p", b'q', true),
    ("qqp|", b'p', true),
    ("T|", b'T', true),
    ("pF|", b'q', true),
    ("F|", b'F', true),
    ("p|T", b'q', true),
    ("|", b'T', true),
    ("|", b'p', false),
    ("pp|qq", b'q', false),
    ("T|", b'q', false),
    ("p|F", b'q', false),
    ("T|", b'F', false),
];

/// Whether the rule axiom closes a sequent, by the sequent itself and by what is left of it as a
/// premise.
fn is_closed_twice(alloc: Global, store: &Store, sequent: Sequent) -> Result<[bool; 2], AllocError>
    requires { IsSequent store.now sequent }
{
    let closed = sequent.is_closed(store);
    let mut premises = Vec::new(alloc);
    push_open(store, &mut premises, sequent)?;
    Ok([closed, premises.is_empty()])
}

#[test]
fn three_causes_close_a_sequent(rt: HostRuntime) -> Result<(), Fail> {
    let mut store = Store::new(rt.alloc())?;
    are_closed_by_three_causes(&rt, rt.alloc(), &mut store)
}

fn are_closed_by_three_causes(
    rt: &impl Abort,
    alloc: Global,
    store: &mut Store,
) -> Result<(), Fail> {
    for (letters, last, wanted) in CASES {
        let sequent = sequent_of(alloc, store, letters, last)?;
        let closed = is_closed_twice(alloc, store, sequent)?;
        assert!(rt; closed == [wanted, wanted], "at {letters}");
    }
    Ok(())
}

#[test]
fn a_formula_is_taken_out(rt: HostRuntime) -> Result<(), Fail> {
    let mut store = Store::new(rt.alloc())?;
    is_taken_out(&rt, rt.alloc(), &mut store)
}

fn is_taken_out(rt: &impl Abort, alloc: Global, store: &mut Store) -> Result<(), Fail> {
    let mut sequent = sequent_of(alloc, store, "pq|pTF", b'q')?;
    takes_out(rt, alloc, store, &mut sequent)
}

/// Takes out the formula at a place, where there is one.
fn remove_any(store: &Store, sequent: &mut Sequent, place: Place)
    requires { IsSequent store.now sequent.old }
{
    if let Some(_) = sequent.formula_at(place) {
        sequent.remove(store, place);
    }
}

/// Takes out the second consequent, and looks at what is left and at a copy of what was there.
fn takes_out(
    rt: &impl Abort,
    alloc: Global,
    store: &mut Store,
    sequent: &mut Sequent,
) -> Result<(), Fail>
    requires { IsSequent store.old sequent.old }
{
    let copy = sequent.copy(alloc)?;
    remove_any(store, sequent, Place::Consequent(1));
    assert!(rt; is_written(store, sequent, "pq|pFq")?);
    is_as_before(rt, store, &copy)
}

fn is_as_before(rt: &impl Abort, store: &mut Store, copy: &Sequent) -> Result<(), Fail> {
    assert!(rt; is_written(store, copy, "pq|pTFq")?);
    Ok(())
}

#[test]
fn a_formula_is_added(rt: HostRuntime) -> Result<(), Fail> {
    let mut store = Store::new(rt.alloc())?;
    is_added(&rt, rt.alloc(), &mut store)
}

fn is_added(rt: &impl Abort, alloc: Global, store: &mut Store) -> Result<(), Fail> {
    let mut sequent = sequent_of(alloc, store, "p|", b'q')?;
    adds_true(rt, store, &mut sequent)
}

/// Whether the rule axiom closes a sequent with one more consequent. The sequent is then as before.
fn closes_with(store: &Store, sequent: &mut Sequent, consequent: Id) -> Result<bool, AllocError>
    requires sequent { IsSequent store.now sequent.old }
    requires consequent { IsNode store.now consequent }
{
    sequent.add(store, Side::Consequents, consequent)?;
    let closed = sequent.is_closed(store);
    sequent.undo_add(store, Side::Consequents, consequent);
    Ok(closed)
}

/// Adds an antecedent, and then a consequent that is taken out again: whether that one closes the
/// sequent.
fn add_both(store: &Store, sequent: &mut Sequent, formula: Id) -> Result<bool, AllocError>
    requires sequent { IsSequent store.now sequent.old }
    requires formula { IsNode store.now formula }
{
    sequent.add(store, Side::Antecedents, formula)?;
    closes_with(store, sequent, formula)
}

/// Adds TRUE, which is left out as an antecedent and closes the sequent as a consequent.
fn adds_true(rt: &impl Abort, store: &mut Store, sequent: &mut Sequent) -> Result<(), Fail>
    requires { IsSequent store.old sequent.old }
{
    let truth = formula(store, b'T')?;
    assert!(rt; add_both(store, sequent, truth)?);
    assert!(rt; is_written(store, sequent, "p|q")?);
    Ok(())
}

#[test]
fn a_list_grows_at_its_beginning(rt: HostRuntime) -> Result<(), Fail> {
    let mut store = Store::new(rt.alloc())?;
    grows_at_its_beginning(&rt, rt.alloc(), &mut store)
}

/// The numbers of the formulas p, q and TRUE.
fn three_formulas(store: &mut Store) -> Result<[Id; 3], MakeFault> {
    Ok([
        formula(store, b'p')?,
        formula(store, b'q')?,
        formula(store, b'T')?,
    ])
}

/// Adds numbers to a list.
fn push_all(list: &mut IdList, ids: &[Id]) -> Result<(), AllocError> {
    for id in ids {
        list.push_first(*id)?;
    }
    Ok(())
}

fn grows_at_its_beginning(rt: &impl Abort, alloc: Global, store: &mut Store) -> Result<(), Fail> {
    let [p, q, truth] = three_formulas(store)?;
    let mut list = IdList::new(alloc);
    push_all(&mut list, &[p, q, truth])?;
    let copy = list.copy(alloc)?;
    assert!(rt; copy.len() == 3 && copy.get(1) == Some(q) && copy.get(3).is_none());
    if list.len() > 2 {
        assert!(rt; list.remove(2) == p);
    }
    assert!(rt; list.last_first() == [q, truth].as_slice());
    Ok(())
}
