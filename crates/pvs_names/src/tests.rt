//! What names stand for, by an index whose members are added one by one.

use crate::{
    NameFault, NameIndex, NameKind, Names, Qualifier, VisibleInstances, add_entry, add_instance,
    resolve,
};
use pvs_cache::{Judgements, NoCache};
use pvs_instantiate::Instances;
use pvs_terms::{Name, RefId, RefKind};
use std::alloc::Global;
use std::process::Abort;
use std::test::Fail;

/// The references of the test: an own constant, a formula that stands later, and the first entry
/// of an instance.
#[derive(Clone, Copy)]
struct Refs {
    constant: RefId,
    formula: RefId,
    first: RefId,
}

/// The index of a place of the theory `here` that sees nothing.
fn empty(alloc: Global, theory: Name) -> Names {
    Names {
        theory,
        visible: NameIndex::new(alloc),
        own: NameIndex::new(alloc),
        instances: VisibleInstances::new(alloc),
    }
}

/// Adds an own constant `a`, and a formula `f` that stands later.
fn add_own<J: Judgements>(
    instances: &mut Instances<J>,
    names: &mut Names,
) -> Result<(RefId, RefId), Fail> {
    let a = instances.name("a")?;
    let f = instances.name("f")?;
    let constant = instances.reference(RefKind::Own(0), &[])?;
    let formula = instances.reference(RefKind::Own(1), &[])?;
    add_entry(&mut names.visible, NameKind::Constant, a, constant)?;
    add_entry(&mut names.own, NameKind::FormulaName, f, formula)?;
    Ok((constant, formula))
}

/// The name `there`, and the reference of an entry of the instance of it that has no actuals.
fn entry_of_there<J: Judgements>(
    instances: &mut Instances<J>,
    number: u32,
) -> Result<(Name, RefId), Fail> {
    let there = instances.name("there")?;
    let reference = instances.reference(RefKind::Inst(there, number), &[])?;
    Ok((there, reference))
}

/// Adds the constants `a`, `b` and `b` of an instance of `there`.
fn add_imported<J: Judgements>(
    instances: &mut Instances<J>,
    names: &mut Names,
) -> Result<RefId, Fail> {
    let a = instances.name("a")?;
    let b = instances.name("b")?;
    let (there, first) = entry_of_there(instances, 0)?;
    let (_, second) = entry_of_there(instances, 1)?;
    let (_, third) = entry_of_there(instances, 2)?;
    names.instances.add(there, first)?;
    add_instance(
        &mut names.visible,
        NameKind::Constant,
        a,
        first,
        there,
        first,
    )?;
    add_instance(
        &mut names.visible,
        NameKind::Constant,
        b,
        second,
        there,
        first,
    )?;
    add_instance(
        &mut names.visible,
        NameKind::Constant,
        b,
        third,
        there,
        first,
    )?;
    Ok(first)
}

/// What a name stands for that is qualified by a theory.
fn by_theory<J: Judgements>(
    instances: &mut Instances<J>,
    names: &Names,
    theory: &str,
    word: &str,
) -> Result<RefId, NameFault> {
    let qualifier = Qualifier {
        theory,
        actuals: None,
    };
    resolve(instances, NameKind::Constant, Some(qualifier), word, names)
}

/// What a name stands for by itself.
fn plain<J: Judgements>(
    instances: &mut Instances<J>,
    names: &Names,
    kind: NameKind,
    word: &str,
) -> Result<RefId, NameFault> {
    resolve(instances, kind, None, word, names)
}

/// Names by themselves.
fn plain_names<J: Judgements>(
    rt: &impl Abort,
    instances: &mut Instances<J>,
    names: &Names,
    refs: &Refs,
) {
    assert!(rt; plain(instances, names, NameKind::Constant, "a") == Ok(refs.constant));
    assert!(rt; plain(instances, names, NameKind::Constant, "b") == Err(NameFault::Ambiguous));
    assert!(rt; plain(instances, names, NameKind::Constant, "f") == Err(NameFault::Unknown));
    assert!(rt; plain(instances, names, NameKind::FormulaName, "f") == Ok(refs.formula));
}

/// Names that a theory qualifies.
fn qualified_names<J: Judgements>(
    rt: &impl Abort,
    instances: &mut Instances<J>,
    names: &Names,
    refs: &Refs,
) {
    assert!(rt; by_theory(instances, names, "here", "a") == Ok(refs.constant));
    assert!(rt; by_theory(instances, names, "there", "a") == Ok(refs.first));
    assert!(rt; by_theory(instances, names, "there", "c") == Err(NameFault::Unknown));
    assert!(rt; by_theory(instances, names, "elsewhere", "a") == Err(NameFault::NotImported));
}

/// What the test asserts.
fn finds<J: Judgements>(
    rt: &impl Abort,
    instances: &mut Instances<J>,
    names: &mut Names,
) -> Result<(), Fail> {
    let (constant, formula) = add_own(instances, names)?;
    let first = add_imported(instances, names)?;
    let refs = Refs {
        constant,
        formula,
        first,
    };
    plain_names(rt, instances, names, &refs);
    qualified_names(rt, instances, names, &refs);
    Ok(())
}

/// The same, with an index of its own.
fn finds_in<J: Judgements>(
    rt: &impl Abort,
    alloc: Global,
    instances: &mut Instances<J>,
) -> Result<(), Fail> {
    let here = instances.name("here")?;
    let mut names = empty(alloc, here);
    finds(rt, instances, &mut names)
}

#[test]
fn names_are_found_by_kind_and_qualifier(rt: HostRuntime) -> Result<(), Fail> {
    let mut instances = Instances::new(rt.alloc(), NoCache)?;
    finds_in(&rt, rt.alloc(), &mut instances)
}
