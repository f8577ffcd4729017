//! The names of a theory with a formal, a constant, a VAR and a type, entry by entry.

use crate::PlaceNames;
use pvs_base::Code;
use pvs_cache::{Judgements, NoCache};
use pvs_instantiate::Instances;
use pvs_sig::{Entry, EntryKind, FormalSig};
use pvs_terms::{Node, RefId, RefKind};
use std::alloc::Global;
use std::process::Abort;
use std::test::Fail;

/// Declares a type formal.
fn declare_formal<J: Judgements>(
    instances: &mut Instances<J>,
    names: &mut PlaceNames,
    word: &str,
) -> Result<(), Fail> {
    let name = instances.name(word)?;
    let formal = FormalSig {
        name,
        nonempty: false,
        ty: None,
    };
    names.add_formal(instances, &formal)?;
    Ok(())
}

/// Declares a constant of type `bool`.
fn declare_constant<J: Judgements>(
    instances: &mut Instances<J>,
    names: &mut PlaceNames,
    word: &str,
) -> Result<(), Fail> {
    let ty = instances.make(Node::TBool)?;
    let name = instances.name(word)?;
    let kind = EntryKind::ConstSig { ty, body: None };
    names.add_entry(instances, &Entry { name, kind })?;
    Ok(())
}

/// Declares a VAR of type `bool`.
fn declare_variable<J: Judgements>(
    instances: &mut Instances<J>,
    names: &mut PlaceNames,
    word: &str,
) -> Result<(), Fail> {
    let ty = instances.make(Node::TBool)?;
    let name = instances.name(word)?;
    let kind = EntryKind::VarSig { ty };
    names.add_entry(instances, &Entry { name, kind })?;
    Ok(())
}

/// The references of the formal with number 0 and of the entry with number 0.
fn references<J: Judgements>(instances: &mut Instances<J>) -> Result<(RefId, RefId), Fail> {
    let formal = instances.reference(RefKind::Formal(0), &[])?;
    let entry = instances.reference(RefKind::Own(0), &[])?;
    Ok((formal, entry))
}

/// What names stand for before any entry.
fn at_first(rt: &impl Abort, names: &PlaceNames, formal: RefId) {
    assert!(rt; names.type_named(b"T") == Ok(formal));
    assert!(rt; names.constant_named(b"T") == Err(Code::Unknown));
    assert!(rt; names.constant_named(b"k") == Err(Code::Unknown));
    assert!(rt; names.type_named(b"nat") == Err(Code::OutOfProfile));
}

/// What names stand for after the constant `k`, the VAR `v` and the constant `nat`.
fn at_last(rt: &impl Abort, names: &PlaceNames, entry: RefId) {
    assert!(rt; names.constant_named(b"k") == Ok(entry));
    assert!(rt; names.variable_named(b"k").is_err());
    assert!(rt; names.constant_named(b"v") == Err(Code::Unknown));
    assert!(rt; names.variable_named(b"v").is_ok());
    assert!(rt; names.constant_named(b"nat").is_ok());
    assert!(rt; names.type_named(b"nat") == Err(Code::OutOfProfile));
}

/// Declares the entries.
fn declare<J: Judgements>(
    instances: &mut Instances<J>,
    names: &mut PlaceNames,
) -> Result<(), Fail> {
    declare_constant(instances, names, "k")?;
    declare_variable(instances, names, "v")?;
    declare_constant(instances, names, "nat")?;
    Ok(())
}

/// What the test asserts.
fn finds<J: Judgements>(
    rt: &impl Abort,
    instances: &mut Instances<J>,
    names: &mut PlaceNames,
) -> Result<(), Fail> {
    let (formal, entry) = references(instances)?;
    declare_formal(instances, names, "T")?;
    at_first(rt, names, formal);
    declare(instances, names)?;
    at_last(rt, names, entry);
    Ok(())
}

/// The same, with an index of its own.
fn finds_in<J: Judgements>(
    rt: &impl Abort,
    alloc: Global,
    instances: &mut Instances<J>,
) -> Result<(), Fail> {
    let mut names = PlaceNames::new(alloc);
    finds(rt, instances, &mut names)
}

#[test]
fn names_are_found_entry_by_entry(rt: HostRuntime) -> Result<(), Fail> {
    let mut instances = Instances::new(rt.alloc(), NoCache)?;
    finds_in(&rt, rt.alloc(), &mut instances)
}
