//! The public call, once, with its answers.
//!
//! Functions that borrow the store and the signature have the calls with `?` and the assertions: each early return of a function that
//! owns one of them drops it, and each drop takes seconds to prove.

use crate::{Class, Entry, EntryKind, FormalSig, Import, Signature};
use pvs_terms::{Id, MakeFault, Name, Node, Store};
use std::alloc::{AllocError, Global};
use std::process::Abort;
use std::test::Fail;

/// A name, a type and a formula.
fn parts(store: &mut Store) -> Result<(Name, Id, Id), MakeFault> {
    let name = store.name("groups")?;
    let boolean = store.make(Node::TBool)?;
    let truth = store.make(Node::True)?;
    Ok((name, boolean, truth))
}

/// A defined constant.
fn constant(name: Name, boolean: Id, truth: Id) -> Entry {
    Entry {
        name,
        kind: EntryKind::ConstSig {
            ty: boolean,
            body: Some(truth),
        },
    }
}

/// A lemma.
fn lemma(name: Name, truth: Id) -> Entry {
    Entry {
        name,
        kind: EntryKind::FormulaSig {
            class: Class::Lemma,
            body: truth,
            owner: 0,
        },
    }
}

/// A signature of one formal, two entries and one import.
fn signature(alloc: Global, name: Name, boolean: Id, truth: Id) -> Result<Signature, AllocError> {
    let formal = FormalSig {
        name,
        nonempty: false,
        ty: Some(boolean),
    };
    let import = Import {
        theory: name,
        actuals: vec![in alloc; truth]?,
        place: 1,
    };
    Ok(Signature {
        name,
        formals: vec![in alloc; formal]?,
        entries: vec![in alloc; constant(name, boolean, truth), lemma(name, truth)]?,
        imports: vec![in alloc; import]?,
    })
}

/// The answers of the look-up.
fn counts_from_zero(rt: &impl Abort, signature: &Signature, first: Entry, second: Entry) {
    assert!(rt; signature.lookup(0).copied() == Some(first));
    assert!(rt; signature.lookup(1).copied() == Some(second));
    assert!(rt; signature.lookup(2).is_none());
}

#[test]
fn entries_count_from_zero(rt: HostRuntime) -> Result<(), Fail> {
    let mut store = Store::new(rt.alloc())?;
    let (name, boolean, truth) = parts(&mut store)?;
    let signature = signature(rt.alloc(), name, boolean, truth)?;
    counts_from_zero(
        &rt,
        &signature,
        constant(name, boolean, truth),
        lemma(name, truth),
    );
    Ok(())
}
